// A directory whose tables are filled: they tell the graph of its file, and its dependencies are in the index of them.
ghost use Rattle.graph.specs.Depending.{Indexed};
ghost use Rattle.graph.specs.Directory.{Tells};
ghost use Rattle.graph.specs.Reading.{graph_of};

use crate::tables::Directory;

#[derive(Clone, Copy)]
pub(crate) struct Filled<'a> {
    pub directory: &'a Directory<'a>,
    ghost told: { ∥ Tells directory.now (graph_of directory.now.index.file.now) ∥₁ },
    ghost named: { ∥ Indexed directory.now.named (graph_of directory.now.index.file.now) ∥₁ },
}

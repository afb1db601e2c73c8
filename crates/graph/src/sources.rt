// The rows of packages.
ghost use Rattle.std.specs.Prelude.{◌≡◌, ℕ, List, length};
ghost use Rattle.records.specs.Graphs.{Declaration};
ghost use Rattle.graph.specs.RowLists.{its, ReadsAs, TableOf, declaration_rows, rows_below};
ghost use Rattle.graph.specs.Rules.{each};
ghost use Rattle.graph.specs.RowWriters.{write_rows};

use crate::contents::DeclarationRecord;
use crate::filled::Filled;
use crate::row_writers::RowWriter;
use crate::tables::Starts;

impl<'a> Filled<'a> {
    // The rows of the dependency or feature at a place, whose number is `item`, of a package.
    fn rows_of_declaration(&self, writer: &mut RowWriter, p: u32, item: u32, start: u32)
        ensures { (declaration : Declaration) → ReadsAs self.now start declaration → writer.new ≡ write_rows writer.old (declaration_rows (its self.now) p item declaration) }
    {
        match self.declaration_at(start) {
            Some(DeclarationRecord::Dependency(d)) => self.dependency_rows(writer, p, item, d),
            Some(DeclarationRecord::Feature(f)) => self.values_rows(writer, p, item, f.values),
            None => {}
        }
    }

    // The rows of some dependencies or features of a package. There are few enough items that the cast of `k` is right.
    fn rows_of_declarations(&self, writer: &mut RowWriter, p: u32, table: Starts)
        ensures { (number : ℕ → ℕ) (declarations : List Declaration) → TableOf self.now table.entry number declarations → writer.new ≡ write_rows writer.old (each (λ k. declaration_rows (its self.now) p (number k)) 0 declarations) }
    {
        for (k, start) in table.starts.iter().enumerate() {
            self.rows_of_declaration(writer, p, table.first + k as u32, *start);
        }
    }

    // All rows of the graph, package by package, first those of its dependencies, then those of its features.
    pub(crate) fn write_package_rows(&self, writer: &mut RowWriter)
        ensures { writer.new ≡ write_rows writer.old (rows_below (its self.now) (length (its self.now))) }
    {
        // a package's number is its item's too
        for p in 0..self.directory.counts.packages {
            self.rows_of_declarations(writer, p, self.dependencies(p));
            self.rows_of_declarations(writer, p, self.features(p));
        }
    }
}

// A graph as a file spells it, with names.
use graph_files::{EdgeKind, FeatureString};

#[derive(Drop)]
pub struct SpelledDependency<'a> {
    pub end: usize,
    pub kind: EdgeKind,
    pub optional: bool,
    pub defaults: bool,
    pub name: &'a [u8],
    pub asks: Vec<&'a [u8]>,
}

#[derive(Drop)]
pub struct SpelledFeature<'a> {
    pub name: &'a [u8],
    pub values: Vec<FeatureString<'a>>,
}

#[derive(Drop)]
pub struct SpelledPackage<'a> {
    pub proc_mark: bool,
    pub name: &'a [u8],
    pub dependencies: Vec<SpelledDependency<'a>>,
    pub features: Vec<SpelledFeature<'a>>,
}

// A graph by numbers, with every name resolved.
use crate::items::{Item, SIDES, Side};
use graph_files::EdgeKind;
use std::alloc::{AllocError, Global};

// A package: the numbers of what it owns.
#[derive(Drop)]
pub struct Package {
    pub dependencies: Vec<usize>,
    pub features: Vec<usize>,
}

#[derive(Drop)]
pub struct Dependency {
    pub owner: usize,
    pub end: usize,
    // whether its end is a procedural macro
    pub to_macro: bool,
    pub kind: EdgeKind,
    pub optional: bool,
    pub defaults: bool,
    // the feature `default` of its end, wanted or not
    pub default: Option<usize>,
    pub asks: Vec<usize>,
}

// One dependency of those that a value names, and the feature of its end.
#[derive(Clone, Copy, PartialEq, Eq)]
pub struct Link {
    pub dependency: usize,
    pub feature: usize,
}

#[derive(Drop)]
pub enum Value {
    Plain(usize),
    Switch(Vec<usize>),
    Strong(Vec<Link>),
    Weak(Vec<Link>),
}

#[derive(Drop)]
pub struct Feature {
    pub owner: usize,
    pub values: Vec<Value>,
}

#[derive(Drop)]
pub struct Graph {
    pub packages: Vec<Package>,
    pub dependencies: Vec<Dependency>,
    pub features: Vec<Feature>,
}

impl Graph {
    // All items of a side, in the order of their numbers.
    fn items_of(&self, heap: Global, side: Side) -> Result<Vec<Item>, AllocError> {
        let units = (0..self.packages.len()).map(|number| side.unit(number));
        let dependencies = (0..self.dependencies.len()).map(|number| side.dependency(number));
        let features = (0..self.features.len()).map(|number| side.feature(number));
        units.chain(dependencies).chain(features).collect(heap)
    }

    // All items, in the order of their numbers.
    pub fn items(&self, heap: Global) -> Result<Vec<Item>, AllocError> {
        let mut items = Vec::new(heap);
        for side in SIDES {
            items.extend_from_slice(self.items_of(heap, side)?.as_slice())?;
        }
        Ok(items)
    }
}

// A graph as packages that own their dependencies and features.
use crate::opener::stops::Place;
use graph_files::EdgeKind;
use std::collections::BTreeMap;
use text::{FeatureString, Piece};

// What a value with a link says: the name of dependencies, whether it turns them on, and the feature of their ends
// that it turns on, if any.
#[derive(Clone, Copy)]
pub struct Link<'a> {
    pub name: &'a [u8],
    pub switches: bool,
    pub feature: Option<&'a [u8]>,
}

#[derive(Clone, Copy)]
pub enum Form<'a> {
    Plain(&'a [u8]),
    Linked(Link<'a>),
}

impl<'a> From<FeatureString<'a>> for Form<'a> {
    fn from(string: FeatureString<'a>) -> Form<'a> {
        let (name, switches, feature) = match string {
            FeatureString::Plain { feature } => return Form::Plain(feature.bytes),
            FeatureString::Switch { dependency } => (dependency.bytes, true, None),
            FeatureString::Strong {
                dependency,
                feature,
            } => (dependency.bytes, true, Some(feature.bytes)),
            FeatureString::Weak {
                dependency,
                feature,
            } => (dependency.bytes, false, Some(feature.bytes)),
        };
        Form::Linked(Link {
            name,
            switches,
            feature,
        })
    }
}

// A value, and the place of its first byte in the record.
#[derive(Clone, Copy)]
pub struct Value<'a> {
    pub at: usize,
    pub form: Form<'a>,
}

#[derive(Drop)]
pub struct Dependency<'a> {
    pub place: Place,
    pub number: u32,
    pub end: u16,
    pub kind: EdgeKind,
    pub optional: bool,
    pub defaults: bool,
    pub name: &'a [u8],
    pub asks: Vec<Piece<'a>>,
}

#[derive(Drop)]
pub struct Feature<'a> {
    pub place: Place,
    pub number: u32,
    pub values: Vec<Value<'a>>,
}

#[derive(Drop)]
pub struct Package<'a> {
    pub number: u32,
    pub proc_mark: bool,
    pub dependencies: Vec<Dependency<'a>>,
    pub features: Vec<Feature<'a>>,
    // the number of each feature by its name
    pub numbers: BTreeMap<Vec<u8>, u32>,
}

// The packages, and how many packages, dependencies and features there are.
#[derive(Drop)]
pub struct Graph<'a> {
    pub packages: Vec<Package<'a>>,
    pub count: u32,
    pub dependencies: u32,
    pub features: u32,
}

impl<'a> Package<'a> {
    // The number of its feature of that name.
    pub fn feature(&self, name: &[u8]) -> Option<u32> {
        self.numbers.get(name).copied()
    }
}

impl<'a> Graph<'a> {
    // The package that a dependency leads to.
    pub fn end(&self, dependency: &Dependency<'a>) -> Option<&Package<'a>> {
        self.packages.get(usize::from(dependency.end))
    }
}

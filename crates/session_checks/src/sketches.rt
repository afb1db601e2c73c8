// Random graphs: which packages there are, with which features and dependencies.
use dice::Dice;
use graph_files::EdgeKind;
use std::alloc::{AllocError, Global};

const FEATURES: [&[u8]; 16] = [
    b"default",
    b"std",
    b"io",
    b"rt",
    b"core",
    b"dep",
    b"0",
    b"_x",
    b"A.b",
    b"c+d",
    b"e-1",
    b"e-2",
    b"e-3",
    b"e-4",
    b"Std",
    b"nnnnnnnnnnnnnnnnnnnnnnnnnnnnnnnnnnnnnnnnnnnnnnnnnnnnnnnnnnnnnnnn",
];

const DEPENDENCIES: [&[u8]; 4] = [b"core", b"dep", b"std", b"late"];

// The dependency name that only graphs with late switches have.
pub const LATE: usize = 3;

pub fn feature_name(number: usize) -> &'static [u8] {
    FEATURES.get(number).copied().unwrap_or(b"other")
}

pub fn dependency_name(number: usize) -> &'static [u8] {
    DEPENDENCIES.get(number).copied().unwrap_or(b"other")
}

// What a graph is made to have.
#[derive(Clone, Copy, PartialEq, Eq)]
pub enum Shape {
    // anything
    Loose,
    // a long chain of packages, and one of features in each
    Chain,
    // a cycle of packages, and one of features in each
    Ring,
    // a chain of features that begins with a weak value and ends with the switch of its dependency
    Late,
}

pub const SHAPES: [Shape; 4] = [Shape::Loose, Shape::Chain, Shape::Ring, Shape::Late];

// A dependency that is drawn, with the number of its name.
#[derive(Clone, Copy)]
pub struct Edge {
    pub name: usize,
    pub end: usize,
    pub kind: EdgeKind,
    pub optional: bool,
    pub defaults: bool,
}

// A graph while it is drawn.
#[derive(Drop)]
pub struct Sketch {
    pub heap: Global,
    pub dice: Dice,
    pub shape: Shape,
    // the features of each package, by the numbers of their names
    pub features: Vec<Vec<usize>>,
}

impl Sketch {
    // The features of a package, often from `default` on: about half of them, or in chains and cycles a run of them.
    fn draw_names(&mut self) -> Result<Vec<usize>, AllocError> {
        let first = if self.dice.coin() {
            0
        } else {
            self.dice.below(16)
        };
        let (most, all) = match self.shape {
            Shape::Loose => (8, false),
            Shape::Chain | Shape::Late => (4 + self.dice.below(13), true),
            Shape::Ring => (2 + self.dice.below(6), true),
        };
        (0..16)
            .cycle()
            .skip(first)
            .take(most)
            .filter(|_| all || self.dice.coin())
            .collect(self.heap)
    }

    fn draw_count(&mut self) -> usize {
        match self.shape {
            Shape::Loose => self.dice.below(6),
            Shape::Chain => 8 + self.dice.below(16),
            Shape::Ring => 1 + self.dice.below(6),
            Shape::Late => 1 + self.dice.below(3),
        }
    }

    pub fn new(heap: Global, seed: u64) -> Result<Sketch, AllocError> {
        let mut dice = Dice::new(seed);
        let shape = SHAPES[dice.below(4)];
        let mut sketch = Sketch {
            heap,
            dice,
            shape,
            features: Vec::new(heap),
        };
        for _ in 0..sketch.draw_count() {
            let names = sketch.draw_names()?;
            sketch.features.push(names)?;
        }
        Ok(sketch)
    }

    pub fn names_of(&self, package: usize) -> &[usize] {
        match self.features.get(package) {
            Some(names) => names.as_slice(),
            None => &[],
        }
    }

    fn draw_edge(&mut self) -> Edge {
        Edge {
            name: self.dice.below(3),
            end: self.dice.below(self.features.len().max(1)),
            kind: EdgeKind::ALL[self.dice.below(3)],
            optional: self.dice.coin(),
            defaults: self.dice.coin(),
        }
    }

    // A first dependency as the shape wants it: on the next package, or switched late.
    fn shaped_edge(&mut self, package: usize) -> Edge {
        let mut edge = self.draw_edge();
        let next = package.saturating_add(1);
        match self.shape {
            Shape::Loose => return edge,
            Shape::Chain => edge.end = next.min(self.features.len().saturating_sub(1)),
            Shape::Ring => edge.end = if next < self.features.len() { next } else { 0 },
            Shape::Late => edge.name = LATE,
        }
        edge.optional = self.shape == Shape::Late || self.dice.below(5) == 0;
        if self.dice.below(5) > 0 {
            edge.kind = EdgeKind::Normal;
        }
        edge
    }

    // The dependencies of a package, of which some have the same name.
    pub fn draw_edges(&mut self, package: usize) -> Result<Vec<Edge>, AllocError> {
        let mut edges = Vec::new(self.heap);
        let edge = self.shaped_edge(package);
        edges.push(edge)?;
        for _ in 0..self.dice.below(4) {
            let edge = self.draw_edge();
            edges.push(edge)?;
        }
        Ok(edges)
    }

    // Features that all ends of the dependencies of that name have.
    pub fn common(&self, edges: &[Edge], name: usize) -> Result<Vec<usize>, AllocError> {
        let mut common: Vec<usize> = (0..16).collect(self.heap)?;
        for edge in edges {
            if edge.name == name {
                let names = self.names_of(edge.end);
                common.retain(|feature| names.contains(feature));
            }
        }
        Ok(common)
    }
}

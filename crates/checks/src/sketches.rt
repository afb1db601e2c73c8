// Random graphs: which packages, dependencies and features there are, and what they refer to.
use dice::Dice;
use std::alloc::{AllocError, Global};

const NAMES: [&[u8]; 7] = [
    b"default",
    b"std",
    b"io",
    b"rt",
    b"a-b",
    b"dep",
    b"nnnnnnnnnnnnnnnnnnnnnnnnnnnnnnnnnnnnnnnnnnnnnnnnnnnnnnnnnnnnnnnn",
];

pub fn name_of(number: usize) -> &'static [u8] {
    NAMES.get(number).copied().unwrap_or(b"other")
}

// A dependency that is drawn: which of the names it has, and its end.
#[derive(Clone, Copy)]
pub struct Drawn {
    pub name: usize,
    pub end: usize,
}

// How a graph is drawn.
#[derive(Clone, Copy, PartialEq, Eq)]
pub enum Care {
    // it is lawful
    Careful,
    // a few of its references and names are taken at will
    Careless,
}

// A graph while it is drawn.
#[derive(Drop)]
pub struct Sketch {
    pub heap: Global,
    pub dice: Dice,
    care: Care,
    // the features of each package, by name
    features: Vec<Vec<usize>>,
}

impl Sketch {
    pub fn new(heap: Global, seed: u64, care: Care) -> Result<Sketch, AllocError> {
        let mut sketch = Sketch {
            heap,
            dice: Dice::new(seed),
            care,
            features: Vec::new(heap),
        };
        let packages = sketch.dice.below(4) + 1;
        sketch.features = (0..packages)
            .map(|_| sketch.draw_names())
            .try_collect(heap)?;
        Ok(sketch)
    }

    pub fn packages(&self) -> usize {
        self.features.len()
    }

    // The features of a package.
    pub fn features_of(&self, package: usize) -> Result<Vec<usize>, AllocError> {
        match self.features.get(package) {
            Some(names) => names.clone(),
            None => Ok(Vec::new(self.heap)),
        }
    }

    fn slips(&mut self) -> bool {
        self.care == Care::Careless && self.dice.below(12) == 0
    }

    // One of the names, or any at all.
    pub fn choose(&mut self, names: &[usize]) -> Option<usize> {
        if self.slips() {
            return Some(self.dice.below(8));
        }
        self.dice.pick(names)
    }

    // About half of the names, from some name on.
    fn draw_names(&mut self) -> Result<Vec<usize>, AllocError> {
        let first = self.dice.below(7);
        let mut names: Vec<usize> = (0..7)
            .cycle()
            .skip(first)
            .take(7)
            .filter(|_| self.dice.coin())
            .collect(self.heap)?;
        if let Some(again) = self.dice.pick(names.as_slice()) {
            if self.slips() {
                names.push(again)?;
            }
        }
        Ok(names)
    }

    fn draw_edge(&mut self) -> Drawn {
        let ends = self.features.len().max(1);
        let end = self.dice.below(ends);
        Drawn {
            name: self.dice.below(3) + 3,
            end: if self.slips() { end + 1 } else { end },
        }
    }

    // A few dependencies of one package, of which some have the same name.
    pub fn draw_edges(&mut self) -> Result<Vec<Drawn>, AllocError> {
        let heap = self.heap;
        (0..self.dice.below(5))
            .map(|_| self.draw_edge())
            .collect(heap)
    }

    fn has(&self, package: usize, name: usize) -> bool {
        self.features
            .get(package)
            .is_some_and(|names| names.contains(&name))
    }

    fn every_end_has(&self, edges: &[Drawn], name: usize, feature: usize) -> bool {
        edges
            .iter()
            .filter(|edge| edge.name == name)
            .all(|edge| self.has(edge.end, feature))
    }

    // A feature of every end of the dependencies of that name.
    fn choose_common(&mut self, edges: &[Drawn], name: usize) -> Result<Option<usize>, AllocError> {
        let names: Vec<usize> = (0..7)
            .filter(|feature| self.every_end_has(edges, name, *feature))
            .collect(self.heap)?;
        Ok(self.choose(names.as_slice()))
    }

    // What a value with a link is made of: the name of a dependency, and a feature of its ends.
    pub fn choose_link(
        &mut self,
        edges: &[Drawn],
    ) -> Result<Option<(usize, Option<usize>)>, AllocError> {
        let names: Vec<usize> = edges.iter().map(|edge| edge.name).collect(self.heap)?;
        match self.choose(names.as_slice()) {
            Some(name) => Ok(Some((name, self.choose_common(edges, name)?))),
            None => Ok(None),
        }
    }
}

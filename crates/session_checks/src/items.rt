// What a resolver turns on.

#[derive(Clone, Copy, PartialEq, Eq, PartialOrd, Ord)]
pub enum Side {
    Target,
    Host,
}

pub const SIDES: [Side; 2] = [Side::Target, Side::Host];

// A package, dependency or feature, by its number in the file.
#[derive(Clone, Copy, PartialEq, Eq, PartialOrd, Ord)]
pub enum Thing {
    Unit(usize),
    Dependency(usize),
    Feature(usize),
}

#[derive(Clone, Copy, PartialEq, Eq, PartialOrd, Ord)]
pub struct Item {
    pub side: Side,
    pub thing: Thing,
}

impl Side {
    pub fn unit(self, package: usize) -> Item {
        let thing = Thing::Unit(package);
        Item { side: self, thing }
    }

    pub fn dependency(self, number: usize) -> Item {
        let thing = Thing::Dependency(number);
        Item { side: self, thing }
    }

    pub fn feature(self, number: usize) -> Item {
        let thing = Thing::Feature(number);
        Item { side: self, thing }
    }
}

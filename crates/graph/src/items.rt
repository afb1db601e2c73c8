// Items of a graph, by number.
use lanes::Side;

/// A unit, dependency or feature of a graph: a unit by the number of its package, a dependency or feature by its
/// number among all of the graph. Each is counted from 0, in file order.
#[derive(Clone, Copy, PartialEq, Eq, Debug)]
pub enum LocalItem {
    /// The unit of a package.
    Unit(u32),
    /// A dependency.
    Dependency(u32),
    /// A feature.
    Feature(u32),
}

/// A unit, dependency or feature on a side. [`GraphWords`](crate::GraphWords) has its number.
#[derive(Clone, Copy, PartialEq, Eq, Debug)]
pub struct Item {
    pub side: Side,
    pub local: LocalItem,
}

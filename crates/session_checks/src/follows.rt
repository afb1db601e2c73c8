// Whether an item follows from one or two others.
use crate::graphs::{Dependency, Graph, Link, Value};
use crate::items::{Item, Side, Thing};
use crate::separation::Separation;

impl Value {
    pub fn links(&self) -> &[Link] {
        match self {
            Value::Plain(_) | Value::Switch(_) => &[],
            Value::Strong(links) | Value::Weak(links) => links.as_slice(),
        }
    }

    fn is_plain(&self, feature: usize) -> bool {
        matches!(self, Value::Plain(g) if *g == feature)
    }

    // Whether it turns on that dependency, if this is optional.
    fn switches(&self, dependency: usize) -> bool {
        match self {
            Value::Plain(_) | Value::Weak(_) => false,
            Value::Switch(numbers) => numbers.contains(&dependency),
            Value::Strong(links) => links.iter().any(|link| link.dependency == dependency),
        }
    }
}

// A graph under a separation.
#[derive(Clone, Copy)]
pub struct World<'g> {
    pub graph: &'g Graph,
    pub separation: Separation,
}

impl<'g> World<'g> {
    fn dependency(self, number: usize) -> Option<&'g Dependency> {
        self.graph.dependencies.get(number)
    }

    // The dependency, if it is not cut, and the side to which it leads.
    pub fn leads(self, side: Side, number: usize) -> Option<(&'g Dependency, Side)> {
        let dependency = self.dependency(number)?;
        let goal = self.separation.leads(dependency, side)?;
        Some((dependency, goal))
    }

    pub fn values(self, feature: usize) -> &'g [Value] {
        match self.graph.features.get(feature) {
            Some(feature) => feature.values.as_slice(),
            None => &[],
        }
    }

    // Whether a unit turns on a dependency of the same side.
    fn by_unit(self, side: Side, package: usize, number: usize) -> bool {
        self.leads(side, number).is_some_and(|(dependency, _)| !dependency.optional
            && dependency.owner == package)
    }

    // Whether a dependency turns on a unit or feature.
    fn by_dependency(self, side: Side, number: usize, item: Item) -> bool {
        let Some((dependency, goal)) = self.leads(side, number) else {
            return false;
        };
        match item.thing {
            Thing::Unit(package) => goal == item.side && dependency.end == package,
            Thing::Dependency(_) => false,
            Thing::Feature(feature) => {
                let default = dependency.defaults && dependency.default == Some(feature);
                goal == item.side && (default || dependency.asks.contains(&feature))
            }
        }
    }

    // Whether a feature alone turns on an item.
    fn by_feature(self, side: Side, feature: usize, item: Item) -> bool {
        let mut values = self.values(feature).iter();
        match item.thing {
            Thing::Unit(_) => false,
            Thing::Dependency(number) => {
                let optional = self
                    .leads(side, number)
                    .is_some_and(|(dependency, _)| dependency.optional);
                side == item.side && optional && values.any(|value| value.switches(number))
            }
            Thing::Feature(other) => {
                side == item.side && values.any(|value| value.is_plain(other))
            }
        }
    }

    // Whether a feature and a dependency of the same side turn on an item.
    fn by_both(self, side: Side, feature: usize, number: usize, item: Item) -> bool {
        let Some((_, goal)) = self.leads(side, number) else {
            return false;
        };
        let Thing::Feature(other) = item.thing else {
            return false;
        };
        let link = Link {
            dependency: number,
            feature: other,
        };
        let mut values = self.values(feature).iter();
        goal == item.side && values.any(|value| value.links().contains(&link))
    }

    // Whether an item follows from one other.
    pub fn follows(self, from: Item, item: Item) -> bool {
        match (from.thing, item.thing) {
            (Thing::Unit(package), Thing::Dependency(number)) => {
                from.side == item.side && self.by_unit(from.side, package, number)
            }
            (Thing::Unit(_), _) => false,
            (Thing::Dependency(number), _) => self.by_dependency(from.side, number, item),
            (Thing::Feature(feature), _) => self.by_feature(from.side, feature, item),
        }
    }

    // Whether an item follows from two others that are both needed for it.
    pub fn follows_both(self, first: Item, second: Item, item: Item) -> bool {
        let side = first.side;
        let both = match (first.thing, second.thing) {
            (Thing::Feature(feature), Thing::Dependency(number)) => (feature, number),
            (Thing::Dependency(number), Thing::Feature(feature)) => (feature, number),
            _ => return false,
        };
        let (feature, number) = both;
        second.side == side && self.by_both(side, feature, number, item)
    }
}

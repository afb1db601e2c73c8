// How often an item is a premise: the steps that are taken once it is active.
use crate::follows::World;
use crate::graphs::{Link, Value};
use crate::items::{Item, Side, Thing};

// A count of steps.
#[derive(Default, Drop)]
struct Steps {
    count: u64,
}

impl Steps {
    fn add(&mut self, more: usize) {
        self.count = self.count.saturating_add(more as u64);
    }
}

impl<'g> World<'g> {
    // 1 if a dependency is optional, or is not, and is not cut.
    fn switched(self, side: Side, number: usize, optional: bool) -> usize {
        let counts = self
            .leads(side, number)
            .is_some_and(|(dependency, _)| dependency.optional == optional);
        usize::from(counts)
    }

    // Its mandatory dependencies.
    fn of_unit(self, side: Side, package: usize) -> u64 {
        let mut steps = Steps::default();
        if let Some(package) = self.graph.packages.get(package) {
            for number in package.dependencies.iter() {
                steps.add(self.switched(side, *number, false));
            }
        }
        steps.count
    }

    // The values of a feature that have a link with a dependency.
    fn naming(self, feature: usize, number: usize) -> usize {
        self.values(feature)
            .iter()
            .filter(|value| value.links().iter().any(|link| link.dependency == number))
            .count()
    }

    // The unit of its end, `default` and the asks, and each strong or weak value that names it.
    fn of_dependency(self, side: Side, number: usize) -> u64 {
        let Some((dependency, _)) = self.leads(side, number) else {
            return 0;
        };
        let mut steps = Steps { count: 1 };
        let default = dependency.defaults && dependency.default.is_some();
        steps.add(usize::from(default));
        steps.add(dependency.asks.len());
        if let Some(owner) = self.graph.packages.get(dependency.owner) {
            for feature in owner.features.iter() {
                steps.add(self.naming(*feature, number));
            }
        }
        steps.count
    }

    // The optional dependencies that a value switches on.
    fn of_switch(self, side: Side, numbers: &[usize]) -> u64 {
        let mut steps = Steps::default();
        for number in numbers {
            steps.add(self.switched(side, *number, true));
        }
        steps.count
    }

    // The links of a value whose dependency is not cut; where it switches them on, the optional ones once more.
    fn of_links(self, side: Side, links: &[Link], switches: bool) -> u64 {
        let mut steps = Steps::default();
        for link in links {
            let number = link.dependency;
            steps.add(usize::from(self.leads(side, number).is_some()));
            if switches {
                steps.add(self.switched(side, number, true));
            }
        }
        steps.count
    }

    fn of_value(self, side: Side, value: &Value) -> u64 {
        match value {
            Value::Plain(_) => 1,
            Value::Switch(numbers) => self.of_switch(side, numbers.as_slice()),
            Value::Strong(links) => self.of_links(side, links.as_slice(), true),
            Value::Weak(links) => self.of_links(side, links.as_slice(), false),
        }
    }

    fn of_feature(self, side: Side, feature: usize) -> u64 {
        let mut steps: u64 = 0;
        for value in self.values(feature) {
            steps = steps.saturating_add(self.of_value(side, value));
        }
        steps
    }

    // The steps of an item.
    pub fn steps(self, item: Item) -> u64 {
        match item.thing {
            Thing::Unit(package) => self.of_unit(item.side, package),
            Thing::Dependency(number) => self.of_dependency(item.side, number),
            Thing::Feature(feature) => self.of_feature(item.side, feature),
        }
    }
}

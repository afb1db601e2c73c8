// A second resolver: what is on is gone through again and again, until a round adds nothing.
use crate::graphs::{Dependency, Graph, Link, Value};
use crate::items::{Item, Side, Thing};
use crate::separation::{Manner, Mistake};
use std::alloc::{AllocError, Global};
use std::collections::BTreeSet;

#[derive(Drop)]
pub struct Resolved<'g> {
    heap: Global,
    graph: &'g Graph,
    manner: Manner,
    pub on: BTreeSet<Item>,
    // the features that were gone through in an earlier round
    worked: BTreeSet<Item>,
}

impl<'g> Resolved<'g> {
    fn add(&mut self, item: Item) -> Result<(), AllocError> {
        self.on.insert(item)?;
        Ok(())
    }

    fn add_feature(&mut self, side: Side, feature: usize) -> Result<(), AllocError> {
        self.add(side.feature(feature))?;
        if self.manner.makes(Mistake::SidesShared) {
            self.add(Side::Target.feature(feature))?;
            self.add(Side::Host.feature(feature))?;
        }
        Ok(())
    }

    // Turns on a dependency, unless it is cut.
    fn add_dependency(&mut self, side: Side, number: usize) -> Result<(), AllocError> {
        let graph = self.graph;
        let Some(dependency) = graph.dependencies.get(number) else {
            return Ok(());
        };
        let stays = self.manner.makes(Mistake::CutTurnedOn);
        if stays || self.manner.leads(dependency, side).is_some() {
            self.add(side.dependency(number))?;
        }
        Ok(())
    }

    // Turns on a dependency that a value names, if it is optional.
    fn switch(&mut self, side: Side, number: usize) -> Result<(), AllocError> {
        let optional = self
            .graph
            .dependencies
            .get(number)
            .is_some_and(|dependency| dependency.optional);
        if optional || self.manner.makes(Mistake::MandatorySwitched) {
            self.add_dependency(side, number)?;
        }
        Ok(())
    }

    // A unit turns on its mandatory dependencies.
    fn work_unit(&mut self, side: Side, package: usize) -> Result<(), AllocError> {
        let graph = self.graph;
        let Some(package) = graph.packages.get(package) else {
            return Ok(());
        };
        for number in package.dependencies.iter() {
            let mandatory = graph
                .dependencies
                .get(*number)
                .is_some_and(|dependency| !dependency.optional);
            if mandatory {
                self.add_dependency(side, *number)?;
            }
        }
        Ok(())
    }

    // Whether the last dependency on that package wants its `default`.
    fn last_wants(&self, end: usize) -> bool {
        let mut wants = false;
        for dependency in self.graph.dependencies.iter() {
            if dependency.end == end {
                wants = dependency.defaults;
            }
        }
        wants
    }

    fn wants_default(&self, dependency: &Dependency) -> bool {
        if self.manner.makes(Mistake::LastDefaultsWin) {
            self.last_wants(dependency.end)
        } else {
            dependency.defaults
        }
    }

    // A dependency turns on the unit of its end, its `default` if that is wanted and there, and what is asked for.
    fn work_dependency(&mut self, side: Side, number: usize) -> Result<(), AllocError> {
        let graph = self.graph;
        let Some(dependency) = graph.dependencies.get(number) else {
            return Ok(());
        };
        let Some(goal) = self.manner.leads(dependency, side) else {
            return Ok(());
        };
        self.add(goal.unit(dependency.end))?;
        let asked = if self.manner.makes(Mistake::AsksStay) {
            side
        } else {
            goal
        };
        if self.wants_default(dependency) {
            if let Some(default) = dependency.default {
                self.add_feature(asked, default)?;
            }
        }
        for ask in dependency.asks.iter() {
            self.add_feature(asked, *ask)?;
        }
        Ok(())
    }

    // Turns on the feature of a link, if its dependency is on.
    fn follow(&mut self, side: Side, link: Link) -> Result<(), AllocError> {
        let graph = self.graph;
        let Some(dependency) = graph.dependencies.get(link.dependency) else {
            return Ok(());
        };
        if !self.on.contains(&side.dependency(link.dependency)) {
            return Ok(());
        }
        match self.manner.leads(dependency, side) {
            Some(goal) => self.add_feature(goal, link.feature),
            None => Ok(()),
        }
    }

    // The part of a list that a value speaks of: all of it.
    fn spoken<'v, T>(&self, list: &'v Vec<T>) -> &'v [T] {
        match list.as_slice() {
            [first, _, ..] if self.manner.makes(Mistake::FirstOfName) => std::slice::from_ref(
                first,
            ),
            all => all,
        }
    }

    fn work_switch(&mut self, side: Side, numbers: &[usize]) -> Result<(), AllocError> {
        for number in numbers {
            self.switch(side, *number)?;
        }
        Ok(())
    }

    fn work_links(&mut self, side: Side, links: &[Link], switches: bool) -> Result<(), AllocError> {
        for link in links {
            if switches {
                self.switch(side, link.dependency)?;
            }
            self.follow(side, *link)?;
        }
        Ok(())
    }

    fn work_value(&mut self, side: Side, value: &Value, again: bool) -> Result<(), AllocError> {
        match value {
            Value::Plain(feature) => self.add_feature(side, *feature),
            Value::Switch(numbers) => self.work_switch(side, self.spoken(numbers)),
            Value::Strong(links) => {
                let switches = !self.manner.makes(Mistake::StrongWaits);
                self.work_links(side, self.spoken(links), switches)
            }
            Value::Weak(_) if again && self.manner.makes(Mistake::WeakTriedOnce) => Ok(()),
            Value::Weak(links) => {
                let switches = self.manner.makes(Mistake::WeakSwitches);
                self.work_links(side, self.spoken(links), switches)
            }
        }
    }

    // A feature turns on what its values say.
    fn work_feature(&mut self, side: Side, number: usize) -> Result<(), AllocError> {
        let graph = self.graph;
        let Some(feature) = graph.features.get(number) else {
            return Ok(());
        };
        if self.manner.makes(Mistake::FeatureBuilds) {
            self.add(side.unit(feature.owner))?;
        }
        let again = !self.worked.insert(side.feature(number))?;
        for value in feature.values.iter() {
            self.work_value(side, value, again)?;
        }
        Ok(())
    }

    fn work(&mut self, item: Item) -> Result<(), AllocError> {
        match item.thing {
            Thing::Unit(package) => self.work_unit(item.side, package),
            Thing::Dependency(number) => self.work_dependency(item.side, number),
            Thing::Feature(number) => self.work_feature(item.side, number),
        }
    }

    // Goes through all that is on; true if something was added.
    fn round(&mut self) -> Result<bool, AllocError> {
        let before: Vec<Item> = self.on.iter().copied().collect(self.heap)?;
        for item in before.iter() {
            self.work(*item)?;
        }
        Ok(self.on.len() > before.len())
    }

    // Goes through all that is on until nothing changes; each round but the last adds an item.
    fn close(&mut self) -> Result<(), AllocError> {
        let most = self.graph.items(self.heap)?.len();
        for _ in 0..=most {
            if !self.round()? {
                break;
            }
        }
        Ok(())
    }

    // What these items turn on.
    pub fn resolve(
        heap: Global,
        graph: &'g Graph,
        manner: Manner,
        items: &[Item],
    ) -> Result<Resolved<'g>, AllocError> {
        let mut resolved = Resolved {
            heap,
            graph,
            manner,
            on: BTreeSet::new(heap),
            worked: BTreeSet::new(heap),
        };
        for item in items {
            resolved.add(*item)?;
        }
        resolved.close()?;
        Ok(resolved)
    }
}

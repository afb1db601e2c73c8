// The second reading: whatever a graph refers to must be there.
use crate::opener::graphs::{Dependency, Feature, Form, Graph, Link, Package};
use crate::opener::stops::Why;
use refusals::Refusal;

// The first dependency with no end.
fn lost_end(graph: &Graph<'_>) -> Option<Refusal> {
    graph
        .packages
        .iter()
        .flat_map(|package| package.dependencies.iter())
        .find(|dependency| graph.end(dependency).is_none())
        .map(|dependency| dependency.place.refusal(Why::Unknown, 6, 0))
}

// The first ask for a feature that the end does not have.
fn unknown_ask(graph: &Graph<'_>, dependency: &Dependency<'_>) -> Option<Refusal> {
    let end = graph.end(dependency)?;
    let ask = dependency
        .asks
        .iter()
        .find(|ask| end.feature(ask.bytes).is_none())?;
    Some(dependency.place.refusal(Why::Unknown, ask.at, 0))
}

// Whether the end of a dependency has the feature that a link names, if it names one.
fn end_has(graph: &Graph<'_>, dependency: &Dependency<'_>, link: Link<'_>) -> bool {
    match (graph.end(dependency), link.feature) {
        (Some(end), Some(g)) => end.feature(g).is_some(),
        _ => true,
    }
}

// A package in its graph.
#[derive(Clone, Copy)]
struct Owner<'g, 'a> {
    graph: &'g Graph<'a>,
    package: &'g Package<'a>,
}

impl<'g, 'a> Owner<'g, 'a> {
    // Whether there are dependencies of that name, each with the feature in its end.
    fn leads_on(self, link: Link<'_>) -> bool {
        let mut named = self
            .package
            .dependencies
            .iter()
            .filter(|dependency| dependency.name == link.name)
            .peekable();
        named.peek().is_some() && named.all(|dependency| end_has(self.graph, dependency, link))
    }

    fn knows(self, form: Form<'_>) -> bool {
        match form {
            Form::Plain(g) => self.package.feature(g).is_some(),
            Form::Linked(link) => self.leads_on(link),
        }
    }

    // The first value that refers to nothing.
    fn unknown_value(self, feature: &Feature<'_>) -> Option<Refusal> {
        let value = feature.values.iter().find(|value| !self.knows(value.form))?;
        Some(feature.place.refusal(Why::Unknown, value.at, 0))
    }

    // The first in the records of the package.
    fn unknown(self) -> Option<Refusal> {
        let asks = self
            .package
            .dependencies
            .iter()
            .filter_map(|dependency| unknown_ask(self.graph, dependency));
        let values = self
            .package
            .features
            .iter()
            .filter_map(|feature| self.unknown_value(feature));
        asks.chain(values)
            .min_by_key(|refusal| refusal.record_number)
    }
}

pub fn look_up(graph: &Graph<'_>) -> Result<(), Refusal> {
    let unknown = lost_end(graph).or_else(|| {
        graph
            .packages
            .iter()
            .find_map(|package| Owner { graph, package }.unknown())
    });
    unknown.map_or(Ok(()), Err)
}

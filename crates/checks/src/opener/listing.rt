// The rule rows of a lawful graph.
use crate::opener::graphs::{Dependency, Feature, Form, Graph, Link, Package};
use graph_files::EdgeKind;
use std::alloc::{AllocError, Global};

// What a row tells of the dependency that it is about.
#[derive(Clone, Copy)]
struct Lane {
    kind: EdgeKind,
    to_proc: bool,
}

// A row, with items by number.
#[derive(Clone, Copy)]
pub struct Row {
    from: u32,
    with: Option<u32>,
    to: u32,
    lane: Option<Lane>,
    cross: bool,
}

// A dependency as rows name it: its item, its lane, and the package that it leads to.
#[derive(Clone, Copy)]
struct Edge<'g, 'a> {
    item: u32,
    lane: Lane,
    end: &'g Package<'a>,
}

impl<'a> Graph<'a> {
    fn edge(&self, dependency: &Dependency<'a>) -> Option<Edge<'_, 'a>> {
        let end = self.end(dependency)?;
        Some(Edge {
            item: self.count.saturating_add(dependency.number),
            lane: Lane {
                kind: dependency.kind,
                to_proc: end.proc_mark,
            },
            end,
        })
    }

    fn feature_item(&self, number: u32) -> u32 {
        self.count
            .saturating_add(self.dependencies)
            .saturating_add(number)
    }

    // The item of the feature of that name, if the package has it.
    fn item_of(&self, package: &Package<'a>, name: &[u8]) -> Option<u32> {
        package
            .feature(name)
            .map(|number| self.feature_item(number))
    }
}

// The number of a lane; 6 stands for no dependency.
fn lane_word(lane: Option<Lane>) -> u32 {
    match lane {
        Some(Lane { kind, to_proc }) => kind as u32 + 3 * u32::from(to_proc),
        None => 6,
    }
}

// The words of a row; 2^32 - 1 stands for no second premise.
pub fn words_of(row: &Row) -> [u32; 5] {
    [
        row.from,
        row.with.unwrap_or(u32::MAX),
        row.to,
        lane_word(row.lane),
        u32::from(row.cross),
    ]
}

// A row with one premise.
fn lone(from: u32, to: u32, lane: Option<Lane>, cross: bool) -> Row {
    Row {
        from,
        with: None,
        to,
        lane,
        cross,
    }
}

// The list of rows so far.
#[derive(Drop)]
struct Listing<'g, 'a> {
    graph: &'g Graph<'a>,
    rows: Vec<Row>,
}

impl<'g, 'a> Listing<'g, 'a> {
    fn dependency(
        &mut self,
        owner: &Package<'a>,
        dependency: &Dependency<'a>,
    ) -> Result<(), AllocError> {
        let graph = self.graph;
        let Some(Edge { item, lane, end }) = graph.edge(dependency) else {
            return Ok(());
        };
        if !dependency.optional {
            self.rows.push(lone(owner.number, item, Some(lane), false))?;
        }
        self.rows.push(lone(item, end.number, Some(lane), true))?;
        let default = dependency.defaults.then_some(&b"default"[..]);
        let asks = dependency.asks.iter().map(|ask| ask.bytes);
        self.rows.extend(
            default
                .into_iter()
                .chain(asks)
                .filter_map(|name| graph.item_of(end, name))
                .map(|to| lone(item, to, Some(lane), true)),
        )
    }

    // The rows of a value that names dependencies.
    fn linked(&mut self, owner: &Package<'a>, from: u32, link: Link<'a>) -> Result<(), AllocError> {
        let graph = self.graph;
        let named = owner
            .dependencies
            .iter()
            .filter(|dependency| dependency.name == link.name);
        for dependency in named {
            let Some(Edge { item, lane, end }) = graph.edge(dependency) else {
                continue;
            };
            if link.switches && dependency.optional {
                self.rows.push(lone(from, item, Some(lane), false))?;
            }
            let to = link.feature.and_then(|g| graph.item_of(end, g));
            self.rows.extend(to.map(|to| Row {
                from,
                with: Some(item),
                to,
                lane: Some(lane),
                cross: true,
            }))?;
        }
        Ok(())
    }

    fn feature(&mut self, owner: &Package<'a>, feature: &Feature<'a>) -> Result<(), AllocError> {
        let graph = self.graph;
        let from = graph.feature_item(feature.number);
        for value in feature.values.iter() {
            match value.form {
                Form::Plain(g) => {
                    let to = graph.item_of(owner, g);
                    self.rows.extend(to.map(|to| lone(from, to, None, false)))?;
                }
                Form::Linked(link) => self.linked(owner, from, link)?,
            }
        }
        Ok(())
    }

    // The rows of all that a package owns.
    fn package(&mut self, owner: &Package<'a>) -> Result<(), AllocError> {
        owner
            .dependencies
            .iter()
            .try_for_each(|dependency| self.dependency(owner, dependency))?;
        owner
            .features
            .iter()
            .try_for_each(|feature| self.feature(owner, feature))
    }
}

// All rows, in order.
pub fn list_rows(heap: Global, graph: &Graph<'_>) -> Result<Vec<Row>, AllocError> {
    let mut listing = Listing {
        graph,
        rows: Vec::new(heap),
    };
    graph
        .packages
        .iter()
        .try_for_each(|owner| listing.package(owner))?;
    let Listing { rows, .. } = listing;
    Ok(rows)
}

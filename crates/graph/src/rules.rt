// The rows of dependencies and of feature values.
ghost use Rattle.std.specs.Prelude.{◌≡◌};
ghost use Rattle.std.specs.List.{flat_map};
ghost use Rattle.records.specs.Bodies.{dependency_view, texts, form_in, forms, bytes_in};
ghost use Rattle.graph.specs.RowLists.{its, switches, feature_named, row_to, row_found, ask_rows, dependency_rows, switch_rows, weak_rows, each_named, value_rows};
ghost use Rattle.graph.specs.Places.{package_at};
ghost use Rattle.graph.specs.RowWriters.{write_rows};

use crate::filled::Filled;
use crate::row_writers::RowWriter;
use crate::rows::{ItemRule, Row};
use lanes::{EdgeKind, Lane};
use records::{Dependency, Strings};
use text::{FeatureString, read_feature_string};

// A row without its conclusion.
#[derive(Clone, Copy)]
pub(crate) struct Premises {
    pub from: u32,
    pub with: Option<u32>,
    pub lane: Option<Lane>,
    pub cross: bool,
}

impl Premises {
    // The row to a conclusion.
    fn row(self, to: u32) -> Row
        ensures { result ≡ row_to self to }
    {
        let (from, with) = (self.from, self.with);
        Row {
            rule: ItemRule { from, with, to },
            lane: self.lane,
            cross: self.cross,
        }
    }
}

// What a value does with a dependency that it names: it switches it on, if it is optional, or turns on a feature of its
// end once it is active, or both.
#[derive(Clone, Copy)]
pub(crate) enum Link<'b> {
    Switch,
    Strong(&'b [u8]),
    Weak(&'b [u8]),
}

impl<'b> Link<'b> {
    fn switches(self) -> bool
        ensures { result ≡ switches self.entry }
    {
        match self {
            Link::Switch | Link::Strong(_) => true,
            Link::Weak(_) => false,
        }
    }

    // The feature that it names.
    fn feature(self) -> Option<&'b [u8]>
        ensures { bytes_in result ≡ feature_named self.entry }
    {
        match self {
            Link::Switch => None,
            Link::Strong(feature) | Link::Weak(feature) => Some(feature),
        }
    }
}

// A value that names dependencies: the number of its feature, the name, and what it does with them.
#[derive(Clone, Copy)]
pub(crate) struct Naming<'b> {
    pub from: u32,
    pub name: &'b [u8],
    pub link: Link<'b>,
}

impl<'a> Filled<'a> {
    // The lane of a dependency.
    fn lane(&self, edge: EdgeKind, end: u16) -> Lane
        ensures { result ≡ record { edge = edge; procedural = (package_at (its self.now) end).proc } }
    {
        Lane {
            edge,
            procedural: self.is_procedural(u32::from(end)),
        }
    }

    // The row to the feature of a name of a package, if there is one.
    fn row_found(&self, writer: &mut RowWriter, premises: Premises, p: u32, name: &[u8])
        ensures { writer.new ≡ write_rows writer.old (row_found (its self.now) premises p name.now) }
    {
        if let Some(to) = self.feature_item(p, name) {
            writer.write_row(premises.row(to));
        }
    }

    // From an item to each of some features of a package.
    fn asks_rows(&self, writer: &mut RowWriter, from: u32, lane: Lane, end: u32, asks: Strings)
        ensures { writer.new ≡ write_rows writer.old (flat_map (ask_rows (its self.now) from lane end) (texts asks.entry)) }
    {
        let premises = Premises {
            from,
            with: None,
            lane: Some(lane),
            cross: true,
        };
        for name in asks {
            self.row_found(writer, premises, end, name);
        }
    }

    // The rows of a dependency, whose number is `item`, of a package.
    pub(crate) fn dependency_rows(
        &self,
        writer: &mut RowWriter,
        owner: u32,
        item: u32,
        d: Dependency,
    )
        ensures { writer.new ≡ write_rows writer.old (dependency_rows (its self.now) owner item (dependency_view d.entry)) }
    {
        let lane = self.lane(d.edge, d.end);
        let end = u32::from(d.end);
        let premises = Premises {
            from: item,
            with: None,
            lane: Some(lane),
            cross: true,
        };
        if !d.optional {
            let own = Premises {
                from: owner,
                with: None,
                lane: Some(lane),
                cross: false,
            };
            writer.write_row(own.row(item));
        }
        writer.write_row(premises.row(end));
        if d.defaults {
            self.row_found(writer, premises, end, b"default");
        }
        self.asks_rows(writer, item, lane, end, d.asks);
    }

    // From a feature to an optional dependency, where a value may switch it on.
    fn switch_row(&self, writer: &mut RowWriter, value: Naming, item: u32, d: Dependency)
        ensures { writer.new ≡ write_rows writer.old (switch_rows (its self.now) value.entry.from (switches value.entry.link) item (dependency_view d.entry)) }
    {
        if value.link.switches() && d.optional {
            let premises = Premises {
                from: value.from,
                with: None,
                lane: Some(self.lane(d.edge, d.end)),
                cross: false,
            };
            writer.write_row(premises.row(item));
        }
    }

    // From a feature and a dependency to the feature of a name of its end, where a value names one.
    fn weak_row(&self, writer: &mut RowWriter, value: Naming, item: u32, d: Dependency)
        ensures { writer.new ≡ write_rows writer.old (weak_rows (its self.now) value.entry.from (feature_named value.entry.link) item (dependency_view d.entry)) }
    {
        if let Some(name) = value.link.feature() {
            let premises = Premises {
                from: value.from,
                with: Some(item),
                lane: Some(self.lane(d.edge, d.end)),
                cross: true,
            };
            self.row_found(writer, premises, u32::from(d.end), name);
        }
    }

    // The rows of a value for each dependency of a package that has the value's name.
    fn named_rows(&self, writer: &mut RowWriter, p: u32, value: Naming)
        ensures { writer.new ≡ write_rows writer.old (each_named (its self.now) p value.entry.from value.entry.name.now (switches value.entry.link) (feature_named value.entry.link)) }
    {
        for d in self.named(p, value.name) {
            self.switch_row(writer, value, d.item, d.dependency);
            self.weak_row(writer, value, d.item, d.dependency);
        }
    }

    // The rows of a value of a feature.
    fn value_rows(&self, writer: &mut RowWriter, p: u32, from: u32, text: &[u8])
        ensures { writer.new ≡ write_rows writer.old (value_rows (its self.now) p from (form_in text.now)) }
    {
        let plain = Premises {
            from,
            with: None,
            lane: None,
            cross: false,
        };
        let (dependency, link) = match read_feature_string(text) {
            Ok(FeatureString::Plain { feature }) => {
                return self.row_found(writer, plain, p, feature.bytes);
            }
            Ok(FeatureString::Switch { dependency }) => (dependency, Link::Switch),
            Ok(
                FeatureString::Strong {
                    dependency,
                    feature,
                },
            ) => (dependency, Link::Strong(feature.bytes)),
            Ok(
                FeatureString::Weak {
                    dependency,
                    feature,
                },
            ) => (dependency, Link::Weak(feature.bytes)),
            // no string of an accepted file: `form_in` takes it for a plain one
            Err(_) => return self.row_found(writer, plain, p, text),
        };
        let value = Naming {
            from,
            name: dependency.bytes,
            link,
        };
        self.named_rows(writer, p, value);
    }

    // The rows of the values of a feature.
    pub(crate) fn values_rows(&self, writer: &mut RowWriter, p: u32, from: u32, values: Strings)
        ensures { writer.new ≡ write_rows writer.old (flat_map (value_rows (its self.now) p from) (forms values.entry)) }
    {
        for text in values {
            self.value_rows(writer, p, from, text);
        }
    }
}

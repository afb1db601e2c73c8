// The first reading: from bytes to packages.
use crate::opener::fields::Fields;
use crate::opener::graphs::{Dependency, Feature, Graph, Package};
use crate::opener::stops::{Place, Stop, Why};
use graph_files::RecordKind;
use refusals::Refusal;
use std::alloc::Global;
use std::collections::BTreeMap;

const MAX_PACKAGES: u32 = 4_096;

const MAX_DEPENDENCIES: u32 = 16_384;

const MAX_FEATURES: u32 = 16_384;

// A record: the number of its kind, the bytes of its fields, and what follows it.
#[derive(Clone, Copy)]
struct Frame<'a> {
    number: u16,
    body: &'a [u8],
    after: &'a [u8],
}

// The record that starts here.
fn first_record<'a>(bytes: &'a [u8], place: Place) -> Result<Frame<'a>, Refusal> {
    let cut = place.refusal(Why::Cut, 0, 0);
    let (length, bytes) = bytes.split_first_chunk::<4>().ok_or(cut)?;
    let length = u32::from_le_bytes(*length) as usize;
    let (record, after) = bytes.split_at_checked(length).ok_or(cut)?;
    let (number, body) = record
        .split_first_chunk::<2>()
        .ok_or(place.refusal(Why::Ragged, 0, 0))?;
    Ok(Frame {
        number: u16::from_le_bytes(*number),
        body,
        after,
    })
}

// The kind of a record: the first is a header, and no other is.
fn kind_of(frame: Frame<'_>, place: Place) -> Result<RecordKind, Refusal> {
    let stray = place.refusal(Why::Stray, 0, 0);
    let kind = RecordKind::try_from(frame.number).map_err(|_| stray)?;
    if (kind == RecordKind::Header) == (place.record == 0) {
        Ok(kind)
    } else {
        Err(stray)
    }
}

// The number of one more, which must be below the limit.
fn one_more(place: Place, count: &mut u32, limit: u32) -> Result<u32, Refusal> {
    let number = *count;
    if number >= limit {
        return Err(place.refusal(Why::Many, 0, 0));
    }
    *count = number.saturating_add(1);
    Ok(number)
}

// The last package, which a dependency or feature belongs to.
fn last_package<'g, 'a>(
    packages: &'g mut Vec<Package<'a>>,
    place: Place,
) -> Result<&'g mut Package<'a>, Refusal> {
    packages.last_mut().ok_or(place.refusal(Why::Stray, 0, 0))
}

fn read_header(fields: &mut Fields<'_>) -> Result<(), Refusal> {
    let mark = fields.place.refusal(Why::Mark, fields.at, 0);
    if fields.word()? == 1 {
        Ok(())
    } else {
        Err(mark)
    }
}

fn read_package<'a>(
    heap: Global,
    fields: &mut Fields<'a>,
    number: u32,
) -> Result<Package<'a>, Refusal> {
    let proc_mark = fields.switch()?;
    fields.name()?;
    Ok(Package {
        number,
        proc_mark,
        dependencies: Vec::new(heap),
        features: Vec::new(heap),
        numbers: BTreeMap::new(heap),
    })
}

fn read_dependency<'a>(
    heap: Global,
    fields: &mut Fields<'a>,
    number: u32,
) -> Result<Dependency<'a>, Stop> {
    let place = fields.place;
    let end = fields.word()?;
    let kind = fields.edge_kind()?;
    let optional = fields.switch()?;
    let defaults = fields.switch()?;
    let name = fields.name()?.bytes;
    let asks = (0..fields.byte()?)
        .map(|_| fields.name().map_err(Stop::Refused))
        .try_collect(heap)?;
    Ok(Dependency {
        place,
        number,
        end,
        kind,
        optional,
        defaults,
        name,
        asks,
    })
}

fn read_feature<'a>(
    heap: Global,
    fields: &mut Fields<'a>,
    owner: &mut Package<'a>,
    number: u32,
) -> Result<(), Stop> {
    let place = fields.place;
    let name = fields.name()?;
    let key = Vec::from_slice(heap, name.bytes)?;
    if owner.numbers.insert(key, number)?.is_some() {
        return Err(place.refusal(Why::Twice, name.at, 0).into());
    }
    let values = (0..fields.byte()?)
        .map(|_| fields.value(heap))
        .try_collect(heap)?;
    owner.features.push(Feature {
        place,
        number,
        values,
    })?;
    Ok(())
}

fn read_record<'a>(
    heap: Global,
    graph: &mut Graph<'a>,
    kind: RecordKind,
    fields: &mut Fields<'a>,
) -> Result<(), Stop> {
    let place = fields.place;
    match kind {
        RecordKind::Header => read_header(fields)?,
        RecordKind::Package => {
            let number = one_more(place, &mut graph.count, MAX_PACKAGES)?;
            graph.packages.push(read_package(heap, fields, number)?)?;
        }
        RecordKind::Dependency => {
            let number = one_more(place, &mut graph.dependencies, MAX_DEPENDENCIES)?;
            let owner = last_package(&mut graph.packages, place)?;
            owner
                .dependencies
                .push(read_dependency(heap, fields, number)?)?;
        }
        RecordKind::Feature => {
            let number = one_more(place, &mut graph.features, MAX_FEATURES)?;
            let owner = last_package(&mut graph.packages, place)?;
            read_feature(heap, fields, owner, number)?;
        }
        RecordKind::End => {}
    }
    fields.finish()?;
    Ok(())
}

// The graph of a file, and how many bytes it takes.
pub fn read_graph<'a>(heap: Global, file: &'a [u8]) -> Result<(Graph<'a>, usize), Stop> {
    let mut graph = Graph {
        packages: Vec::new(heap),
        count: 0,
        dependencies: 0,
        features: 0,
    };
    let mut rest = file;
    // a record takes bytes, so there are no more records than bytes
    for record in 0..=file.len() {
        let start = file.len().saturating_sub(rest.len());
        let place = Place { record, start };
        let frame = first_record(rest, place)?;
        let kind = kind_of(frame, place)?;
        let mut fields = Fields {
            place,
            rest: frame.body,
            at: 6,
        };
        read_record(heap, &mut graph, kind, &mut fields)?;
        rest = frame.after;
        if kind == RecordKind::End {
            return Ok((graph, file.len().saturating_sub(rest.len())));
        }
    }
    Err(Place::NONE.refusal(Why::Cut, 0, 0).into())
}

// Random graphs as files.
use crate::compared::FileTally;
use crate::example::put;
use crate::sketches::{Care, Drawn, Sketch, name_of};
use dice::Dice;
use graph_files::{
    DependencyHead, EdgeKind, FeatureString, dependency_record, end_record, feature_record, header,
    package_record,
};
use std::alloc::{AllocError, Global};

// A value in one of the four forms; a plain one where there is nothing to link to.
fn draw_value(
    sketch: &mut Sketch,
    names: &[usize],
    own: usize,
    edges: &[Drawn],
) -> Result<FeatureString<'static>, AllocError> {
    let form = sketch.dice.below(4);
    let link = sketch.choose_link(edges)?;
    Ok(match (form, link) {
        (1, Some((name, _))) => FeatureString::Switch {
            dependency: name_of(name),
        },
        (2, Some((name, Some(feature)))) => FeatureString::Strong {
            dependency: name_of(name),
            feature: name_of(feature),
        },
        (3, Some((name, Some(feature)))) => FeatureString::Weak {
            dependency: name_of(name),
            feature: name_of(feature),
        },
        _ => FeatureString::Plain {
            feature: name_of(sketch.choose(names).unwrap_or(own)),
        },
    })
}

fn draw_feature(
    sketch: &mut Sketch,
    names: &[usize],
    own: usize,
    edges: &[Drawn],
) -> Result<Vec<u8>, AllocError> {
    let heap = sketch.heap;
    let values: Vec<FeatureString<'static>> = (0..sketch.dice.below(4))
        .map(|_| draw_value(sketch, names, own, edges))
        .try_collect(heap)?;
    feature_record(heap, name_of(own), values.as_slice())
}

fn draw_dependency(sketch: &mut Sketch, edge: Drawn) -> Result<Vec<u8>, AllocError> {
    let heap = sketch.heap;
    let head = DependencyHead {
        end: u16::try_from(edge.end).unwrap_or(u16::MAX),
        kind: EdgeKind::ALL[sketch.dice.below(3)],
        optional: sketch.dice.coin(),
        defaults: sketch.dice.coin(),
    };
    let names = sketch.features_of(edge.end)?;
    let asks: Vec<&[u8]> = (0..sketch.dice.below(3))
        .filter_map(|_| sketch.choose(names.as_slice()))
        .map(name_of)
        .collect(heap)?;
    dependency_record(heap, head, name_of(edge.name), asks.as_slice())
}

// The records of both lists, each list in order.
fn add_mixed(
    dice: &mut Dice,
    file: &mut Vec<u8>,
    first: &[Vec<u8>],
    second: &[Vec<u8>],
) -> Result<(), AllocError> {
    let mut first = first.iter();
    let mut second = second.iter();
    for _ in 0..first.len().saturating_add(second.len()) {
        let record = if dice.coin() {
            first.next().or_else(|| second.next())
        } else {
            second.next().or_else(|| first.next())
        };
        if let Some(record) = record {
            file.extend_from_slice(record.as_slice())?;
        }
    }
    Ok(())
}

// A package record, and the records of what the package owns.
fn add_package(sketch: &mut Sketch, file: &mut Vec<u8>, package: usize) -> Result<(), AllocError> {
    let heap = sketch.heap;
    let proc_mark = sketch.dice.coin();
    let name = name_of(sketch.dice.below(7));
    file.extend_from_slice(package_record(heap, proc_mark, name)?.as_slice())?;
    let names = sketch.features_of(package)?;
    let edges = sketch.draw_edges()?;
    let dependencies: Vec<Vec<u8>> = edges
        .iter()
        .map(|edge| draw_dependency(sketch, *edge))
        .try_collect(heap)?;
    let features: Vec<Vec<u8>> = names
        .iter()
        .map(|own| draw_feature(sketch, names.as_slice(), *own, edges.as_slice()))
        .try_collect(heap)?;
    add_mixed(
        &mut sketch.dice,
        file,
        dependencies.as_slice(),
        features.as_slice(),
    )
}

// The file of a random graph, sometimes with bytes behind it.
fn draw_file(heap: Global, seed: u64, care: Care) -> Result<Vec<u8>, AllocError> {
    let mut sketch = Sketch::new(heap, seed, care)?;
    let mut file = header(heap)?;
    for package in 0..sketch.packages() {
        add_package(&mut sketch, &mut file, package)?;
    }
    file.extend_from_slice(end_record(heap)?.as_slice())?;
    if sketch.dice.coin() {
        file.extend_from_slice(b"and so on")?;
    }
    Ok(file)
}

// A byte that says much in some field, or any.
fn telling_byte(dice: &mut Dice) -> u8 {
    let any = u8::try_from(dice.below(256)).unwrap_or(0);
    let at = dice.below(9);
    [0, 1, 2, 3, 4, b'/', b':', b'?']
        .get(at)
        .copied()
        .unwrap_or(any)
}

// Draws so many graphs.
pub fn compare_drawn(heap: Global, count: u64, care: Care) -> Result<FileTally, AllocError> {
    let mut tally = FileTally::default();
    for seed in 0..count {
        let file = draw_file(heap, seed, care)?;
        tally.compare(heap, file.as_slice())?;
    }
    Ok(tally)
}

// Draws so many lawful graphs, and changes one byte of each.
pub fn compare_changed(heap: Global, count: u64) -> Result<FileTally, AllocError> {
    let mut tally = FileTally::default();
    for seed in 0..count {
        let mut file = draw_file(heap, seed, Care::Careful)?;
        let mut dice = Dice::new(seed);
        let at = dice.below(file.len().max(1));
        put(file.as_mut_slice(), at, telling_byte(&mut dice));
        tally.compare(heap, file.as_slice())?;
    }
    Ok(tally)
}

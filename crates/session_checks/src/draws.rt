// Random lawful graphs, spelled out.
use crate::sketches::{Edge, LATE, Shape, Sketch, dependency_name, feature_name};
use crate::spelled::{SpelledDependency, SpelledFeature, SpelledPackage};
use graph_files::FeatureString;
use std::alloc::AllocError;

// A value whose names are of those that graphs are drawn with.
type Value = FeatureString<'static>;

// A feature of a package, as it is drawn: its place among the others, and the dependencies beside it.
#[derive(Clone, Copy)]
struct Spot<'s> {
    names: &'s [usize],
    at: usize,
    edges: &'s [Edge],
}

fn plain(number: usize) -> Value {
    FeatureString::Plain {
        feature: feature_name(number),
    }
}

// A value in one of the four forms; a plain one where there is nothing to link to.
fn draw_value(sketch: &mut Sketch, spot: Spot<'_>) -> Result<Option<Value>, AllocError> {
    let form = sketch.dice.below(5);
    let own = sketch.dice.pick(spot.names).map(plain);
    let at = sketch.dice.below(spot.edges.len().max(1));
    let Some(edge) = spot.edges.get(at) else {
        return Ok(own);
    };
    let dependency = dependency_name(edge.name);
    let common = sketch.common(spot.edges, edge.name)?;
    let linked = sketch.dice.pick(common.as_slice()).map(feature_name);
    Ok(match (form, linked) {
        (0, _) => own,
        (1, _) => Some(FeatureString::Switch { dependency }),
        (2, Some(feature)) => Some(FeatureString::Strong {
            dependency,
            feature,
        }),
        (_, Some(feature)) => Some(FeatureString::Weak {
            dependency,
            feature,
        }),
        _ => own,
    })
}

// The next feature of a chain or cycle.
fn next_value(sketch: &Sketch, spot: Spot<'_>) -> Option<Value> {
    let next = spot.names.get(spot.at.saturating_add(1));
    match sketch.shape {
        Shape::Loose => None,
        Shape::Chain | Shape::Late => next.copied().map(plain),
        Shape::Ring => next.or(spot.names.first()).copied().map(plain),
    }
}

// The weak value at the beginning of a late chain.
fn early_value(sketch: &mut Sketch, spot: Spot<'_>) -> Result<Option<Value>, AllocError> {
    if sketch.shape != Shape::Late || spot.at > 0 {
        return Ok(None);
    }
    let common = sketch.common(spot.edges, LATE)?;
    let linked = sketch.dice.pick(common.as_slice()).map(feature_name);
    Ok(linked.map(|feature| FeatureString::Weak {
        dependency: dependency_name(LATE),
        feature,
    }))
}

// The switch at the end of a late chain.
fn late_value(sketch: &Sketch, spot: Spot<'_>) -> Option<Value> {
    let last = spot.at.saturating_add(1) == spot.names.len();
    (sketch.shape == Shape::Late && last).then_some(FeatureString::Switch {
        dependency: dependency_name(LATE),
    })
}

// How many values a feature has at random: few in chains, so that their order is kept.
fn draw_more(sketch: &mut Sketch) -> usize {
    match sketch.shape {
        Shape::Loose | Shape::Ring => sketch.dice.below(4),
        Shape::Chain => sketch.dice.below(2),
        Shape::Late => usize::from(sketch.dice.below(5) == 0),
    }
}

fn draw_values(sketch: &mut Sketch, spot: Spot<'_>) -> Result<Vec<Value>, AllocError> {
    let mut values = Vec::new(sketch.heap);
    values.extend(early_value(sketch, spot)?)?;
    values.extend(next_value(sketch, spot))?;
    for _ in 0..draw_more(sketch) {
        values.extend(draw_value(sketch, spot)?)?;
    }
    values.extend(late_value(sketch, spot))?;
    Ok(values)
}

fn draw_features(
    sketch: &mut Sketch,
    names: &[usize],
    edges: &[Edge],
) -> Result<Vec<SpelledFeature<'static>>, AllocError> {
    let mut features = Vec::new(sketch.heap);
    for (at, name) in names.iter().enumerate() {
        let spot = Spot { names, at, edges };
        features.push(SpelledFeature {
            name: feature_name(*name),
            values: draw_values(sketch, spot)?,
        })?;
    }
    Ok(features)
}

fn draw_asks(sketch: &mut Sketch, end: usize) -> Result<Vec<&'static [u8]>, AllocError> {
    let mut asks = Vec::new(sketch.heap);
    let names = Vec::from_slice(sketch.heap, sketch.names_of(end))?;
    for _ in 0..sketch.dice.below(3) {
        asks.extend(sketch.dice.pick(names.as_slice()).map(feature_name))?;
    }
    Ok(asks)
}

fn draw_dependencies(
    sketch: &mut Sketch,
    edges: &[Edge],
) -> Result<Vec<SpelledDependency<'static>>, AllocError> {
    let mut dependencies = Vec::new(sketch.heap);
    for edge in edges {
        dependencies.push(SpelledDependency {
            end: edge.end,
            kind: edge.kind,
            optional: edge.optional,
            defaults: edge.defaults,
            name: dependency_name(edge.name),
            asks: draw_asks(sketch, edge.end)?,
        })?;
    }
    Ok(dependencies)
}

fn draw_package(
    sketch: &mut Sketch,
    package: usize,
) -> Result<SpelledPackage<'static>, AllocError> {
    let names = Vec::from_slice(sketch.heap, sketch.names_of(package))?;
    let edges = sketch.draw_edges(package)?;
    Ok(SpelledPackage {
        proc_mark: sketch.dice.below(4) == 0,
        name: feature_name(sketch.dice.below(16)),
        dependencies: draw_dependencies(sketch, edges.as_slice())?,
        features: draw_features(sketch, names.as_slice(), edges.as_slice())?,
    })
}

// A random graph.
pub fn draw_graph(sketch: &mut Sketch) -> Result<Vec<SpelledPackage<'static>>, AllocError> {
    let mut packages = Vec::new(sketch.heap);
    for package in 0..sketch.features.len() {
        packages.push(draw_package(sketch, package)?)?;
    }
    Ok(packages)
}

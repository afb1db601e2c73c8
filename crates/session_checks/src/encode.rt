// Spelled graphs as the bytes of files.
use crate::spelled::{SpelledDependency, SpelledPackage};
use dice::Dice;
use graph_files::{
    DependencyHead, dependency_record, end_record, feature_record, header, package_record,
};
use std::alloc::{AllocError, Global};

fn record_of(heap: Global, dependency: &SpelledDependency<'_>) -> Result<Vec<u8>, AllocError> {
    let head = DependencyHead {
        end: u16::try_from(dependency.end).unwrap_or(u16::MAX),
        kind: dependency.kind,
        optional: dependency.optional,
        defaults: dependency.defaults,
    };
    dependency_record(heap, head, dependency.name, dependency.asks.as_slice())
}

// The records of a package's dependencies and features, each in order, mixed at random.
fn add_owned(
    heap: Global,
    dice: &mut Dice,
    file: &mut Vec<u8>,
    package: &SpelledPackage<'_>,
) -> Result<(), AllocError> {
    let mut dependencies = package.dependencies.iter();
    let mut features = package.features.iter();
    let count = dependencies.len().saturating_add(features.len());
    for _ in 0..count {
        let first = dice.coin() || features.len() == 0;
        let dependency = if first { dependencies.next() } else { None };
        let record = match dependency {
            Some(dependency) => record_of(heap, dependency)?,
            None => match features.next() {
                Some(feature) => feature_record(heap, feature.name, feature.values.as_slice())?,
                None => continue,
            },
        };
        file.extend_from_slice(record.as_slice())?;
    }
    Ok(())
}

// The file of a graph.
pub fn encode(
    heap: Global,
    dice: &mut Dice,
    packages: &[SpelledPackage<'_>],
) -> Result<Vec<u8>, AllocError> {
    let mut file = header(heap)?;
    for package in packages {
        let record = package_record(heap, package.proc_mark, package.name)?;
        file.extend_from_slice(record.as_slice())?;
        add_owned(heap, dice, &mut file, package)?;
    }
    file.extend_from_slice(end_record(heap)?.as_slice())?;
    Ok(file)
}

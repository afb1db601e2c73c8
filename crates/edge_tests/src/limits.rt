// Files at the limits: the last that is accepted, and the first that is refused.
use crate::refused::{self, Outcome, open};
use graph::{EXAMPLE, Opened};
use graph_files::{
    DependencyHead, EdgeKind, FeatureString, dependency_record, end_record, feature_record, header,
    package_record,
};
use std::alloc::{AllocError, Global};
use std::process::Abort;
use std::test::Fail;

fn accepted(read: usize, packages: u32, dependencies: u32, features: u32, rows: u32) -> Outcome {
    Ok(Opened {
        read,
        packages,
        dependencies,
        features,
        rows,
    })
}

fn refused(number: u32, record: usize, start: usize) -> Outcome {
    Err(refused::refused(number, record, start, 0, 0))
}

fn check_opens(
    rt: &impl Abort,
    heap: Global,
    file: &[u8],
    room: usize,
    outcome: Outcome,
) -> Result<(), Fail> {
    let mut words = vec![in heap; 0u32; room]?;
    assert_eq!(rt; open(file, words.as_mut_slice()), outcome);
    Ok(())
}

#[test]
fn words(rt: HostRuntime) -> Result<(), Fail> {
    let heap = rt.alloc();
    check_opens(&rt, heap, &EXAMPLE, 54, accepted(173, 3, 3, 4, 10))?;
    check_opens(&rt, heap, &EXAMPLE, 53, refused(9, 0, 0))?;
    check_opens(&rt, heap, &EXAMPLE, 0, refused(9, 0, 0))?;
    let mut small = header(heap)?;
    small.extend_from_slice(end_record(heap)?.as_slice())?;
    check_opens(&rt, heap, small.as_slice(), 4, accepted(14, 0, 0, 0, 0))?;
    check_opens(&rt, heap, small.as_slice(), 3, refused(9, 0, 0))
}

#[test]
fn bytes(rt: HostRuntime) -> Result<(), Fail> {
    let heap = rt.alloc();
    let mut file = Vec::from_slice(heap, &EXAMPLE)?;
    file.extend_from_slice(vec![in heap; 0xFFu8; 1_048_403]?.as_slice())?;
    assert_eq!(rt; file.len(), 1_048_576);
    check_opens(&rt, heap, file.as_slice(), 54, accepted(173, 3, 3, 4, 10))?;
    file.push(0)?;
    check_opens(&rt, heap, file.as_slice(), 54, refused(8, 0, 0))
}

// A header, so many packages `a`, the other records, and an end.
fn file_of(heap: Global, packages: usize, others: &[u8]) -> Result<Vec<u8>, AllocError> {
    let packages = package_record(heap, false, b"a")?.repeat(heap, packages)?;
    [
        header(heap)?.as_slice(),
        packages.as_slice(),
        others,
        end_record(heap)?.as_slice(),
    ]
    .concat(heap)
}

#[test]
fn packages(rt: HostRuntime) -> Result<(), Fail> {
    let heap = rt.alloc();
    let most = file_of(heap, 4_096, &[])?;
    check_opens(
        &rt,
        heap,
        most.as_slice(),
        4,
        accepted(36_878, 4_096, 0, 0, 0),
    )?;
    let more = file_of(heap, 4_097, &[])?;
    check_opens(&rt, heap, more.as_slice(), 4, refused(8, 4_097, 36_872))
}

// So many dependencies of that name on package 0.
fn dependencies_of(
    heap: Global,
    count: usize,
    name: &[u8],
    optional: bool,
) -> Result<Vec<u8>, AllocError> {
    let head = DependencyHead {
        end: 0,
        kind: EdgeKind::Normal,
        optional,
        defaults: false,
    };
    dependency_record(heap, head, name, &[])?.repeat(heap, count)
}

#[test]
fn dependencies(rt: HostRuntime) -> Result<(), Fail> {
    let heap = rt.alloc();
    let most = file_of(
        heap,
        1,
        dependencies_of(heap, 16_384, b"b", false)?.as_slice(),
    )?;
    check_opens(
        &rt,
        heap,
        most.as_slice(),
        163_844,
        accepted(229_399, 1, 16_384, 0, 32_768),
    )?;
    check_opens(&rt, heap, most.as_slice(), 163_843, refused(9, 0, 0))?;
    let more = file_of(
        heap,
        1,
        dependencies_of(heap, 16_385, b"b", false)?.as_slice(),
    )?;
    check_opens(
        &rt,
        heap,
        more.as_slice(),
        163_844,
        refused(8, 16_386, 229_393),
    )
}

// Features `f00000`, `f00001` and so on, without values.
fn features_of(heap: Global, count: usize) -> Result<Vec<u8>, AllocError> {
    let mut records = Vec::new(heap);
    for i in 0..count {
        let name = format!(in heap; "f{i:05}")?;
        let record = feature_record(heap, name.as_bytes(), &[])?;
        records.extend_from_slice(record.as_slice())?;
    }
    Ok(records)
}

#[test]
fn features(rt: HostRuntime) -> Result<(), Fail> {
    let heap = rt.alloc();
    let most = file_of(heap, 1, features_of(heap, 16_384)?.as_slice())?;
    check_opens(
        &rt,
        heap,
        most.as_slice(),
        4,
        accepted(229_399, 1, 0, 16_384, 0),
    )?;
    let more = file_of(heap, 1, features_of(heap, 16_385)?.as_slice())?;
    check_opens(&rt, heap, more.as_slice(), 4, refused(8, 16_386, 229_393))
}

// 1,024 dependencies `a`, and a feature that turns all of them on 255 times.
#[test]
fn rows(rt: HostRuntime) -> Result<(), Fail> {
    let heap = rt.alloc();
    let mut records = dependencies_of(heap, 1_024, b"a", true)?;
    records.extend_from_slice(feature_record(
        heap,
        b"f",
        &[FeatureString::Switch { dependency: b"a" }; 255],
    )?
    .as_slice())?;
    let most = file_of(heap, 1, records.as_slice())?;
    let outcome = accepted(15_898, 1, 1_024, 1, 262_144);
    check_opens(&rt, heap, most.as_slice(), 1_310_724, outcome)?;
    check_opens(&rt, heap, most.as_slice(), 1_310_723, refused(9, 0, 0))?;
    records.extend_from_slice(feature_record(
        heap,
        b"g",
        &[FeatureString::Plain { feature: b"g" }],
    )?.as_slice())?;
    let more = file_of(heap, 1, records.as_slice())?;
    check_opens(&rt, heap, more.as_slice(), 0, refused(8, 0, 0))
}

// Damaged copies of the example, with the refusals that the rules give them.
use crate::refused::{open, refused};
use graph::EXAMPLE;
use graph_files::{FeatureString, feature_record};
use refusals::Refusal;
use std::alloc::{AllocError, Global};
use std::process::Abort;
use std::test::Fail;

// A change of the byte at a place.
type Change = (usize, u8);

fn check_refused(rt: &impl Abort, file: &[u8], refusal: Refusal) {
    let mut words = [7u32; 100];
    assert_eq!(rt; open(file, &mut words), Err(refusal));
    assert_eq!(rt; words, [7u32; 100]);
}

// The example with these bytes.
fn changed(heap: Global, changes: &[Change]) -> Result<Vec<u8>, AllocError> {
    let mut file = Vec::from_slice(heap, &EXAMPLE)?;
    for (at, byte) in changes {
        if let Some(place) = file.get_mut(*at) {
            *place = *byte;
        }
    }
    Ok(file)
}

fn check_table(rt: &impl Abort, heap: Global, table: &[(&[Change], Refusal)]) -> Result<(), Fail> {
    for (changes, refusal) in table {
        check_refused(rt, changed(heap, changes)?.as_slice(), *refusal);
    }
    Ok(())
}

#[test]
fn cut_or_stray(rt: HostRuntime) -> Result<(), Fail> {
    check_table(
        &rt,
        rt.alloc(),
        &[
            (&[(150, 0x01)], refused(1, 10, 147, 0, 0)),
            (&[(74, 0x06)], refused(2, 5, 70, 0, 0)),
            (&[(75, 0x01)], refused(2, 5, 70, 0, 0)),
            (&[(4, 0x02), (6, 0x02)], refused(2, 0, 0, 0, 0)),
        ],
    )
}

#[test]
fn cut_short(rt: HostRuntime) -> Result<(), Fail> {
    for (len, record, start) in [
        (0usize, 0usize, 0usize),
        (3, 0, 0),
        (7, 0, 0),
        (8, 1, 8),
        (166, 10, 147),
        (167, 11, 167),
        (172, 11, 167),
    ] {
        let cut = EXAMPLE.get(0..len).unwrap_or(&[]);
        check_refused(&rt, cut, refused(1, record, start, 0, 0));
    }
    let far = changed(rt.alloc(), &[(25, 0x03)])?;
    check_refused(
        &rt,
        far.as_slice().get(0..172).unwrap_or(&[]),
        refused(1, 11, 167, 0, 0),
    );
    Ok(())
}

#[test]
fn ragged(rt: HostRuntime) -> Result<(), Fail> {
    check_table(
        &rt,
        rt.alloc(),
        &[
            (&[(167, 0x01)], refused(3, 11, 167, 0, 0)),
            (&[(0, 0x03)], refused(3, 0, 0, 6, 0)),
            (&[(15, 0x04)], refused(3, 1, 8, 7, 0)),
            (&[(15, 0x02)], refused(3, 1, 8, 10, 0)),
            (&[(66, 0x02)], refused(3, 4, 52, 18, 0)),
            (&[(66, 0x00)], refused(3, 4, 52, 15, 0)),
            (&[(15, 0x04), (16, 0x2D)], refused(3, 1, 8, 7, 0)),
        ],
    )?;
    let mut file = changed(rt.alloc(), &[(167, 0x03)])?;
    file.push(0x00)?;
    check_refused(&rt, file.as_slice(), refused(3, 11, 167, 6, 0));
    Ok(())
}

#[test]
fn marks(rt: HostRuntime) -> Result<(), Fail> {
    check_table(
        &rt,
        rt.alloc(),
        &[
            (&[(6, 0x02)], refused(4, 0, 0, 6, 0)),
            (&[(7, 0x01)], refused(4, 0, 0, 6, 0)),
            (&[(14, 0x02)], refused(4, 1, 8, 6, 0)),
            (&[(28, 0x02)], refused(4, 2, 19, 9, 0)),
            (&[(44, 0x03)], refused(4, 3, 36, 8, 0)),
            (&[(46, 0xFF)], refused(4, 3, 36, 10, 0)),
            (&[(14, 0x02), (15, 0x04)], refused(4, 1, 8, 6, 0)),
        ],
    )
}

#[test]
fn names(rt: HostRuntime) -> Result<(), Fail> {
    check_table(
        &rt,
        rt.alloc(),
        &[
            (&[(16, 0x2D)], refused(5, 1, 8, 8, 0)),
            (&[(17, 0x2F)], refused(5, 1, 8, 8, 1)),
            (&[(87, 0x2F)], refused(5, 5, 70, 11, 6)),
            (&[(95, 0x3F)], refused(5, 5, 70, 20, 5)),
            (&[(166, 0x3A)], refused(5, 10, 147, 18, 1)),
        ],
    )
}

#[test]
fn unknown(rt: HostRuntime) -> Result<(), Fail> {
    check_table(
        &rt,
        rt.alloc(),
        &[
            (&[(25, 0x03)], refused(7, 2, 19, 6, 0)),
            (&[(25, 0x02)], refused(7, 5, 70, 20, 0)),
            (&[(69, 0x70)], refused(7, 4, 52, 16, 0)),
            (&[(88, 0x66)], refused(7, 5, 70, 11, 0)),
            (&[(98, 0x65)], refused(7, 5, 70, 20, 0)),
            (&[(166, 0x75)], refused(7, 10, 147, 18, 0)),
            (&[(69, 0x70), (153, 0x03)], refused(7, 10, 147, 6, 0)),
        ],
    )
}

// The bytes of the example up to one place, other bytes, and those of the example from another place on.
fn patched(heap: Global, end: usize, other: &[u8], start: usize) -> Result<Vec<u8>, AllocError> {
    let before = EXAMPLE.get(..end).unwrap_or(&[]);
    let after = EXAMPLE.get(start..).unwrap_or(&[]);
    [before, other, after].concat(heap)
}

// Records left out, where the second place is the later one, and records written twice.
#[test]
fn orders(rt: HostRuntime) -> Result<(), Fail> {
    for (end, start, refusal) in [
        (0usize, 8usize, refused(2, 0, 0, 0, 0)),
        (8, 0, refused(2, 1, 8, 0, 0)),
        (8, 19, refused(2, 1, 8, 0, 0)),
        (167, 173, refused(1, 11, 167, 0, 0)),
        (70, 52, refused(6, 5, 70, 7, 0)),
        (122, 111, refused(6, 8, 122, 7, 0)),
    ] {
        let file = patched(rt.alloc(), end, b"", start)?;
        check_refused(&rt, file.as_slice(), refusal);
    }
    Ok(())
}

// Another feature in the place of one.
#[test]
fn other_features(rt: HostRuntime) -> Result<(), Fail> {
    let table: [(usize, usize, &[u8], &[u8], Refusal); 3] = [
        (52, 70, b"default", b"", refused(5, 4, 52, 16, 0)),
        (52, 70, b"io", b"io", refused(6, 5, 65, 7, 0)),
        (122, 136, b"std", b"std", refused(6, 8, 122, 7, 0)),
    ];
    for (end, start, name, value, refusal) in table {
        let other = feature_record(rt.alloc(), name, &[FeatureString::Plain { feature: value }])?;
        let file = patched(rt.alloc(), end, other.as_slice(), start)?;
        check_refused(&rt, file.as_slice(), refusal);
    }
    Ok(())
}

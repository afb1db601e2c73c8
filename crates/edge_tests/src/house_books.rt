// House books at their edges.
use crate::seeks::{NONE, Row, check_counts, check_seeks, found};
use rulebook::HouseBook;
use std::alloc::{AllocError, Global};
use std::process::Abort;
use std::test::Fail;

fn check_house(rt: &impl Abort, items: u32, words: &[u32], counts: (u32, u32), table: &[Row]) {
    let book = HouseBook { items, words };
    check_counts(rt, &book, counts.0, counts.1);
    check_seeks(rt, &book, table);
}

#[test]
fn houses(rt: HostRuntime) {
    check_house(
        &rt,
        3,
        &[0, 1, 2, 1, NONE],
        (3, 1),
        &[
            (0, 0, found(0, Some(1), 2)),
            (1, 0, found(0, Some(0), 2)),
            (2, 0, None),
            (1, 1, None),
        ],
    );
    check_house(
        &rt,
        2,
        &[0, 1, 2, NONE, 0, 1, 1, 0, NONE, 1, 1, 0],
        (2, 4),
        &[(0, 0, None), (1, 0, found(3, Some(1), 0))],
    );
    let last = [73_727, NONE, 0, 73_728, NONE, 0];
    check_house(
        &rt,
        73_728,
        &last,
        (73_728, 2),
        &[(73_727, 0, found(0, None, 0)), (73_728, 0, None)],
    );
    check_house(
        &rt,
        73_729,
        &last,
        (0, 2),
        &[(73_727, 0, None), (73_728, 0, None)],
    );
    check_house(&rt, 0, &[0, 0, 0], (0, 1), &[(0, 0, None)]);
}

// So many rows without a rule, and one with a rule.
fn rule_after(heap: Global, rows: usize) -> Result<Vec<u32>, AllocError> {
    let mut words = vec![in heap; NONE; rows.saturating_mul(3)]?;
    words.extend_from_slice(&[0, NONE, 1])?;
    Ok(words)
}

#[test]
fn max_rows(rt: HostRuntime) -> Result<(), Fail> {
    let last = rule_after(rt.alloc(), 4_095)?;
    check_house(
        &rt,
        2,
        last.as_slice(),
        (2, 4_096),
        &[
            (0, 0, found(4_095, None, 1)),
            (0, 4_095, found(4_095, None, 1)),
            (0, 4_096, None),
        ],
    );
    let past = rule_after(rt.alloc(), 4_096)?;
    check_house(
        &rt,
        2,
        past.as_slice(),
        (2, 4_096),
        &[(0, 0, None), (0, 4_096, None)],
    );
    Ok(())
}

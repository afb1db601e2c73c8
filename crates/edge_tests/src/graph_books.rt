// Graph books at their edges.
use crate::seeks::{NONE, Row, check_counts, check_seeks, found};
use graph::{EXAMPLE, open_graph};
use policy::{DevCut, HostSplit};
use rulebook::GraphBook;
use std::process::Abort;

// Under host-split. Items 0 to 9 are on the target, 10 to 19 on the host; `gen` is built for the host.
#[test]
fn example(rt: HostRuntime) {
    let mut words = [0u32; 54];
    assert_eq!(rt; open_graph(&EXAMPLE, &mut words).is_ok(), true);
    let book = GraphBook::new(&words[..], &HostSplit);
    check_counts(&rt, &book, 20, 10);
    let table = [
        (0, 0, found(1, None, 4)),
        (0, 1, found(1, None, 4)),
        (0, 2, None),
        (1, 0, None),
        (2, 0, found(7, None, 5)),
        (3, 0, found(0, None, 1)),
        (3, 1, found(5, Some(7), 8)),
        (3, 6, None),
        (4, 0, found(2, None, 12)),
        (5, 9, found(9, None, 9)),
        (7, 4, found(4, None, 3)),
        (7, 5, found(5, Some(3), 8)),
        (8, 0, None),
        (10, 0, found(1, None, 14)),
        (12, 0, found(7, None, 15)),
        (13, 1, found(5, Some(17), 18)),
        (14, 0, found(2, None, 12)),
        (15, 0, found(8, None, 11)),
        (17, 5, found(5, Some(13), 18)),
        (19, 7, None),
        (20, 0, None),
        (0, 10, None),
        (NONE, 0, None),
        (0, NONE, None),
    ];
    check_seeks(&rt, &book, &table);
}

fn check_words(rt: &impl Abort, words: &[u32], items: u32, rows: u32, table: &[Row]) {
    let book = GraphBook::new(words, &HostSplit);
    check_counts(rt, &book, items, rows);
    check_seeks(rt, &book, table);
}

// Words that are too few, or just enough, for their counts and rows.
#[test]
fn lengths(rt: HostRuntime) {
    let none = [(0, 0, None), (1, 0, None), (0, NONE, None)];
    check_words(&rt, &[], 0, 0, &none);
    check_words(&rt, &[1], 0, 0, &none);
    check_words(&rt, &[1, 0, 0], 0, 0, &none);
    check_words(&rt, &[1, 0, 0, 0], 2, 0, &none);
    check_words(&rt, &[1, 0, 0, 1, 0, NONE, 0, 6], 0, 0, &none);
    let row = [
        (0, 0, found(0, None, 0)),
        (1, 0, found(0, None, 1)),
        (0, 1, None),
    ];
    check_words(&rt, &[1, 0, 0, 1, 0, NONE, 0, 6, 0], 2, 1, &row);
    check_words(&rt, &[1, 0, 0, 1, 0, NONE, 0, 6, 0, 0], 2, 1, &row);
    check_words(&rt, &[1, 0, 0, 2, 0, NONE, 0, 6, 0], 0, 0, &none);
    check_words(
        &rt,
        &[1, 0, 0, 2, 0, NONE, 0, 6, 0, 0, NONE, 0, 6],
        0,
        0,
        &none,
    );
}

// The words of two local items and one row.
fn check_row(rt: &impl Abort, row: [u32; 5], table: &[Row]) {
    let [from, with, to, lane, cross] = row;
    check_words(rt, &[1, 1, 0, 1, from, with, to, lane, cross], 4, 1, table);
}

// Rows whose words are the last in range and the first out of range.
#[test]
fn rows(rt: HostRuntime) {
    let none = [(0, 0, None), (1, 0, None), (2, 0, None), (3, 0, None)];
    check_row(
        &rt,
        [1, 0, 1, 6, 1],
        &[
            (0, 0, found(0, Some(1), 1)),
            (1, 0, found(0, Some(0), 1)),
            (2, 0, found(0, Some(3), 3)),
            (3, 0, found(0, Some(2), 3)),
        ],
    );
    check_row(
        &rt,
        [1, 1, 0, 4, 1],
        &[
            (0, 0, None),
            (1, 0, found(0, Some(1), 2)),
            (2, 0, None),
            (3, 0, found(0, Some(3), 2)),
        ],
    );
    check_row(&rt, [2, 0, 1, 6, 0], &none);
    check_row(&rt, [1, 2, 1, 6, 0], &none);
    check_row(&rt, [1, 0, 2, 6, 0], &none);
    check_row(&rt, [1, 0, 1, 7, 0], &none);
    check_row(&rt, [1, 0, 1, 6, 2], &none);
    check_row(&rt, [NONE, 0, 1, 6, 0], &none);
    check_row(&rt, [1, 0, NONE, 6, 0], &none);
}

// A cut lane gives no rule, whatever cross is.
#[test]
fn cut(rt: HostRuntime) {
    let no_dev = DevCut { below: HostSplit };
    for cross in [0, 1] {
        let words = [1, 1, 0, 1, 0, NONE, 1, 2, cross];
        let book = GraphBook::new(&words[..], &no_dev);
        check_counts(&rt, &book, 4, 1);
        check_seeks(&rt, &book, &[(0, 0, None), (2, 0, None)]);
    }
}

// As many items as there may be, and one more of a kind.
#[test]
fn max_items(rt: HostRuntime) {
    let row = [36_863, NONE, 0, 1, 1];
    let [from, with, to, lane, cross] = row;
    check_words(
        &rt,
        &[4_096, 16_384, 16_384, 1, from, with, to, lane, cross],
        73_728,
        1,
        &[
            (36_863, 0, found(0, None, 36_864)),
            (73_727, 0, found(0, None, 36_864)),
            (73_727, 1, None),
            (73_728, 0, None),
            (0, 0, None),
        ],
    );
    let none = [(36_863, 0, None), (73_727, 0, None)];
    check_words(
        &rt,
        &[4_097, 16_384, 16_384, 1, from, with, to, lane, cross],
        0,
        0,
        &none,
    );
    check_words(
        &rt,
        &[4_096, 16_385, 16_384, 1, from, with, to, lane, cross],
        0,
        0,
        &none,
    );
    check_words(
        &rt,
        &[4_096, 16_384, 16_385, 1, from, with, to, lane, cross],
        0,
        0,
        &none,
    );
}

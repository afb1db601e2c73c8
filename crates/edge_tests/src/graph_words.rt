// The words of the example: counts, rows, and the numbers of items at both ends of each range.
use graph::{EXAMPLE, GraphWords, Item, ItemRule, LocalItem, Row, open_graph};
use lanes::{EdgeKind, Lane, Side};
use std::process::Abort;

const NORMAL: Option<Lane> = Some(Lane {
    edge: EdgeKind::Normal,
    procedural: false,
});

fn row(from: u32, with: Option<u32>, to: u32, lane: Option<Lane>, cross: bool) -> Option<Row> {
    Some(Row {
        rule: ItemRule { from, with, to },
        lane,
        cross,
    })
}

// Three packages, three dependencies, four features, ten rows.
#[test]
fn counts_and_rows(rt: HostRuntime) {
    let mut memory = [0u32; 54];
    assert_eq!(rt; open_graph(&EXAMPLE, &mut memory).is_ok(), true);
    let words = GraphWords::of(&memory);
    assert_eq!(rt; words.packages(), 3);
    assert_eq!(rt; words.dependencies(), 3);
    assert_eq!(rt; words.features(), 4);
    assert_eq!(rt; words.rows(), 10);
    assert_eq!(rt; words.items(), 10);
    assert_eq!(rt; GraphWords::len_with(10), 54);
    for (number, outcome) in [
        (0, row(3, None, 1, NORMAL, true)),
        (5, row(7, Some(3), 8, NORMAL, true)),
        (6, row(9, None, 8, None, false)),
        (9, row(5, None, 9, NORMAL, true)),
        (10, None),
        (4_294_967_295, None),
    ] {
        assert_eq!(rt; words.row(number), outcome, "row {number}");
    }
}

// An item that has a number, and back.
fn check_number(
    rt: &impl Abort,
    words: &GraphWords<'_>,
    side: Side,
    local: LocalItem,
    number: u32,
) {
    let item = Item { side, local };
    assert_eq!(rt; words.item_number(item), Some(number), "to {number}");
    assert_eq!(rt; words.item(number), Some(item), "from {number}");
}

// The first and last of each kind, on both sides, and the first past each.
#[test]
fn item_numbers(rt: HostRuntime) {
    let mut memory = [0u32; 54];
    assert_eq!(rt; open_graph(&EXAMPLE, &mut memory).is_ok(), true);
    let words = GraphWords::of(&memory);
    for (local, number) in [
        (LocalItem::Unit(0), 0),
        (LocalItem::Unit(2), 2),
        (LocalItem::Dependency(0), 3),
        (LocalItem::Dependency(2), 5),
        (LocalItem::Feature(0), 6),
        (LocalItem::Feature(3), 9),
    ] {
        check_number(&rt, &words, Side::Target, local, number);
        check_number(&rt, &words, Side::Host, local, number + 10);
    }
    assert_eq!(rt; words.item(20), None);
    assert_eq!(rt; words.item(4_294_967_295), None);
    let side = Side::Host;
    for local in [
        LocalItem::Unit(3),
        LocalItem::Dependency(3),
        LocalItem::Feature(4),
    ] {
        assert_eq!(rt; words.item_number(Item { side, local }), None, "{local:?}");
    }
}

// Of words that are no graph every count is 0, and no row or item is there.
#[test]
fn no_words(rt: HostRuntime) {
    let words = GraphWords::of(&[1, 0, 0, 1, 0, 0, 0, 6]);
    assert_eq!(rt; words.packages(), 0);
    assert_eq!(rt; words.rows(), 0);
    assert_eq!(rt; words.items(), 0);
    assert_eq!(rt; words.row(0), None);
    assert_eq!(rt; words.item(0), None);
}

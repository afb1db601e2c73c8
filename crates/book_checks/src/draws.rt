// Random words for books.
ghost use Rattle.std.specs.Prelude.{◌<◌};

use crate::plain::NONE;
use dice::Dice;
use std::alloc::{AllocError, Global};

// A word below n.
fn draw(dice: &mut Dice, n: u32) -> u32
    requires { 0 < n }
    ensures { result < n }
{
    dice.below(n as usize) as u32
}

// A row of a graph with so many local items.
fn draw_row(dice: &mut Dice, items: u32) -> [u32; 5] {
    let items = items.max(1);
    let from = draw(dice, items);
    let with = if dice.coin() { NONE } else { draw(dice, items) };
    [from, with, draw(dice, items), draw(dice, 7), draw(dice, 2)]
}

// The words of a graph with up to six local items and up to eight rows.
pub fn draw_graph(heap: Global, dice: &mut Dice) -> Result<Vec<u32>, AllocError> {
    let [packages, dependencies, features] = [draw(dice, 3), draw(dice, 3), draw(dice, 3)];
    let items = packages + dependencies + features;
    let rows = draw(dice, 9);
    let mut words = vec![in heap; packages, dependencies, features, rows]?;
    for _ in 0..rows {
        words.extend_from_slice(&draw_row(dice, items))?;
    }
    Ok(words)
}

// A word at or past some limit, or near one of a small graph.
fn telling_word(dice: &mut Dice) -> u32 {
    let any = draw(dice, 8);
    let at = dice.below(20);
    [
        NONE,
        NONE - 1,
        6,
        7,
        8,
        12,
        4_096,
        4_097,
        16_384,
        16_385,
        262_144,
        262_145,
        2_147_483_648,
        2_147_483_649,
    ]
    .get(at)
    .copied()
    .unwrap_or(any)
}

// Writes a telling word at a place, if there is one.
fn put(dice: &mut Dice, words: &mut [u32], at: usize) {
    let telling = telling_word(dice);
    if let Some(word) = words.get_mut(at) {
        *word = telling;
    }
}

fn lengthen(dice: &mut Dice, words: &mut Vec<u32>) -> Result<(), AllocError> {
    for _ in 0..draw(dice, 12) {
        words.push(draw(dice, 9))?;
    }
    Ok(())
}

// Damages words once: a word of a row or a count replaced, some words cut off, or more behind.
fn damage(dice: &mut Dice, words: &mut Vec<u32>) -> Result<(), AllocError> {
    let at = dice.below(words.len().max(1));
    match dice.below(6) {
        0 => {
            let count = dice.below(4);
            put(dice, words.as_mut_slice(), count);
        }
        1 => words.truncate(at),
        2 => lengthen(dice, words)?,
        _ => put(dice, words.as_mut_slice(), at),
    }
    Ok(())
}

// The words of a graph, damaged up to three times.
pub fn draw_damaged(heap: Global, dice: &mut Dice) -> Result<Vec<u32>, AllocError> {
    let mut words = draw_graph(heap, dice)?;
    for _ in 0..1 + dice.below(3) {
        damage(dice, &mut words)?;
    }
    Ok(words)
}

// A word for a house book of so many items: mostly one of the first nine items, else about the count or none.
fn house_word(dice: &mut Dice, items: u32) -> u32 {
    match dice.below(16) {
        0 | 1 | 2 => NONE,
        3 => NONE - 1,
        4 => items,
        5 => items.saturating_sub(1),
        6 => 73_728,
        _ => draw(dice, items.min(9).max(1)),
    }
}

// Words for a house book of so many items, not always whole rows.
pub fn draw_house(heap: Global, dice: &mut Dice, items: u32) -> Result<Vec<u32>, AllocError> {
    let mut words = Vec::new(heap);
    for _ in 0..dice.below(27) {
        words.push(house_word(dice, items))?;
    }
    Ok(words)
}

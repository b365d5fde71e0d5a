// Writes the lines of a decision into the lent bytes, where they have room.
ghost use Rattle.std.specs.Prelude.{◌≡◌, ◌+◌, ◌*◌, ◌≤◌, length};
ghost use Rattle.lines.specs.Line.{line_of, lines_of};
ghost use Rattle.lines.specs.Over.{over};
ghost use Rattle.sheet.specs.Blocks.{block_rows, Few, all_rows, place_line_rows};
ghost use Rattle.sheet.specs.Rows.{rows_of};
ghost use Rattle.sheet.specs.Sheet as Spec;

use super::blocks::{Block, PlaceLines};
use game::Decision;
use lines::Row;
use refusal::Refusal;

// Writes a line from a place of the sheet on.
fn line_at(sheet: &mut [u8], at: usize, row: Row)
    requires { at + 45 ≤ length sheet.old }
    ensures { sheet.new ≡ over at (line_of row) sheet.old }
{
    lines::line(&mut sheet[at..], row);
}

// Writes the lines of a block, and answers the place after them.
fn block_lines(sheet: &mut [u8], at: usize, b: Block) -> usize
    requires { (b.count ≤ 20) × (at + 45 * b.count ≤ length sheet.old) }
    ensures value { result ≡ at + 45 * b.count }
    ensures sheet_after { sheet.new ≡ over at (lines_of (block_rows b)) sheet.old }
{
    let n = b.count;
    let numbers = b.numbers;
    let values = b.values;
    for i in 0..n {
        let row = Row {
            kind: b.kind,
            side: b.side,
            number: numbers[i] as u32,
            value: values[i] as u32,
        };
        line_at(sheet, at + 45 * i, row);
    }
    at + 45 * n
}

// Writes the lines of all blocks, and answers the place after them.
#[tactic(auto, unfolding(lists::specs::Gather::flat_to))]
fn all_lines(sheet: &mut [u8], at: usize, blocks: [Block; 10]) -> usize
    requires { Few blocks × (at + 45 * length (all_rows blocks) ≤ length sheet.old) }
    ensures value { result ≡ at + 45 * length (all_rows blocks) }
    ensures sheet_after { sheet.new ≡ over at (lines_of (all_rows blocks)) sheet.old }
{
    let mut next = at;
    for i in 0..10 {
        let b = blocks[i];
        next = block_lines(sheet, next, b);
    }
    next
}

// How many lines the blocks have.
#[tactic(auto, unfolding(lists::specs::Gather::flat_to))]
fn line_count(blocks: [Block; 10]) -> usize
    requires { Few blocks }
    ensures { (result ≡ length (all_rows blocks)) × (result ≤ 200) }
{
    let mut n: usize = 0;
    for i in 0..10 {
        let b = blocks[i];
        n += b.count;
    }
    n
}

// How many lines a place has: three, or none.
#[tactic(auto, unfolding(crate::specs::Blocks::place_line_rows))]
fn place_count(placed: Option<PlaceLines>) -> usize
    ensures { result ≡ length (place_line_rows placed) }
{
    match placed {
        None => 0,
        Some(_) => 3,
    }
}

// How many lines follow the header of a decision's sheet.
pub fn lines_following(d: Decision) -> usize
    ensures { result ≡ length (rows_of d) }
{
    let blocks = super::blocks::blocks_of(d);
    let place = d.place;
    let placed = super::blocks::lines_of_place(place);
    line_count(blocks) + place_count(placed)
}

// Writes the lines of a place, where there is one.
#[tactic(auto, unfolding(lines::specs::Line::lines_of))]
fn place_lines(sheet: &mut [u8], at: usize, placed: Option<PlaceLines>)
    requires { at + 45 * length (place_line_rows placed) ≤ length sheet.old }
    ensures { sheet.new ≡ over at (lines_of (place_line_rows placed)) sheet.old }
{
    let Some(placed) = placed else {
        return;
    };
    let x = Row {
        kind: 7,
        side: placed.side,
        number: placed.number,
        value: placed.x,
    };
    line_at(sheet, at, x);
    let y = Row {
        kind: 8,
        side: placed.side,
        number: placed.number,
        value: placed.y,
    };
    line_at(sheet, at + 45, y);
    let z = Row {
        kind: 9,
        side: placed.side,
        number: placed.number,
        value: placed.z,
    };
    line_at(sheet, at + 45 + 45, z);
}

// Writes the sheet of a decision at the front of the lent bytes, and answers how many bytes it has; the bytes after it are kept. Where they are too few for it, all of them are
// kept.
pub fn write_decision(d: Decision, sheet: &mut [u8]) -> Result<usize, Refusal>
    ensures value { result ≡ Spec.decision_answer d (length sheet.old) }
    ensures sheet_after { sheet.new ≡ Spec.decision_sheet d sheet.old }
{
    let blocks = super::blocks::blocks_of(d);
    let place = d.place;
    let placed = super::blocks::lines_of_place(place);
    let n = line_count(blocks) + place_count(placed);
    let bytes = 45 * n + 45;
    if sheet.len() < bytes {
        return Err(Refusal::SheetRoom);
    }
    let header = Row {
        kind: 0,
        side: 2,
        number: n as u32,
        value: 1,
    };
    line_at(sheet, 0, header);
    let next = all_lines(sheet, 45, blocks);
    place_lines(sheet, next, placed);
    Ok(bytes)
}

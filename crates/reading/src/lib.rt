// Reads a sheet: whether a text is one, and the items of its lines.
#![tactic(auto)]

ghost use Rattle.std.specs.Prelude.{◌≡◌, ◌≤◌, eqb};
ghost use Rattle.reading.specs.Rules as Rules;
ghost use Rattle.reading.specs.declared.Walk.TheVariants.{Start};
ghost use Rattle.reading.specs.Reading as Spec;
ghost use Rattle.reading.specs.Walk as Steps;

use items::Item;
use lines::Row;

// Why a text is no sheet, by the number of the refusal.
#[derive(Clone, Copy, PartialEq, Eq)]
pub enum NoSheet {
    // It is not lines of 45 bytes in column form.
    NotLines = 9,
    // The first line has kind 0, and its number is not how many lines come after it.
    Miscounted = 10,
    // It breaks another clause of what a sheet is.
    Breach = 11,
}

// The number of a refusal.
pub fn number_of(refusal: NoSheet) -> u8
    ensures { result ≡ Spec.number_of refusal }
{
    refusal as u8
}

// What is known after some lines: one is no line in column form; they cannot begin a sheet; there was none yet; or the last one, with a flag for each player
// that its side named in kind 2 so far.
#[derive(Clone, Copy)]
enum Walk {
    NotLines,
    Breach,
    Start,
    After(Row, u32),
}

// Whether two lines are of one block: of one kind, where 7, 8 and 9 are one, and in kind 2 of one side.
fn same_block(last: Row, row: Row) -> bool
    ensures { result ≡ eqb (Steps.block last) (Steps.block row) }
{
    let same_kind = (last.kind == row.kind) | ((last.kind >= 7) & (row.kind >= 7));
    let same_side = (last.side == 0) == (row.side == 0);
    same_kind & ((row.kind != 2) | same_side)
}

// Whether a line may begin its block.
#[tactic(auto, unfolding(crate::specs::Walk::begins))]
fn begins(row: Row) -> bool
    ensures { result ≡ Steps.begins row }
{
    if row.kind == 2 {
        return row.value == 1;
    }
    row.kind < 8
}

// Whether a block may end with a line.
fn ends(row: Row) -> bool
    ensures { result ≡ Steps.ends row }
{
    !((row.kind == 7) | (row.kind == 8))
}

// Whether the kind is not lower, and in kind 2 Home comes before Away.
fn not_before(last: Row, row: Row) -> bool
    ensures { result ≡ Rules.not_before last row }
{
    if last.kind == 2 {
        return (last.kind, last.side) <= (row.kind, row.side);
    }
    last.kind <= row.kind
}

// Whether a player comes before another: Home 1 to 20, then Away 1 to 20.
fn earlier(last: Row, row: Row) -> bool
    ensures { result ≡ Rules.earlier last row }
{
    (last.side, last.number) < (row.side, row.number)
}

// Whether both lines are for the same player, or for the ball.
fn same_who(last: Row, row: Row) -> bool
    ensures { result ≡ Rules.same_who last row }
{
    (last.side, last.number) == (row.side, row.number)
}

// Whether a line may follow the last one in its block. The flags are those of the players that were named in it.
#[tactic(auto, unfolding(crate::specs::Walk::continues))]
fn continues(last: Row, seen: u32, row: Row) -> bool
    requires { row.number ≤ 20 }
    ensures { result ≡ Steps.continues last seen row }
{
    if row.kind == 2 {
        let flag = (seen >> row.number) % 2;
        return (row.value as u64 == last.value as u64 + 1) & !(flag == 1);
    }
    if row.kind >= 7 {
        return (row.kind as u64 == last.kind as u64 + 1) & same_who(last, row);
    }
    !(row.kind == 3) & (!(row.kind == 6) & earlier(last, row))
}

// Whether a line may follow the last one.
#[tactic(auto, unfolding(crate::specs::Walk::linked))]
fn linked(last: Row, seen: u32, row: Row) -> bool
    requires { row.number ≤ 20 }
    ensures { result ≡ Steps.linked last seen row }
{
    if same_block(last, row) {
        return continues(last, seen, row);
    }
    ends(last) & begins(row)
}

// Whether a line has the numbers of an item, comes in order, and may follow the last one.
#[tactic(auto, unfolding(crate::specs::Walk::fits_after))]
fn fits_after(last: Row, seen: u32, row: Row) -> bool
    ensures { result ≡ Steps.fits_after last seen row }
{
    if !items::is_item(row) {
        return false;
    }
    not_before(last, row) & linked(last, seen, row)
}

// The flags after a line: in kind 2 those of its side's players so far, with its own.
#[tactic(auto, unfolding(crate::specs::Walk::seen_after))]
fn seen_after(last: Row, seen: u32, row: Row) -> u32
    requires { row.number ≤ 20 }
    ensures { result ≡ Steps.seen_after last seen row }
{
    if row.kind == 2 {
        let flag = 1u32 << row.number;
        if same_block(last, row) {
            return seen | flag;
        }
        return flag;
    }
    0
}

// Whether the first line is a header, but for its count.
fn opens(row: Row) -> bool
    ensures { result ≡ Steps.opens row }
{
    (row.kind == 0) & ((row.side == 2) & (row.value == 1))
}

// After a line that is one in column form.
fn after_row(walk: Walk, row: Row) -> Walk
    ensures { result ≡ Steps.next walk (Some row) }
{
    match walk {
        Walk::NotLines => Walk::NotLines,
        Walk::Breach => Walk::Breach,
        Walk::Start => {
            if opens(row) {
                return Walk::After(row, 0);
            }
            Walk::Breach
        }
        Walk::After(last, seen) => {
            if fits_after(last, seen, row) {
                return Walk::After(row, seen_after(last, seen, row));
            }
            Walk::Breach
        }
    }
}

// One line on.
fn next(walk: Walk, line: Option<Row>) -> Walk
    ensures { result ≡ Steps.next walk line }
{
    match line {
        None => Walk::NotLines,
        Some(row) => after_row(walk, row),
    }
}

// All lines of a text.
fn walk_lines(text: &[u8]) -> Walk
    ensures { result ≡ Steps.walked Start (Steps.lines_in text.now) }
{
    let n = text.len() / 45;
    let mut walk = Walk::Start;
    for i in 0..n {
        walk = next(walk, fields::line_at(text, i));
    }
    walk
}

// Whether one of them was no line.
fn broken(walk: Walk) -> bool
    ensures { result ≡ Steps.broken walk }
{
    matches!(walk, Walk::NotLines)
}

// Whether a sheet can end here.
fn whole(walk: Walk) -> bool
    ensures { result ≡ Steps.whole walk }
{
    match walk {
        Walk::After(last, _) => ends(last),
        _ => false,
    }
}

// Whether a first line of kind 0 counts the others, where there are so many lines.
fn counted_by(line: Option<Row>, n: usize) -> bool
    ensures { result ≡ Steps.counted_by line n }
{
    line.is_none_or(|row| !(row.kind == 0) | (row.number as usize + 1 == n))
}

// The first refusal, where there is one.
fn refusal(text: &[u8]) -> Result<(), NoSheet>
    ensures { result ≡ Spec.unless_refused (Spec.read_refusal text.now) tt }
{
    let walk = walk_lines(text);
    if broken(walk) | (text.len() % 45 != 0) {
        return Err(NoSheet::NotLines);
    }
    let first = fields::line_at(text, 0);
    if !counted_by(first, text.len() / 45) {
        return Err(NoSheet::Miscounted);
    }
    if whole(walk) {
        return Ok(());
    }
    Err(NoSheet::Breach)
}

// Whether a text is a sheet: how many lines follow its header, or a refusal.
pub fn read_sheet(text: &[u8]) -> Result<usize, NoSheet>
    ensures { result ≡ Spec.sheet_read text.now }
{
    refusal(text)?;
    Ok(text.len() / 45 - 1)
}

// The numbers of the item of a line after the header, from 1; none for 0 and past the last. A refusal, whatever line is asked for.
pub fn read_line(text: &[u8], line: usize) -> Result<Option<Row>, NoSheet>
    ensures { result ≡ Spec.numbers_read text.now line }
{
    refusal(text)?;
    let is_header = line == 0;
    if is_header {
        return Ok(None);
    }
    Ok(fields::line_at(text, line))
}

// The item of a line after the header.
pub fn read_item(text: &[u8], line: usize) -> Result<Option<Item>, NoSheet>
    ensures { result ≡ Spec.item_read text.now line }
{
    let found = read_line(text, line)?;
    Ok(found.map(items::item_of))
}

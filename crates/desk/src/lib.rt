// What the program `judge` prints for what it reads: a sheet, the coach's lines, the items of a sheet, a refusal, or what is wrong with the input.
#![tactic(auto)]

ghost use Rattle.std.specs.Prelude.{◌≡◌, ◌+◌, ◌≤◌, [], Ok, length};
ghost use Rattle.text.specs.Pushed.{pushed};
ghost use Rattle.input.specs.Input.{most_places, numbers_for};
ghost use Rattle.reading.specs.Reading.{items_in, sheet_read};
ghost use Rattle.item_lines.specs.ItemLines.{item_line};
ghost use Rattle.desk.specs.Desk as Spec;

use call::SheetFor;
use columns::layout::WORDS;
use game::{Earlier, Situation};
use input::{FIRST_X, FIRST_Y, NUMBERS, PLACES};
use items::Item;
use reading::NoSheet;
use refusal::Refusal;
use text::Text;

// What was written, of so many bytes: an answer, a sheet, the coach's lines or those of items, or something else that is told, a refusal or what is wrong with the input.
#[derive(Clone, Copy)]
pub enum Reply {
    Answer(usize),
    Told(usize),
}

// What is wanted of a situation. An enum and no closure: each clause names by it what is answered and what is written, which a closure would have to state in clauses of its own.
#[derive(Clone, Copy)]
enum Wanted {
    Sheet(SheetFor),
    Sentences,
}

// Decides on a situation and writes what is wanted of it.
fn write_wanted(
    wanted: Wanted,
    s: Situation,
    earlier: Earlier<'_>,
    out: &mut [u8],
) -> Result<usize, Refusal>
    ensures value { result ≡ Spec.wanted_answer wanted s earlier.entry.xs.now earlier.entry.ys.now (length out.old) }
    ensures out_after { out.new ≡ Spec.wanted_after wanted s earlier.entry.xs.now earlier.entry.ys.now out.old }
{
    match wanted {
        Wanted::Sheet(to) => call::write_sheet(to, s, earlier, out),
        Wanted::Sentences => call::write_sentences(s, earlier, out),
    }
}

// The same, with the line of a refusal in its place.
fn judge_situation(wanted: Wanted, s: Situation, earlier: Earlier<'_>, out: &mut [u8]) -> Reply
    ensures value { result ≡ Spec.reply_in (Spec.situation_printed wanted s earlier.entry.xs.now earlier.entry.ys.now (length out.old)) out.old }
    ensures out_after { out.new ≡ Spec.printed_in (Spec.situation_printed wanted s earlier.entry.xs.now earlier.entry.ys.now (length out.old)) out.old }
{
    let answer = write_wanted(wanted, s, earlier, out);
    match answer {
        Err(refused) => Reply::Told(replies::refused_line(refusal::number_of(refused), out)),
        Ok(n) => Reply::Answer(n),
    }
}

// The same of a situation as numbers, of which nx are earlier x and ny earlier y.
fn judge_numbers(wanted: Wanted, numbers: &[u32], nx: usize, ny: usize, out: &mut [u8]) -> Reply
    requires { (nx ≤ most_places) × (ny ≤ most_places) × (numbers_for nx ny ≤ length numbers.now) }
    ensures value { result ≡ Spec.reply_in (Spec.numbers_printed wanted numbers.now nx ny (length out.old)) out.old }
    ensures out_after { out.new ≡ Spec.printed_in (Spec.numbers_printed wanted numbers.now nx ny (length out.old)) out.old }
{
    let mut xs = [0.0f32; PLACES];
    let mut ys = [0.0f32; PLACES];
    let from = FIRST_Y + nx;
    input::fill_places(&numbers[FIRST_X..FIRST_X + nx], &mut xs);
    input::fill_places(&numbers[from..from + ny], &mut ys);
    let s = words::situation_of(&numbers[..WORDS]);
    let earlier = Earlier {
        xs: &xs[..nx],
        ys: &ys[..ny],
    };
    judge_situation(wanted, s, earlier, out)
}

// Reads a situation from a text and writes what is printed for it.
fn judge_text(wanted: Wanted, text: &[u8], out: &mut [u8]) -> Reply
    ensures value { result ≡ Spec.reply_in (Spec.text_printed wanted text.now (length out.old)) out.old }
    ensures out_after { out.new ≡ Spec.printed_in (Spec.text_printed wanted text.now (length out.old)) out.old }
{
    let mut numbers = [0u32; NUMBERS];
    match input::read_input(text, &mut numbers) {
        Ok(lists) => judge_numbers(wanted, &numbers, lists.xs, lists.ys, out),
        Err(wrong) => Reply::Told(replies::fault_line(&numbers, wrong.place, wrong.fault, out)),
    }
}

// Reads a situation from a text and writes what is printed for it at the front of the lent bytes; the bytes after it are kept. Where these are too few for
// that, it is 0 bytes, and all of them are kept.
pub fn judge(text: &[u8], out: &mut [u8]) -> Reply
    ensures value { result ≡ Spec.reply_in (Spec.judged_printed text.now (length out.old)) out.old }
    ensures out_after { out.new ≡ Spec.printed_in (Spec.judged_printed text.now (length out.old)) out.old }
{
    judge_text(Wanted::Sheet(SheetFor::Desk), text, out)
}

// The same for the display.
pub fn display(text: &[u8], out: &mut [u8]) -> Reply
    ensures value { result ≡ Spec.reply_in (Spec.displayed_printed text.now (length out.old)) out.old }
    ensures out_after { out.new ≡ Spec.printed_in (Spec.displayed_printed text.now (length out.old)) out.old }
{
    judge_text(Wanted::Sheet(SheetFor::Display), text, out)
}

// The same for the coach's lines.
pub fn coach(text: &[u8], out: &mut [u8]) -> Reply
    ensures value { result ≡ Spec.reply_in (Spec.coached_printed text.now (length out.old)) out.old }
    ensures out_after { out.new ≡ Spec.printed_in (Spec.coached_printed text.now (length out.old)) out.old }
{
    judge_text(Wanted::Sentences, text, out)
}

// Room for the lines of the items of every sheet, at most 165 of at most 100 bytes.
const ITEMS: usize = 16500;

// Room for the line of every item.
const LINE: usize = 128;

// Puts the line of an item after other lines.
fn push_item(lines: &mut Text<ITEMS>, item: Item)
    ensures { lines.new ≡ pushed 16500 lines.old (item_line item) }
{
    let mut line = [0u8; LINE];
    let n = item_lines::item_line(item, &mut line);
    lines.push(replies::front(&line, n));
}

// The same of what is read of a line; of nothing, nothing.
fn push_found(lines: &mut Text<ITEMS>, found: Result<Option<Item>, NoSheet>)
    requires { length lines.old ≤ 16500 }
    ensures { lines.new ≡ pushed 16500 lines.old (Spec.found_line found) }
{
    match found {
        Err(_) => {}
        Ok(None) => {}
        Ok(Some(item)) => push_item(lines, item),
    }
}

// The same of all items of a sheet, of which there are so many. The text is lent, since handing it out by value copies its room.
fn push_items(lines: &mut Text<ITEMS>, text: &[u8], count: usize)
    requires empty { lines.old ≡ [] }
    requires counted { Ok count ≡ sheet_read text.now }
    ensures { lines.new ≡ Spec.item_lines (items_in text.now) }
{
    for i in 0..count {
        let found = reading::read_item(text, i + 1);
        push_found(lines, found);
    }
}

// Reads a sheet and writes a line for each of its items, or the line of a refusal, at the front of the lent bytes; the bytes after it are kept. Where these are too few for
// that, it is 0 bytes, and all of them are kept.
pub fn read(text: &[u8], out: &mut [u8]) -> Reply
    ensures value { result ≡ Spec.reply_in (Spec.read_printed text.now) out.old }
    ensures out_after { out.new ≡ Spec.printed_in (Spec.read_printed text.now) out.old }
{
    let answer = reading::read_sheet(text);
    match answer {
        Err(refusal) => Reply::Told(replies::refused_line(reading::number_of(refusal), out)),
        Ok(count) => {
            let mut lines = Text::<ITEMS>::new();
            push_items(&mut lines, text, count);
            Reply::Answer(replies::told(lines.as_bytes(), out))
        }
    }
}

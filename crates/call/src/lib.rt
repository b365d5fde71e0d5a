// The call: refuses a situation, or decides on it and writes the sheet, or the coach's lines.
#![tactic(auto)]

ghost use Rattle.std.specs.Prelude.{◌≡◌, length};
ghost use Rattle.refusal.specs.Refusal.{refusal_numbered};
ghost use Rattle.sheet.specs.Rows.{rows_of};
ghost use Rattle.coach.specs.Coach.{sentence_answer, sentence_after, sentences_answer, sentences_after};
ghost use Rattle.call.specs.Call as Spec;

use game::{Decision, Earlier, Side, Situation};
use refusal::Refusal;

// Whom a sheet is for: the desk, or the display in the corridor, which shows at most twelve lines under the header. The lines are the same.
#[derive(Clone, Copy)]
pub enum SheetFor {
    Desk,
    Display,
}

// The lines that the display shows under the header.
const SHOWN: usize = 12;

// Whether all lines of a decision are shown. A `match` of the readers that a caller names is plainer than a limit or a closure, by which each caller would hand in the twelve, or a test with a contract of its own.
fn all_shown(to: SheetFor, d: Decision) -> bool
    ensures { result ≡ Spec.shows to (length (rows_of d)) }
{
    match to {
        SheetFor::Desk => true,
        SheetFor::Display => sheet::lines_following(d) <= SHOWN,
    }
}

// Decides on a situation and writes its sheet at the front of the lent bytes, and answers how many bytes it has; the bytes after it are kept. A refusal, 1 to 5, then 12 and then 7, keeps them all.
pub fn write_sheet(
    to: SheetFor,
    s: Situation,
    earlier: Earlier<'_>,
    sheet: &mut [u8],
) -> Result<usize, Refusal>
    ensures value { result ≡ Spec.sheet_answer to s earlier.entry.xs.now earlier.entry.ys.now (length sheet.old) }
    ensures sheet_after { sheet.new ≡ Spec.sheet_after to s earlier.entry.xs.now earlier.entry.ys.now sheet.old }
{
    refusals::refusal(s, earlier)?;
    let d = decision::decision_of(s, earlier);
    if !all_shown(to, d) {
        return Err(Refusal::Display);
    }
    sheet::write_decision(d, sheet)
}

// The refusal with a number.
fn numbered(number: u8) -> Refusal
    ensures { result ≡ refusal_numbered number }
{
    match number {
        1 => Refusal::Field,
        2 => Refusal::Pose,
        3 => Refusal::Ball,
        4 => Refusal::Number,
        5 => Refusal::Distance,
        6 => Refusal::ListRoom,
        7 => Refusal::SheetRoom,
        8 => Refusal::TextRoom,
        _ => Refusal::Display,
    }
}

// Writes the coach's line on the player of a side with a number at the front of the lent text; the bytes after it are kept. Answers the line's length, 0 for a player that stands
// legally. A refusal, 1 to 5 and then 8, keeps every byte.
pub fn write_sentence(
    s: Situation,
    earlier: Earlier<'_>,
    side: Side,
    number: u32,
    text: &mut [u8],
) -> Result<usize, Refusal>
    ensures value { result ≡ sentence_answer s earlier.entry.xs.now earlier.entry.ys.now side number (length text.old) }
    ensures text_after { text.new ≡ sentence_after s earlier.entry.xs.now earlier.entry.ys.now side number text.old }
{
    let own = refusal::number_in(refusals::refusal(s, earlier));
    coach::write_sentence(own, s, side, number, text).map_err(numbered)
}

// Writes the coach's lines on all players of a situation that do not stand legally at the front of the lent bytes, in the order of the sheet, each with a line feed; the bytes
// after them are kept. A refusal, 1 to 5 and then 8, keeps them all.
pub fn write_sentences(
    s: Situation,
    earlier: Earlier<'_>,
    text: &mut [u8],
) -> Result<usize, Refusal>
    ensures value { result ≡ sentences_answer s earlier.entry.xs.now earlier.entry.ys.now (length text.old) }
    ensures text_after { text.new ≡ sentences_after s earlier.entry.xs.now earlier.entry.ys.now text.old }
{
    let own = refusal::number_in(refusals::refusal(s, earlier));
    coach::write_sentences(own, s, text).map_err(numbered)
}

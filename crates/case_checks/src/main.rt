// Compares document 01's cases, the coach's lines, inputs that are no situation, and texts that may be sheets, with what the code gives. The list of standard input has the form of the crate `records`, and
// README.md says what its records are. Writes a line for each record that does not agree, and last how many agree of how many.
#![tactic(auto)]

mod sheets;

ghost use Rattle.std.specs.Prelude.{◌≤◌, length};

use call::SheetFor;
use records::{Record, Tally};
use sheets::Asked;
use std::io;

// Room for the list.
const ROOM: usize = 458752;

// More records than the list has.
const MOST: u32 = 10000;

// Whether a record of the list agrees.
fn agrees(list: &[u8], r: Record) -> bool
    requires { (r.input ≤ r.answer) × (r.answer ≤ r.next) × (r.next ≤ length list.now) }
{
    let from = r.input;
    let middle = r.answer;
    let end = r.next;
    let input = &list[from..middle];
    let answer = &list[middle..end];
    let kind = r.kind;
    match kind {
        1..=8 => sheets::judged(kind, input, r.lent, answer),
        10..=17 => sheets::called(
            Asked::Sheet(SheetFor::Desk),
            input,
            r.lent,
            kind - 10,
            answer,
        ),
        20..=28 => sheets::called(Asked::Sentence, input, r.lent, kind - 20, answer),
        30..=42 => sheets::called(
            Asked::Sheet(SheetFor::Display),
            input,
            r.lent,
            kind - 30,
            answer,
        ),
        _ => false,
    }
}

// Counts a record. Where it does not agree, that is written.
fn counted(rt: &impl Print, tally: Tally, same: bool) -> io::Result<Tally> {
    let tally = tally.counted(same);
    if !same {
        println!(rt; "record {} differs", tally.records)?;
    }
    Ok(tally)
}

// All records, up to the end of the list or the first broken one, after which it is not known where the next begins.
fn compared(rt: &impl Print, list: &[u8]) -> io::Result<Tally> {
    let mut tally = Tally {
        agree: 0,
        records: 0,
    };
    let mut at = 0;
    for _ in 0..MOST {
        if at == list.len() {
            return Ok(tally);
        }
        let Some(r) = records::record_at(list, at) else {
            print!(rt; "broken: ")?;
            return counted(rt, tally, false);
        };
        tally = counted(rt, tally, agrees(list, r))?;
        at = r.next;
    }
    Ok(tally)
}

fn main(rt: HostRuntime) -> io::Result<()> {
    let mut list = [0u8; ROOM];
    let n = intake::read_text(&mut rt.stdin(), &mut list)?;
    let tally = compared(&rt, &list[..n])?;
    println!(rt; "{} of {} agree", tally.agree, tally.records)
}

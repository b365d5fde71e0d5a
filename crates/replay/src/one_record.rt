// Reads one record and compares its answer.
ghost use Rattle.std.specs.Prelude.{◌≤◌, length};

use super::{queries, sheets};
use records::Record;
use std::io;
use std::io::Read;

// What becomes of a record: the answer is the same or another, or it is not in the form of a record.
#[derive(Clone, Copy, PartialEq, Eq)]
pub(crate) enum Outcome {
    Agrees,
    Differs,
    Broken,
}

// Compares an answer, by the kind of its record.
fn compared(kind: u32, lent: usize, input: &[u8], answer: &[u8]) -> Outcome {
    let same = match kind {
        1 => sheets::agrees(input, lent, answer),
        2 => queries::agrees(input, lent, answer),
        _ => return Outcome::Broken,
    };
    if same {
        return Outcome::Agrees;
    }
    Outcome::Differs
}

// The rest of a record after its head, read to its place in the buffer.
fn rest<R: Read>(input: &mut R, buffer: &mut [u8], r: Record) -> io::Result<Outcome>
    requires { (r.input ≤ r.answer) × (r.answer ≤ r.next) × (r.next ≤ length buffer.old) }
{
    let from = r.input;
    let answer = r.answer;
    let next = r.next;
    let n = intake::read_text(input, &mut buffer[from..next])?;
    if n < next - from {
        return Ok(Outcome::Broken);
    }
    Ok(compared(r.kind, r.lent, &buffer[from..answer], &buffer[answer..next]))
}

// The next record of the input, if there is one. Its head tells where in the buffer the rest goes.
pub(crate) fn next<R: Read>(input: &mut R, buffer: &mut [u8]) -> io::Result<Option<Outcome>> {
    if buffer.len() < 45 {
        return Ok(Some(Outcome::Broken));
    }
    let n = intake::read_text(input, &mut buffer[..45])?;
    if n == 0 {
        return Ok(None);
    }
    if n < 45 {
        return Ok(Some(Outcome::Broken));
    }
    let outcome = match records::record_at(buffer, 0) {
        Some(r) => rest(input, buffer, r)?,
        None => Outcome::Broken,
    };
    Ok(Some(outcome))
}

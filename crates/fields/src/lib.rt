// Lines of the sheet, read back from a text: four decimal numbers, each right-justified with blanks in 11 columns, then a line feed.
#![tactic(auto)]

ghost use Rattle.std.specs.Prelude.{◌≡◌, ◌+◌, ◌≤◌, length, take, drop};
ghost use Rattle.std.proofs.Math.Seq.{slice};
ghost use Rattle.fields.specs.Fields as Spec;

use lines::Row;

// How many blanks there are at the front of the 11 columns from a place on. By places in the whole text, as `digits` too: with `position` and a `for` over the bytes of a slice of it
// the reading of a sheet took a third longer.
fn blanks(text: &[u8], at: usize) -> usize
    requires { at + 11 ≤ length text.now }
    ensures { result ≡ Spec.blanks_in (take 11 (drop at text.now)) }
{
    for n in 0..11 {
        let is_blank = text[at + n] == 32;
        if !is_blank {
            return n;
        }
    }
    11
}

// The number that the digits from one place to another are.
fn digits(text: &[u8], from: usize, end: usize) -> Option<u32>
    requires { (from ≤ end) × (end ≤ from + 11) × (end ≤ length text.now) }
    ensures { result ≡ Spec.digits_from 0 (slice from end text.now) }
{
    let mut v: u64 = 0;
    for i in from..end {
        let b = text[i];
        let is_digit = (b >= 48) & (b <= 57);
        if !is_digit {
            return None;
        }
        v = 10 * v + (b - 48) as u64;
        let too_large = v > 4294967295;
        if too_large {
            return None;
        }
    }
    Some(v as u32)
}

// The number in the 11 columns from a place on.
fn value_at(text: &[u8], at: usize) -> Option<u32>
    requires { at + 11 ≤ length text.now }
    ensures { result ≡ Spec.value_in (take 11 (drop at text.now)) }
{
    let n = blanks(text, at);
    if n > 10 {
        return None;
    }
    let first = at + n;
    let leads = (n < 10) & (text[first] == 48);
    if leads {
        return None;
    }
    digits(text, first, at + 11)
}

// The line i of a text, from 0; none past the last, and none for bytes that are no line.
pub fn line_at(text: &[u8], i: usize) -> Option<Row>
    ensures { result ≡ Spec.line_read (Spec.line_at text.now i) }
{
    if i >= text.len() / 45 {
        return None;
    }
    let at = 45 * i;
    let kind = value_at(text, at)?;
    let side = value_at(text, at + 11)?;
    let number = value_at(text, at + 22)?;
    let value = value_at(text, at + 33)?;
    let is_ended = text[at + 44] == b'\n';
    if !is_ended {
        return None;
    }
    Some(Row {
        kind,
        side,
        number,
        value,
    })
}

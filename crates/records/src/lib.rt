// Lists of records, each with an input and the answer that it should have, the comparison of an answer with lent bytes, and how many agree.
//
// A record is a head, an input and an answer, one after the other. The head is a line of 45 bytes: four decimal numbers, each right-justified with blanks in 11
// columns, and a line feed. They are the record's kind, the room that is lent, the number of bytes of the input and that of the answer.
#![tactic(auto)]

ghost use Rattle.std.specs.Prelude.{◌≡◌, ◌≤◌, length, get_or};
ghost use Rattle.records.specs.Records as Spec;

use std::num::wrapping_add_u64;

// A record: its kind, the room that is lent, and the places of the list where its input, its answer and what comes after it begin.
#[derive(Clone, Copy)]
pub struct Record {
    pub kind: u32,
    pub lent: usize,
    pub input: usize,
    pub answer: usize,
    pub next: usize,
}

// The record of a head whose input begins at this place, in a list of so many bytes, if they are enough.
fn framed(size: usize, input: usize, head: &[u32; 4]) -> Option<Record>
    requires { input ≤ size }
    ensures { result ≡ Spec.framed size input head.now }
{
    let n = head[2] as usize;
    let m = head[3] as usize;
    if size - input < n + m {
        return None;
    }
    Some(Record {
        kind: head[0],
        lent: head[1] as usize,
        input,
        answer: input + n,
        next: input + (n + m),
    })
}

// The record at a place of a list, if a whole one stands there.
pub fn record_at(list: &[u8], at: usize) -> Option<Record>
    ensures { result ≡ Spec.record_at list.now at }
{
    if list.len() <= at {
        return None;
    }
    if list.len() - at < 45 {
        return None;
    }
    let end = at + 45;
    let mut head = [0u32; 4];
    let Ok(n) = numbers::read_numbers(&list[at..end], &mut head) else {
        return None;
    };
    if (n == 4) & (list[at + 44] == b'\n') {
        return framed(list.len(), end, &head);
    }
    None
}

// The byte at a place of a text; after its end, the one that was lent.
fn byte_at(text: &[u8], i: usize, fill: u8) -> u8
    ensures { result ≡ get_or text.now i fill }
{
    text.get(i).copied().unwrap_or(fill)
}

// Whether the bytes begin with this text, and go on as they were lent, each of them `fill`.
pub fn holds(bytes: &[u8], text: &[u8], fill: u8) -> bool
    ensures { result ≡ Spec.holds text.now fill bytes.now }
{
    bytes
        .iter()
        .enumerate()
        .all(|(i, byte)| *byte == byte_at(text, i, fill))
}

// Whether a call that answers so many bytes wrote just this text into bytes that were lent with `fill` in each.
pub fn is_written(n: usize, bytes: &[u8], text: &[u8], fill: u8) -> bool
    ensures { result ≡ Spec.is_written n text.now fill bytes.now }
{
    let kept = holds(bytes, text, fill);
    (n == text.len()) & kept
}

// How many records agree, of how many. The sums wrap, so that no bound on them has to be shown.
#[derive(Clone, Copy)]
pub struct Tally {
    pub agree: u64,
    pub records: u64,
}

impl Tally {
    // One record more, which agrees or does not.
    #[tactic(auto, unfolding(crate::specs::Records::counted))]
    pub fn counted(self, agrees: bool) -> Tally
        ensures { result ≡ Spec.counted self agrees }
    {
        let records = wrapping_add_u64(self.records, 1);
        if agrees {
            let agree = wrapping_add_u64(self.agree, 1);
            return Tally { agree, records };
        }
        Tally {
            agree: self.agree,
            records,
        }
    }
}

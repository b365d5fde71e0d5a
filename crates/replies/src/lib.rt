// Lines of text as answers, each written at the front of lent bytes: a refusal, or at which number of an input something is wrong and what.
#![tactic(auto)]

mod names;

ghost use Rattle.std.specs.Prelude.{◌≡◌, ◌<◌, take, get_or};
ghost use Rattle.columns.specs.Layout.{word_count};
ghost use Rattle.text.specs.Pushed.{pushed};
ghost use Rattle.replies.specs.Texts.{text_at};
ghost use Rattle.replies.specs.Replies as Spec;

use columns::layout::WORDS;
use input::Fault;
use text::Text;

// Room for every line, each of which is made whole before it is known whether it fits.
const LINE: usize = 256;

// Puts one of the texts of the names after a line; of one that there is not, nothing.
fn push_text(line: &mut Text<LINE>, j: usize)
    ensures { line.new ≡ pushed 256 line.old (text_at j) }
{
    if j < names::TEXTS {
        let bytes = names::BYTES;
        let starts = names::STARTS;
        let from = starts[j];
        let end = starts[j + 1];
        line.push(&bytes[from..end]);
    } else {
        line.push(b"");
    }
}

// The same of what a word is called: whose it is, and its name.
fn push_label(line: &mut Text<LINE>, i: usize)
    requires { i < word_count }
    ensures { line.new ≡ pushed 256 line.old (Spec.label_of i) }
{
    let owners = names::OWNERS;
    let called = names::NAMES;
    push_text(line, owners[i]);
    push_text(line, called[i]);
}

// The same of where the number i stands, if there are nx earlier x.
fn push_place(line: &mut Text<LINE>, nx: u32, i: usize)
    ensures { line.new ≡ pushed 256 line.old (Spec.place_at nx i) }
{
    let last = WORDS + nx as usize;
    if i < WORDS {
        line.push(b"word ");
        line.push_number(i as u64);
        line.push(b" (");
        push_label(line, i);
        line.push(b")");
    } else if i == WORDS {
        line.push(b"number of earlier x");
    } else if i <= last {
        line.push(b"earlier x ");
        line.push_number((i - WORDS) as u64);
    } else if i == last + 1 {
        line.push(b"number of earlier y");
    } else {
        line.push(b"earlier y ");
        line.push_number((i - (last + 1)) as u64);
    }
}

// The same of what is wrong with a number.
fn push_fault(line: &mut Text<LINE>, fault: Fault, number: u32)
    ensures { line.new ≡ pushed 256 line.old (Spec.fault_text fault number) }
{
    match fault {
        Fault::NotANumber => line.push(
            b"not a number from 0 to 4294967295; a float is written as its bit pattern",
        ),
        Fault::TooLarge => line.push(b"greater than 4294967295"),
        Fault::Outside => {
            line.push_number(number as u64);
            line.push(b" is none of its values");
        }
        Fault::LongList => {
            line.push_number(number as u64);
            line.push(b" is more than 4097");
        }
        Fault::Missing => line.push(b"missing"),
        Fault::Extra => line.push(b"more than the situation has"),
    }
}

// A number of an input; 0 where it is not there.
fn number_at(numbers: &[u32], i: usize) -> u32
    ensures { result ≡ get_or numbers.now i 0 }
{
    numbers.get(i).copied().unwrap_or(0)
}

// Writes a text where the lent bytes have room for it, and answers how many bytes it wrote. An Option is no plainer: every caller wants 0 bytes
// where there is no room.
pub fn told(text: &[u8], out: &mut [u8]) -> usize
    ensures value { result ≡ Spec.written_in text.now out.old }
    ensures out_after { out.new ≡ Spec.line_in text.now out.old }
{
    let n = text.len();
    let too_few = out.len() < n;
    if too_few {
        return 0;
    }
    out[..n].copy_from_slice(text);
    n
}

// "word 15 (sides): 2 is none of its values", then a line feed: where the number i of an input stands, counted from 0, and what is wrong with it. Answers as
// `told` does.
pub fn fault_line(numbers: &[u32], i: usize, fault: Fault, out: &mut [u8]) -> usize
    ensures value { result ≡ Spec.written_in (Spec.fault_line numbers.now i fault) out.old }
    ensures out_after { out.new ≡ Spec.line_in (Spec.fault_line numbers.now i fault) out.old }
{
    let mut line = Text::<LINE>::new();
    let nx = number_at(numbers, WORDS);
    let number = number_at(numbers, i);
    push_place(&mut line, nx, i);
    line.push(b": ");
    push_fault(&mut line, fault, number);
    line.push(b"\n");
    told(line.as_bytes(), out)
}

// "refused 5", then a line feed; the answer is that of `told`. The refusal stays a number, which is printed: callers have enums of several crates, and an enum
// here would be narrower.
pub fn refused_line(refusal: u8, out: &mut [u8]) -> usize
    ensures value { result ≡ Spec.written_in (Spec.refused_line refusal) out.old }
    ensures out_after { out.new ≡ Spec.line_in (Spec.refused_line refusal) out.old }
{
    let mut reply = Text::<LINE>::new();
    reply.push(b"refused ");
    reply.push_number(refusal as u64);
    reply.push(b"\n");
    told(reply.as_bytes(), out)
}

// The first n bytes of a text, all of it where it has fewer.
pub fn front(text: &[u8], n: usize) -> &[u8]
    ensures { result.now ≡ take n text.now }
{
    if n < text.len() {
        return &text[..n];
    }
    text
}

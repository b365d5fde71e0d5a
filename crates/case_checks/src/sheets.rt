// What records have: a text that the program `judge` reads, or words for the library's calls.
use call::SheetFor;
use columns::layout::WORDS;
use desk::Reply;
use game::Earlier;
use input::PLACES;
use refusal::Refusal;

// What each lent byte holds before a call; no text here has it.
const FILL: u8 = 170;

// More bytes than a record lends.
const MOST: usize = 7680;

// What the numbers of an input for a sheet are after the words: how many earlier x and y there are, and the pattern of each of these.
const XS: usize = WORDS;

const YS: usize = WORDS + 1;

const PLACE: usize = WORDS + 2;

const SHEET_NUMBERS: usize = WORDS + 3;

// For a coach's line the side and the number of a player come after them.
const SIDE: usize = SHEET_NUMBERS;

const NUMBER: usize = SHEET_NUMBERS + 1;

const NUMBERS: usize = SHEET_NUMBERS + 2;

// The library's calls: for a sheet, and for a coach's line. An enum and no closure, since a call also says how many numbers its input has.
#[derive(Clone, Copy)]
pub(crate) enum Asked {
    Sheet(SheetFor),
    Sentence,
}

// What `judge` prints for a text, where the kind is at most 2, or `judge coach`, where it is at most 4, or `judge read`, where it is at most 6, or `judge display`.
// Chosen by the kind and not handed in as a function, since `judged` needs the kind too.
fn replied(kind: u32, text: &[u8], out: &mut [u8]) -> Reply {
    match kind {
        0..=2 => desk::judge(text, out),
        3..=4 => desk::coach(text, out),
        5..=6 => desk::read(text, out),
        _ => desk::display(text, out),
    }
}

// Whether this is told for the input, with so many bytes lent, where the kind is odd, or answered where it is even, and all other bytes are kept.
// `replay` has two arms of a reply too: a function for both would be the same `match`, handed one test more, in a crate above `desk`.
pub(crate) fn judged(kind: u32, input: &[u8], lent: usize, answer: &[u8]) -> bool {
    if MOST < lent {
        return false;
    }
    let mut bytes = [FILL; MOST];
    let reply = replied(kind, input, &mut bytes[..lent]);
    match reply {
        Reply::Answer(n) => records::is_written(n, &bytes, answer, FILL) & (kind % 2 == 0),
        Reply::Told(n) => records::is_written(n, &bytes, answer, FILL) & (kind % 2 == 1),
    }
}

// Whether the answer is this refusal, or, where it is 0, a text of so many bytes.
fn is_answer(answer: Result<usize, Refusal>, refusal: u32, size: usize) -> bool {
    match answer {
        Err(refused) => refusal::number_of(refused) as u32 == refusal,
        Ok(n) => (n == size) & (refusal == 0),
    }
}

// The call for these numbers.
fn written(
    asked: Asked,
    numbers: &[u32; NUMBERS],
    earlier: Earlier<'_>,
    out: &mut [u8],
) -> Result<usize, Refusal> {
    let s = words::situation_of(numbers);
    match asked {
        Asked::Sheet(to) => call::write_sheet(to, s, earlier, out),
        Asked::Sentence => {
            let side = words::side_of(numbers[SIDE]);
            call::write_sentence(s, earlier, side, numbers[NUMBER], out)
        }
    }
}

// How many numbers the input of a call has.
fn size_of(asked: Asked) -> usize {
    match asked {
        Asked::Sheet(_) => SHEET_NUMBERS,
        Asked::Sentence => NUMBERS,
    }
}

// The same on the front of the bytes, where there are so many.
fn call(
    asked: Asked,
    numbers: &[u32; NUMBERS],
    bytes: &mut [u8],
    lent: usize,
) -> Option<Result<usize, Refusal>> {
    let place = floats::from_bits(numbers[PLACE]);
    let xs = [place; PLACES];
    let ys = [place; PLACES];
    let nx = (numbers[XS] as usize).min(PLACES);
    let ny = (numbers[YS] as usize).min(PLACES);
    if lent <= bytes.len() {
        let earlier = Earlier {
            xs: &xs[..nx],
            ys: &ys[..ny],
        };
        return Some(written(asked, numbers, earlier, &mut bytes[..lent]));
    }
    None
}

// Whether the call for the numbers of the input gives this refusal, or, where it is 0, this text, and all other bytes are kept.
pub(crate) fn called(asked: Asked, input: &[u8], lent: usize, refusal: u32, text: &[u8]) -> bool {
    let mut numbers = [0u32; NUMBERS];
    let Ok(n) = numbers::read_numbers(input, &mut numbers) else {
        return false;
    };
    let mut bytes = [FILL; MOST];
    let Some(answer) = call(asked, &numbers, &mut bytes, lent) else {
        return false;
    };
    let right = is_answer(answer, refusal, text.len());
    let kept = records::holds(&bytes, text, FILL);
    right & kept & (n == size_of(asked))
}

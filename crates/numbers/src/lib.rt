// Decimal numbers from a text, separated by blanks, tabs, line feeds or carriage returns.
#![tactic(auto)]

ghost use Rattle.std.specs.Prelude.{◌≡◌, ◌<◌, ◌≤◌};
ghost use Rattle.numbers.specs.Numbers as Spec;
ghost use Rattle.numbers.specs.Walk as Walk;

// The first field of a text that is no number, counted from 0: it has a byte that is no digit, or its value is 2^32 or more.
#[derive(Clone, Copy, PartialEq, Eq)]
pub enum Unread {
    NotANumber(usize),
    TooLarge(usize),
}

// What stands for every value that is too large. A number in place of None: with an Option of a u32 the texts of situations were read in 1.4 times the instructions.
const TOO_LARGE: u64 = 4294967296;

// A value with one digit more.
fn with_digit(value: u64, digit: u8) -> u64
    requires { value ≤ 4294967296 }
    ensures { result ≡ Walk.with_digit value digit }
{
    (10 * value + digit as u64).min(TOO_LARGE)
}

// What is known after some bytes. Outside of a field, and wherever there was a fault: what `read_numbers` answers for them.
// In a field of digits: how many numbers come before it, and its value so far.
#[derive(Clone, Copy)]
enum Progress {
    Closed(Result<usize, Unread>),
    Open(usize, u64),
}

// Ends the open field, if there is one: a number is stored, if the list has a place for it.
fn end_field(progress: Progress, numbers: &mut [u32]) -> Result<usize, Unread>
    requires { Walk.begun progress ≤ 18446744073709551615 }
    ensures value { result ≡ Walk.ended progress }
    ensures numbers_after { numbers.new ≡ Walk.stored_at_end progress numbers.old }
{
    match progress {
        Progress::Closed(reading) => reading,
        Progress::Open(n, v) => {
            if v > 4294967295 {
                return Err(Unread::TooLarge(n));
            }
            if n < numbers.len() {
                numbers[n] = v as u32;
            }
            Ok(n + 1)
        }
    }
}

// One byte on. After a fault nothing changes.
fn after_byte(progress: Progress, b: u8, numbers: &mut [u32]) -> Progress
    requires { (Walk.begun progress < 18446744073709551615) × (Walk.open_value progress ≤ 4294967296) }
    ensures value { result ≡ Walk.after_byte (Walk.kind_of b) progress }
    ensures numbers_after { numbers.new ≡ Walk.stored_by_byte (Walk.kind_of b) progress numbers.old }
{
    if (b == b' ') | (b == b'\t') | (b == b'\n') | (b == b'\r') {
        return Progress::Closed(end_field(progress, numbers));
    }
    let is_digit = b.is_ascii_digit();
    match progress {
        Progress::Closed(reading) => match reading {
            Ok(n) => {
                if is_digit {
                    return Progress::Open(n, (b - b'0') as u64);
                }
                Progress::Closed(Err(Unread::NotANumber(n)))
            }
            Err(_) => progress,
        },
        Progress::Open(n, value) => {
            if is_digit {
                return Progress::Open(n, with_digit(value, b - b'0'));
            }
            Progress::Closed(Err(Unread::NotANumber(n)))
        }
    }
}

// The numbers of the text at the front of the lent list, as many as it has room for, and how many it has; or its first field that is no number, with the numbers before it
// in the list.
pub fn read_numbers(text: &[u8], numbers: &mut [u32]) -> Result<usize, Unread>
    ensures value { result ≡ Spec.reading_of text.now }
    ensures numbers_after { numbers.new ≡ Spec.stored (Spec.numbers_of text.now) numbers.old }
{
    let mut progress = Progress::Closed(Ok(0));
    for b in text {
        progress = after_byte(progress, *b, numbers);
    }
    end_field(progress, numbers)
}

// A situation from a text of decimal numbers: its words, then the number of earlier x and their patterns, then the number of earlier y and theirs.
#![tactic(auto)]

ghost use Rattle.std.specs.Prelude.{◌≡◌, ◌<◌, ◌≤◌, ⊤, MatchResult, min, length, take};
ghost use Rattle.columns.specs.Layout.{word_count};
ghost use Rattle.columns.specs.Columns.{words_within};
ghost use Rattle.numbers.specs.Numbers.{numbers_of, stored};
ghost use Rattle.input.specs.Input as Spec;

use columns::layout::WORDS;
use numbers::Unread;

// What is wrong with a number of an input.
#[derive(Clone, Copy, PartialEq, Eq)]
pub enum Fault {
    // Its field has a byte that is no digit, or is of 2^32 or more.
    NotANumber,
    TooLarge,
    // It is a word and none of its column's values.
    Outside,
    // It is the number of a list and more than PLACES.
    LongList,
    // It is the first that is not there, or the first that is too many.
    Missing,
    Extra,
}

// How many earlier x and earlier y an input has.
#[derive(Clone, Copy)]
pub struct Lists {
    pub xs: usize,
    pub ys: usize,
}

// The number, counted from 0, with which something is wrong, and what.
#[derive(Clone, Copy)]
pub struct Wrong {
    pub place: usize,
    pub fault: Fault,
}

// The most earlier places of a list.
pub const PLACES: usize = 4097;

// The place of the first earlier x, after the words and the number of earlier x, and of the first earlier y where there are no earlier x.
pub const FIRST_X: usize = WORDS + 1;

pub const FIRST_Y: usize = WORDS + 2;

// The most numbers that an input has: the words, two counts and two lists.
pub const NUMBERS: usize = FIRST_Y + 2 * PLACES;

impl From<Unread> for Wrong {
    ghost from_gives = { λ unread wrong. wrong ≡ Spec.wrong_of unread };

    fn from(unread: Unread) -> Self {
        match unread {
            Unread::NotANumber(place) => wrong_at(place, Fault::NotANumber),
            Unread::TooLarge(place) => wrong_at(place, Fault::TooLarge),
        }
    }
}

fn wrong_at(place: usize, fault: Fault) -> Wrong
    ensures { result ≡ record { place = place; fault = fault } }
{
    Wrong { place, fault }
}

// How long a list is, by the number at a place, which is to be one of the n.
fn list_length(numbers: &[u32], n: usize, at: usize) -> Result<usize, Wrong>
    requires { at < length numbers.now }
    ensures value { result ≡ Spec.with_list numbers.now n at Ok }
    ensures few { MatchResult result (λ k. k ≤ Spec.most_places) (λ _. ⊤) }
{
    if n <= at {
        return Err(wrong_at(n, Fault::Missing));
    }
    let count = numbers[at] as usize;
    if PLACES < count {
        return Err(wrong_at(at, Fault::LongList));
    }
    Ok(count)
}

// The answer for n numbers: those of the words that are there must be within their columns, the number after the words is that of the earlier x, and the one after these
// that of the earlier y.
fn laid_out(numbers: &[u32], n: usize) -> Result<Lists, Wrong>
    requires { length numbers.now ≡ Spec.most_numbers }
    ensures { result ≡ Spec.with_words numbers.now n (words_within (take (min n word_count) numbers.now)) }
{
    let there = n.min(WORDS);
    let w = columns::words_within(&numbers[..there]);
    if w < there {
        return Err(wrong_at(w, Fault::Outside));
    }
    let xs = list_length(numbers, n, WORDS)?;
    let ys = list_length(numbers, n, FIRST_X + xs)?;
    let all = FIRST_Y + xs + ys;
    if n < all {
        return Err(wrong_at(n, Fault::Missing));
    }
    if all < n {
        return Err(wrong_at(all, Fault::Extra));
    }
    Ok(Lists { xs, ys })
}

// Reads the text's numbers into the lent array, as many as it has room for, and answers for them all. Of a text with a fault that is no number, those before it are stored.
#[tactic(auto, unfolding(crate::specs::Input::input_of))]
pub fn read_input(text: &[u8], numbers: &mut [u32; NUMBERS]) -> Result<Lists, Wrong>
    ensures value { result ≡ Spec.input_of text.now }
    ensures numbers_after { numbers.new ≡ stored (numbers_of text.now) numbers.old }
{
    let n = numbers::read_numbers(text, numbers)?;
    laid_out(numbers, n)
}

// Puts the floats of the patterns at the places' front, as many as both have.
pub fn fill_places(patterns: &[u32], places: &mut [f32])
    ensures { places.new ≡ Spec.places_in patterns.now places.old }
{
    let n = patterns.len().min(places.len());
    for k in 0..n {
        places[k] = floats::from_bits(patterns[k]);
    }
}

// Four floats and the candidates for them, or the refusal.
use floats::{bits, from_bits};
use tries::Span;

// What each lent place holds before a call; no candidate between bounds has it.
const FILL: f32 = 1000.0;

// Document 01's number of places that always do.
const MOST: usize = 8200;

// The pattern at a place of a list; after its end a place is as it was lent.
fn pattern_at(patterns: &[u32], i: usize) -> u32 {
    patterns.get(i).copied().unwrap_or(bits(FILL))
}

// Whether the list begins with these patterns, and goes on as it was lent. Of a NaN only that it is one is compared: `bits` gives every NaN one pattern.
fn holds(list: &[f32], patterns: &[u32]) -> bool {
    list.iter().enumerate().all(|(i, x)| bits(*x) == bits(from_bits(pattern_at(patterns, i))))
}

// Whether the call gives these candidates and this refusal, 0 for none, and all other places are kept.
fn gives(span: Span, lent: usize, patterns: &[u32], refusal: u32) -> bool {
    if MOST < lent {
        return false;
    }
    let mut list = [FILL; MOST];
    let count = candidates::fill_candidates(span, &mut list[..lent]);
    let kept = holds(&list, patterns);
    let told = refusal::number_in(candidates::candidates_refusal(span, lent));
    kept & (count == patterns.len()) & (told as u32 == refusal)
}

// The same of the first n numbers of an answer: the number of candidates and their patterns, or 0 and the refusal.
fn answered(span: Span, lent: usize, answer: &[u32], n: usize) -> bool {
    if n < 2 {
        return false;
    }
    if answer.len() < n {
        return false;
    }
    if answer[0] == 0 {
        let refused = gives(span, lent, &answer[..0], answer[1]);
        return refused & (n == 2) & (answer[1] != 0);
    }
    let given = gives(span, lent, &answer[1..n], 0);
    given & (n - 1 == answer[0] as usize)
}

// Whether the floats of the input, with so many places lent, have this answer. A text in which something is no number counts as one with none.
pub(crate) fn agrees(input: &[u8], lent: usize, answer: &[u8]) -> bool {
    let mut patterns = [0u32; 4];
    let given = numbers::read_numbers(input, &mut patterns).unwrap_or(0);
    let mut wanted = [0u32; 8201];
    let n = numbers::read_numbers(answer, &mut wanted).unwrap_or(0);
    let span = Span {
        start: from_bits(patterns[0]),
        min: from_bits(patterns[1]),
        max: from_bits(patterns[2]),
        step: from_bits(patterns[3]),
    };
    let same = answered(span, lent, &wanted, n);
    same & (given == 4)
}

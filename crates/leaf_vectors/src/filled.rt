// What the functions of `candidates` give at a vector. Its operands are the patterns of start, min, max and step, how many places are lent, and a place.
use super::at;
use floats::{bits, from_bits};
use tries::Span;

// What each place holds before a call.
const FILL: f32 = 7.0;

// How many places there are; a vector lends at most these.
const MOST: usize = 16;

// The pattern of the float at a place of a list; after its end a place is as it was lent.
fn bits_at(list: &[f32], i: usize) -> u32 {
    bits(list.get(i).copied().unwrap_or(FILL))
}

// How many candidates are filled into the front of the list, of which so many places are lent; 0 where there are not so many.
// No Option: one caller prints this number, the other looks only at the list.
fn fill(span: Span, list: &mut [f32], lent: usize) -> usize {
    if lent <= list.len() {
        return candidates::fill_candidates(span, &mut list[..lent]);
    }
    0
}

// How many places the part has that is answered for the whole list.
fn answered(span: Span, list: &mut [f32]) -> usize {
    let part = candidates::penalty_placement_candidates(span, list);
    part.len()
}

pub(crate) fn value(function: u32, vector: &[u32]) -> u32 {
    let span = Span {
        start: from_bits(at(vector, 1)),
        min: from_bits(at(vector, 2)),
        max: from_bits(at(vector, 3)),
        step: from_bits(at(vector, 4)),
    };
    let lent = at(vector, 5) as usize;
    let i = at(vector, 6) as usize;
    let mut list = [FILL; MOST];
    match function {
        13 => (fill(span, &mut list, lent) % 65536) as u32,
        14 => refusal::number_in(candidates::candidates_refusal(span, lent)) as u32,
        // A place of the list after 13.
        15 => {
            fill(span, &mut list, lent);
            bits_at(&list, i)
        }
        16 => (answered(span, &mut list) % 65536) as u32,
        // A place of the part that 16 counts.
        17 => {
            let part = candidates::penalty_placement_candidates(span, &mut list);
            bits_at(part, i)
        }
        // A place of the whole list after 16, in the part or behind it.
        _ => {
            answered(span, &mut list);
            bits_at(&list, i)
        }
    }
}

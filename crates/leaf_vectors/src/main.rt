// Compares the functions of `floats` and `candidates` with the vectors of standard input, which tools/leaf-vectors/make.py writes: README.md there has their
// form. Writes a line for each vector that does not agree, and last how many agree of how many.
#![tactic(auto)]

mod decimals;
mod filled;

use floats::{bits, from_bits};
use records::Tally;
use std::cmp::Ordering;
use std::io;

// The numbers of a vector: its function's, six operands and what is expected.
const WIDTH: usize = 8;

// Room for the text of the vectors.
const ROOM: usize = 65536;

// Room for the numbers of 1,536 vectors.
const MOST: usize = 12288;

// What stands for the answer of a number that is no function's. No function gives it: `bits` has another pattern for a NaN.
// No Option: the one caller compares it with the number that is expected, and prints it as a number.
const NOTHING: u32 = 0xffff_ffff;

// The number at a place of a vector, and 0 past its end.
fn at(vector: &[u32], k: usize) -> u32 {
    vector.get(k).copied().unwrap_or(0)
}

// The number that is written in decimal at a place, and past the last a NaN.
fn number(k: u32) -> f32 {
    let numbers: &[f32] = &decimals::NUMBERS;
    numbers.get(k as usize).copied().unwrap_or(0.0 / 0.0)
}

// What a vector's function gives at its operands.
fn value(vector: &[u32]) -> u32 {
    let function = at(vector, 0);
    let a = at(vector, 1);
    let x = from_bits(a);
    let y = from_bits(at(vector, 2));
    let z = from_bits(at(vector, 3));
    match function {
        1 => if floats::is_nan(x) { 1 } else { 0 },
        2 => bits(number(a)),
        3 => bits(x),
        4 => bits(floats::abs(x)),
        5 => bits(floats::copysign(x, y)),
        6 => bits(floats::min(x, y)),
        7 => bits(floats::max(x, y)),
        8 => bits(floats::clamp(x, y, z)),
        9 => {
            let order = floats::total_cmp(x, y);
            match order {
                Ordering::Less => 0,
                Ordering::Equal => 1,
                Ordering::Greater => 2,
            }
        }
        10 => bits(floats::rem_euclid(x, y)),
        11 => bits(hypot::hypot(x, y)),
        12 => bits(floats::from_count((a % 65536) as u16)),
        13..=18 => filled::value(function, vector),
        _ => NOTHING,
    }
}

// Counts a vector. Where its function does not give what is expected, that is written, with the line of the vector.
fn counted(rt: &impl Print, tally: Tally, vector: &[u32]) -> io::Result<Tally> {
    let got = value(vector);
    let want = at(vector, 7);
    let tally = tally.counted(got == want);
    let line = tally.records;
    if got != want {
        println!(rt; "line {line} gives {got}, expected {want}")?;
    }
    Ok(tally)
}

// How many of the vectors agree.
fn agreeing(rt: &impl Print, vectors: &[u32]) -> io::Result<Tally> {
    let mut tally = Tally {
        agree: 0,
        records: 0,
    };
    for vector in vectors.chunks_exact(WIDTH) {
        tally = counted(rt, tally, vector)?;
    }
    Ok(tally)
}

fn main(rt: HostRuntime) -> io::Result<()> {
    let mut text = [0u8; ROOM];
    let size = intake::read_text(&mut rt.stdin(), &mut text)?;
    let mut vectors = [0u32; MOST];
    // Where something is no number, no vector is taken.
    let read = numbers::read_numbers(&text[..size], &mut vectors).unwrap_or(0);
    let tally = agreeing(&rt, &vectors[..read.min(MOST)])?;
    println!(rt; "{} of {} agree", tally.agree, tally.records)
}

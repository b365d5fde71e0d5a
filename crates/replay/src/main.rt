// Replays a fixed list of the original Rust's answers, read from standard input, and prints how many of them the code here agrees with. README.md says how
// the list was made, and the crate `records` has the form of a record.
// Kind 1: the input is a situation as the program `judge` reads it, the room is a number of bytes, the answer is what is written into these.
// Kind 2: the input is four patterns, start, min, max and step, the room is a number of places, the answer is the number of candidates and their patterns, or
// 0 and the refusal.
#![tactic(auto)]

mod one_record;
mod queries;
mod sheets;

use one_record::Outcome;
use records::Tally;
use std::io;
use std::io::Read;

// Room for the longest record: 45 bytes, 8,759 numbers of ten digits with a blank after each, and a sheet of 7,470 bytes.
const ROOM: usize = 131072;

// More records than any list has.
const MOST: u32 = 100000;

// Counts a record. Where it does not agree, its number and why are written.
fn counted(rt: &impl Print, tally: Tally, outcome: Outcome) -> io::Result<Tally> {
    let tally = tally.counted(outcome == Outcome::Agrees);
    let record = tally.records;
    match outcome {
        Outcome::Agrees => {}
        Outcome::Differs => println!(rt; "record {record} differs")?,
        Outcome::Broken => println!(rt; "record {record} is broken")?,
    }
    Ok(tally)
}

// All records, up to the end of the input or the first broken one, after which it is not known where the next begins. Each is read into the buffer.
fn replay<R: Read>(rt: &impl Print, input: &mut R, buffer: &mut [u8]) -> io::Result<Tally> {
    let mut tally = Tally {
        agree: 0,
        records: 0,
    };
    for _ in 0..MOST {
        let Some(outcome) = one_record::next(input, buffer)? else {
            return Ok(tally);
        };
        tally = counted(rt, tally, outcome)?;
        if outcome == Outcome::Broken {
            return Ok(tally);
        }
    }
    println!(rt; "there are more records than are read")?;
    Ok(tally)
}

fn main(rt: HostRuntime) -> io::Result<()> {
    let mut buffer = [0u8; ROOM];
    let tally = replay(&rt, &mut rt.stdin(), &mut buffer)?;
    println!(rt; "{} of {} agree", tally.agree, tally.records)
}

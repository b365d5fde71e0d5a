// judge [COMMAND] [FILE]: the answer goes to standard output; all else that is told, one line, goes to standard error.
#![tactic(auto)]

ghost use Rattle.std.specs.Prelude.{◌≡◌, ◌≤◌, length};

use arguments::{Command, Source};
use desk::Reply;
use std::env::FillError;
use std::fs::File;
use std::io::Read;
use std::rt::{Env, Files};
use std::{io, str};

// Room for the longest input, 8,759 numbers of ten digits, almost three times.
const ROOM: usize = 262144;

// Room for every answer: the lines of 165 items have at most 100 bytes each, a sheet has at most 7,470 bytes, and the coach's lines have 3,000.
const OUT: usize = 16500;

// Room for a word of the call; no path is longer.
const WORD: usize = 4096;

// Zeros. Where they are made in a function of their own, no other proof has the list of them before it.
fn room() -> [u8; ROOM]
    ensures { 262144 ≡ length result }
{
    [0; ROOM]
}

// "cannot read NAME: why".
fn cannot_read(err: &impl Print, name: &[u8], why: io::Error) -> io::Result<()> {
    print!(err; "cannot read ")?;
    err.write_all(name)?;
    println!(err; ": {why}")
}

fn tell(err: &impl Print, line: &[u8]) -> io::Result<()> {
    err.write_all(line)
}

fn answer(out: &impl Print, err: &impl Print, text: &[u8]) -> io::Result<()> {
    match out.write_all(text) {
        Ok(()) => Ok(()),
        Err(why) => println!(err; "cannot write standard output: {why}"),
    }
}

// The command is a word of the call, so that a `match` says which function it runs; a function that hands out another one is refused by the gate.
fn reply_to(command: Command, text: &[u8], out: &mut [u8]) -> Reply {
    match command {
        Command::Display => desk::display(text, out),
        Command::Coach => desk::coach(text, out),
        Command::Read => desk::read(text, out),
        _ => desk::judge(text, out),
    }
}

// Runs a command on what is read; its name is for a failed read.
fn run<R: Read>(
    out: &impl Print,
    err: &impl Print,
    command: Command,
    input: &mut R,
    name: &[u8],
) -> io::Result<()> {
    let mut text = room();
    let n = match intake::read_text(input, &mut text) {
        Ok(n) => n,
        Err(why) => return cannot_read(err, name, why),
    };
    if n == ROOM {
        return tell(err, b"the input has more than 262143 bytes\n");
    }
    let mut lines = [0u8; OUT];
    let reply = reply_to(command, &text[..n], &mut lines);
    match reply {
        Reply::Answer(m) => answer(out, err, replies::front(&lines, m)),
        Reply::Told(m) => tell(err, replies::front(&lines, m)),
    }
}

// Opens a file for reading. std's paths are UTF-8.
fn open<F: Files>(files: &F, name: &[u8]) -> io::Result<F::File> {
    match str::from_utf8(name) {
        Ok(path) => File::open(files, path),
        Err(_) => Err(io::Error::new(io::ErrorKind::InvalidFilename, "its name is not UTF-8")),
    }
}

fn run_file(
    files: &impl Files,
    out: &impl Print,
    err: &impl Print,
    command: Command,
    name: &[u8],
) -> io::Result<()> {
    match open(files, name) {
        Ok(mut file) => run(out, err, command, &mut file, name),
        Err(why) => cannot_read(err, name, why),
    }
}

fn help(out: &impl Print, err: &impl Print) -> io::Result<()> {
    answer(
        out,
        err,
        b"judge [COMMAND] [FILE]\n\nsheet   judges a situation and prints its sheet; where no command is given, this one\ndisplay judges a situation and prints its sheet for the display, which shows twelve lines under the header\ncoach   tells for each player that does not stand legally which rule it breaks, a line each\nread    reads a sheet and tells what each of its lines says, a line each\nhelp    prints this text\n\nWithout a file, or where it is -, standard input is read. A file that has a command's name is written ./sheet.\n",
    )
}

// Whether the call has this argument. Argument 0 is the program's name.
fn has_argument(env: &impl Env, i: usize) -> bool {
    let mut nothing = [0u8; 0];
    match env.arg(i, &mut nothing) {
        Err(FillError::NotPresent) => false,
        _ => true,
    }
}

// How many words the call has after the program's name; 3 also where there are more.
fn count_words(env: &impl Env) -> usize
    ensures { result ≤ 3 }
{
    for n in 0..3 {
        if !has_argument(env, n + 1) {
            return n;
        }
    }
    3
}

// Puts a word at the front of the room, and answers its length; 0 where it is not there, or has no room.
// No Option: `main` hands on both words in any case, with their count, so that it would make 0 of None.
fn read_word(env: &impl Env, i: usize, room: &mut [u8]) -> usize
    ensures { result ≤ length room.new }
{
    env.arg(i, room).unwrap_or(0)
}

fn main(rt: HostRuntime) -> io::Result<()> {
    let out = rt.stdout();
    let err = rt.stderr();
    let mut first = [0u8; WORD];
    let mut second = [0u8; WORD];
    let words = count_words(&rt);
    let n = read_word(&rt, 1, &mut first);
    let m = read_word(&rt, 2, &mut second);
    let asked = arguments::asked_by(words, &first[..n], &second[..m]);
    match asked {
        None => tell(
            &err,
            b"unclear words: judge help tells how judge is called\n",
        ),
        Some(asked) => match asked.command {
            Command::Help => help(&out, &err),
            command => match asked.source {
                Source::StandardInput => {
                    run(&out, &err, command, &mut rt.stdin(), b"standard input")
                }
                Source::FirstWord => run_file(&rt, &out, &err, command, &first[..n]),
                Source::SecondWord => run_file(&rt, &out, &err, command, &second[..m]),
            },
        },
    }
}

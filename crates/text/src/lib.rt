// A text of at most N bytes that is made piece by piece, in fixed memory.
#![tactic(auto)]

ghost use Rattle.std.specs.Prelude.{◌≡◌, []};
ghost use Rattle.text.specs.Decimal.{decimal_of};
ghost use Rattle.text.specs.Pushed.{pushed};

use std::cmp;
use std::marker::Model;

// The bytes of a text, and how many of them it has.
#[derive(Drop)]
pub struct Text<const N: usize> {
    bytes: [u8; N],
    count: usize,
}

// A clause sees the text.
impl<const N: usize> Model for Text<N> {
    ghost use Rattle.std.specs.Prelude.{ℕ, ◌≤◌, List, take};

    ghost Value = { List ℕ };

    ghost view = { λ t. take t.count t.bytes };

    ghost invariant = { λ t. t.count ≤ N };
}

impl<const N: usize> Text<N> {
    // A text of no bytes.
    pub fn new() -> Self
        ensures { result ≡ [] }
    {
        Text {
            bytes: [0; N],
            count: 0,
        }
    }

    // Puts a piece after the text, as much of it as there is room for.
    pub fn push(&mut self, piece: &[u8])
        ensures { self.new ≡ pushed N self.old piece.now }
    {
        let at = self.count;
        let n = cmp::min(N - at, piece.len());
        let bytes = &mut self.bytes[..];
        bytes[at..at + n].copy_from_slice(&piece[..n]);
        self.count = at + n;
    }

    // The same of a number in decimal.
    pub fn push_number(&mut self, number: u64)
        ensures { self.new ≡ pushed N self.old (decimal_of number) }
    {
        let mut digits = [0u8; 20];
        let count = io::decimal(number, &mut digits);
        self.push(&digits[..count]);
    }

    // The bytes of the text.
    pub fn as_bytes(&self) -> &[u8]
        ensures { result.now ≡ self.now }
    {
        &self.bytes[..self.count]
    }
}

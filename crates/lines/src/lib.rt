// A line of the sheet: four decimal numbers, each right-justified with blanks in 11 columns, then a line feed.
#![tactic(auto)]

ghost use Rattle.std.specs.Prelude.{◌≡◌, ◌+◌, ◌≤◌, length};
ghost use Rattle.lists.specs.Put.{fronted, fronted_into};
ghost use Rattle.lines.specs.Over.{over};
ghost use Rattle.lines.specs.Line as Spec;

// The numbers of a line.
#[derive(Clone, Copy)]
pub struct Row {
    pub kind: u32,
    pub side: u32,
    pub number: u32,
    pub value: u32,
}

// The bytes of a line.
pub const LINE: usize = 45;

// The byte in a column of a number that has lost the digits right of it.
fn column(rest: u32, c: usize) -> u8
    ensures { result ≡ Spec.rest_byte rest c }
{
    let blank = (rest == 0) & (c < 10);
    if blank {
        return b' ';
    }
    let digit = rest % 10;
    48 + digit as u8
}

// Writes a number into the first 11 bytes of a part of the sheet, from the last column to the first.
fn columns(part: &mut [u8], v: u32)
    requires { 11 ≤ length part.old }
    ensures { part.new ≡ fronted (Spec.columns_of v) part.old }
{
    let mut rest = v;
    for c in (0..11).rev() {
        part[c] = column(rest, c);
        rest /= 10;
    }
}

// The same into the 11 bytes from a place on.
fn columns_at(part: &mut [u8], at: usize, v: u32)
    requires { at + 11 ≤ length part.old }
    ensures { part.new ≡ over at (Spec.columns_of v) part.old }
{
    columns(&mut part[at..], v);
}

// Writes a line into the first 45 bytes of the part of the sheet that begins at its place, and keeps the bytes after it. A part that is
// shorter is kept whole.
pub fn line(part: &mut [u8], row: Row)
    ensures { part.new ≡ fronted_into (Spec.line_of row) part.old }
{
    let short = part.len() < LINE;
    if short {
        return;
    }
    columns_at(part, 0, row.kind);
    columns_at(part, 11, row.side);
    columns_at(part, 22, row.number);
    columns_at(part, 33, row.value);
    part[44] = b'\n';
}

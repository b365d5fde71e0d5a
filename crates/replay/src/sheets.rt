// A situation and what is written for it: a sheet, or the line of a refusal.

use desk::Reply;

// What each lent byte holds before a call; no sheet has it.
const FILL: u8 = 170;

// Room for the longest sheet, 166 lines of 45 bytes, and some more.
const MOST: usize = 7680;

// The bytes of a sheet's line: a sheet has one at least, and the line of a refusal is shorter.
const LINE: usize = 45;

// Whether the situation of the input, with so many bytes lent, has this answer, and all other bytes are kept; a sheet must be an answer, and a refusal told.
pub(crate) fn agrees(input: &[u8], lent: usize, answer: &[u8]) -> bool {
    if MOST < lent {
        return false;
    }
    let mut bytes = [FILL; MOST];
    let reply = desk::judge(input, &mut bytes[..lent]);
    match reply {
        Reply::Answer(n) => records::is_written(n, &bytes, answer, FILL) & (n >= LINE),
        Reply::Told(n) => records::is_written(n, &bytes, answer, FILL) & (n < LINE),
    }
}

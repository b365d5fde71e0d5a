// The entries for programs in C and other languages. A slice passes as a pointer and then a length.
//
// A caller may have set another float mode than IEEE 754's default, in which the compiled operations are not those of the contracts. So an entry that computes with
// floats and answers an i64 first asks for the mode, and answers -101 in a wrong one. The seed is a slice's length, and it is asked for before any test of that length:
// past such a test the compiler knows it and works the answer out. In the language there is only the default, so that no contract has -101 in it.
#![tactic(auto)]

ghost use Rattle.std.specs.Prelude.{◌≡◌, ◌≤◌, ◌<◌, pos, length};
ghost use Rattle.lists.specs.Put.{fronted};
ghost use Rattle.floats.specs.Leaves.{rem_euclid};
ghost use Rattle.hypot.specs.Hypot.{hypot};
ghost use Rattle.geometry.specs.Geometry.{normalize_angle};
ghost use Rattle.candidates.specs.Candidates.{answer_of};
ghost use Rattle.sheet.specs.Sheet.{bytes_in};
ghost use Rattle.referee_c.specs.Entries as Spec;

use call::SheetFor;
use columns::layout::WORDS;
use game::{Earlier, Placement};
use lines::Row;
use reading::NoSheet;
use refusal::Refusal;
use tries::Span;

// A refusal as its number below 0. A number, as the C interface has it: two enums of refusals go through here, and 100 and 101, which are of neither.
fn minus(n: u8) -> i64
    ensures { result ≡ Spec.minus n }
{
    0 - n as i64
}

// The number of bytes written, or the refusal.
fn answer_number(answer: Result<usize, Refusal>) -> i64
    requires { bytes_in answer < 9223372036854775808 }
    ensures { result ≡ Spec.answer_number answer }
{
    match answer {
        Err(refused) => minus(refusal::number_of(refused)),
        Ok(n) => n as i64,
    }
}

// Whether the words are a situation: 0, or the first word outside its column, counted from 1; -100 for another number of words. No floats are computed with.
#[unsafe(no_mangle)]
pub extern "C" fn referee_check(words: &[u32]) -> i64
    ensures { result ≡ Spec.check_number words.now }
{
    let whole = words.len() == WORDS;
    if whole {
        let n = columns::words_within(words);
        if n == WORDS {
            return 0;
        }
        return (n + 1) as i64;
    }
    minus(100)
}

// Decides on the situation that the words are and writes its sheet, for the desk or the display.
fn write_sheet(to: SheetFor, words: &[u32], earlier: Earlier<'_>, sheet: &mut [u8]) -> i64
    ensures value { result ≡ Spec.number_for to words.now earlier.entry.xs.now earlier.entry.ys.now (length sheet.old) }
    ensures sheet_after { sheet.new ≡ Spec.bytes_for to words.now earlier.entry.xs.now earlier.entry.ys.now sheet.old }
{
    if !mode::is_ieee_mode(words.len()) {
        return minus(101);
    }
    let situation = columns::is_situation(words);
    if situation {
        let s = words::situation_of(words);
        let answer = call::write_sheet(to, s, earlier, sheet);
        return answer_number(answer);
    }
    minus(100)
}

// Decides on the situation that the words are and writes its sheet at the front of the lent bytes. Answers the number of bytes written, or a refusal.
#[unsafe(no_mangle)]
pub extern "C" fn referee_sheet<'a>(
    words: &[u32],
    xs: &'a [f32],
    ys: &'a [f32],
    sheet: &mut [u8],
) -> i64
    ensures value { result ≡ Spec.sheet_number words.now xs.now ys.now (length sheet.old) }
    ensures sheet_after { sheet.new ≡ Spec.sheet_bytes words.now xs.now ys.now sheet.old }
{
    write_sheet(SheetFor::Desk, words, Earlier { xs, ys }, sheet)
}

// The same for the display, which shows at most twelve lines under the header: 12 for more of them, after 5 and before 7.
#[unsafe(no_mangle)]
pub extern "C" fn referee_display<'a>(
    words: &[u32],
    xs: &'a [f32],
    ys: &'a [f32],
    sheet: &mut [u8],
) -> i64
    ensures value { result ≡ Spec.display_number words.now xs.now ys.now (length sheet.old) }
    ensures sheet_after { sheet.new ≡ Spec.display_bytes words.now xs.now ys.now sheet.old }
{
    write_sheet(SheetFor::Display, words, Earlier { xs, ys }, sheet)
}

// Writes the coach's line on one player of the situation that the words are at the front of the lent text. Answers the line's length, 0 for a player that stands legally, or a refusal.
#[unsafe(no_mangle)]
pub extern "C" fn referee_coach<'a>(
    words: &[u32],
    xs: &'a [f32],
    ys: &'a [f32],
    side: u32,
    number: u32,
    text: &mut [u8],
) -> i64
    ensures value { result ≡ Spec.coach_number words.now xs.now ys.now side number (length text.old) }
    ensures text_after { text.new ≡ Spec.coach_bytes words.now xs.now ys.now side number text.old }
{
    if !mode::is_ieee_mode(words.len()) {
        return minus(101);
    }
    if columns::is_situation(words) & (side <= 1) {
        let s = words::situation_of(words);
        let team = words::side_of(side);
        let earlier = Earlier { xs, ys };
        let answer = call::write_sentence(s, earlier, team, number, text);
        return answer_number(answer);
    }
    minus(100)
}

// Writes the numbers of a place and the patterns of its floats into the first five of the lent words.
fn put_place(place: &mut [u32], side: u32, number: u32, x: f32, y: f32, z: f32)
    requires { 5 ≤ length place.old }
    ensures { place.new ≡ fronted (Spec.words_with side number x y z) place.old }
{
    place[0] = side;
    place[1] = number;
    place[2] = floats::bits(x);
    place[3] = floats::bits(y);
    place[4] = floats::bits(z);
}

// Writes a place as it was decided, the sign of a zero kept. Answers how many places there are, 1 or 0.
#[tactic(auto, unfolding(lists::specs::Put::fronted))]
fn write_place(p: Placement, place: &mut [u32]) -> i64
    requires { 5 ≤ length place.old }
    ensures value { result ≡ pos (Spec.place_count p) }
    ensures place_after { place.new ≡ fronted (Spec.place_words p) place.old }
{
    match p {
        Placement::NoPlace => 0,
        Placement::BallAt(x, y, z) => {
            put_place(place, 2, 0, x, y, z);
            1
        }
        Placement::PlayerAt {
            side,
            number,
            x,
            y,
            theta,
        } => {
            let code = game::side_code(side);
            put_place(place, code, number as u32, x, y, theta);
            1
        }
    }
}

// Decides on the situation that the words are and writes the place wished for, as it was decided, into the first five of the lent words. Answers 1, 0 where there is no place, or a refusal.
#[unsafe(no_mangle)]
pub extern "C" fn referee_place<'a>(
    words: &[u32],
    xs: &'a [f32],
    ys: &'a [f32],
    place: &mut [u32],
) -> i64
    ensures value { result ≡ Spec.place_number words.now xs.now ys.now (length place.old) }
    ensures place_after { place.new ≡ Spec.place_after words.now xs.now ys.now place.old }
{
    if !mode::is_ieee_mode(words.len()) {
        return minus(101);
    }
    if columns::is_situation(words) & (5 <= place.len()) {
        let s = words::situation_of(words);
        let earlier = Earlier { xs, ys };
        return match decision::decide(s, earlier) {
            Err(own) => minus(refusal::number_of(own)),
            Ok(d) => {
                let p = d.place;
                write_place(p, place)
            }
        };
    }
    minus(100)
}

// Whether the bytes are a sheet: how many lines follow its header, or a refusal. No floats are computed with.
#[unsafe(no_mangle)]
#[tactic(auto, unfolding(crate::specs::Entries::read_number))]
pub extern "C" fn referee_read_sheet(text: &[u8]) -> i64
    ensures { result ≡ Spec.read_number text.now }
{
    let read = reading::read_sheet(text);
    match read {
        Err(no_sheet) => minus(reading::number_of(no_sheet)),
        Ok(n) => n as i64,
    }
}

// Stores the numbers of a line in the first four of the lent words, where there is one.
#[tactic(auto, unfolding(lists::specs::Put::fronted))]
fn write_item(found: Result<Option<Row>, NoSheet>, item: &mut [u32]) -> i64
    requires { 4 ≤ length item.old }
    ensures value { result ≡ Spec.line_number found }
    ensures item_after { item.new ≡ fronted (Spec.line_words found) item.old }
{
    match found {
        Err(refusal) => minus(reading::number_of(refusal)),
        Ok(None) => 0,
        Ok(Some(row)) => {
            item[0] = row.kind;
            item[1] = row.side;
            item[2] = row.number;
            item[3] = row.value;
            1
        }
    }
}

// Reads the item of a line after the header, from 1, into the first four of the lent words. Answers 1, 0 where there is no such line, or a refusal. No floats are computed with.
#[unsafe(no_mangle)]
pub extern "C" fn referee_read_item(text: &[u8], line: u64, item: &mut [u32]) -> i64
    ensures value { result ≡ Spec.item_number text.now line (length item.old) }
    ensures item_after { item.new ≡ Spec.item_after text.now line item.old }
{
    let short = item.len() < 4;
    if short {
        return minus(100);
    }
    let found = reading::read_line(text, line as usize);
    write_item(found, item)
}

// Fills the front of the lent list with the candidates. Answers how many there are, or a refusal.
#[unsafe(no_mangle)]
pub extern "C" fn referee_candidates(
    start: f32,
    min: f32,
    max: f32,
    step: f32,
    list: &mut [f32],
) -> i64
    ensures value { result ≡ Spec.candidates_number start min max step (length list.old) }
    ensures list_after { list.new ≡ fronted (answer_of start min max step (length list.old)) list.old }
{
    if !mode::is_ieee_mode(list.len()) {
        return minus(101);
    }
    let len = list.len();
    let span = Span {
        start,
        min,
        max,
        step,
    };
    let n = candidates::fill_candidates(span, list);
    if n == 0 {
        let refusal = candidates::candidates_refusal(span, len);
        return minus(refusal::number_in(refusal));
    }
    n as i64
}

#[unsafe(no_mangle)]
pub extern "C" fn referee_hypot(x: f32, y: f32) -> f32
    ensures { result ≡ hypot x y }
{
    hypot::hypot(x, y)
}

#[unsafe(no_mangle)]
pub extern "C" fn referee_normalize_angle(angle: f32) -> f32
    ensures { result ≡ normalize_angle angle }
{
    geometry::normalize_angle(angle)
}

#[unsafe(no_mangle)]
pub extern "C" fn referee_rem_euclid(x: f32, y: f32) -> f32
    ensures { result ≡ rem_euclid x y }
{
    floats::rem_euclid(x, y)
}

// An item of a sheet as a line of text for the desk, written at the front of lent bytes.
#![tactic(auto)]

ghost use Rattle.std.specs.Prelude.{◌≡◌, ◌+◌, ◌*◌, ◌/◌, ◌%◌, ◌≤◌, ◌<◌, ◌++◌};
ghost use Rattle.std.specs.Float.{binary32};
ghost use Rattle.std.specs.Float.Ieee.{to_bits};
ghost use Rattle.text.specs.Decimal.{decimal_of};
ghost use Rattle.text.specs.Pushed.{pushed};
ghost use Rattle.replies.specs.Replies.{written_in, line_in};
ghost use Rattle.item_lines.specs.Values as Value;
ghost use Rattle.item_lines.specs.ItemLines as Spec;

use game::{BallJudgment, Positioning, Side};
use items::{Item, Who};
use text::Text;

// Room for every line, each of which is made whole before it is known whether it fits.
const LINE: usize = 128;

// The significand of a pattern, as a whole number.
fn significand(p: u32) -> u32
    ensures { (result ≡ Value.significand_of p) × (result < 0x100_0000) }
{
    let m = p % 0x80_0000;
    if p / 0x80_0000 % 256 == 0 {
        return m;
    }
    m + 0x80_0000
}

// The power of 2 by which it is divided, of a value below 2^24.
fn shift(p: u32) -> u32
    requires { Value.exponent_of p ≤ 150 }
    ensures { result ≡ Value.shift_of p }
{
    let e = p / 0x80_0000 % 256;
    if e == 0 {
        return 149;
    }
    150 - e
}

// The magnitude of such a value in millionths, to the nearest, a half up.
fn millionths(p: u32) -> u64
    requires { Value.exponent_of p ≤ 150 }
    ensures { result ≡ Value.millionths p }
{
    let m = significand(p) as u64;
    let s = shift(p);
    if 46 < s {
        return 0;
    }
    (((m * 2000000) >> s) + 1) / 2
}

// The digit of a unit.
fn digit(n: u64, unit: u64) -> u8
    requires { 0 < unit }
    ensures { result ≡ 48 + n / unit % 10 }
{
    48 + (n / unit % 10) as u8
}

// The minus sign, where a pattern has it.
fn sign(p: u32) -> &'static [u8]
    ensures { result.now ≡ Value.sign_text p }
{
    if p < 0x8000_0000 { b"" } else { b"-" }
}

// Puts the last six digits of a number after a line.
fn push_six(line: &mut Text<LINE>, n: u64)
    ensures { line.new ≡ pushed 128 line.old (Value.six_digits n) }
{
    let a = digit(n, 100000);
    let b = digit(n, 10000);
    let c = digit(n, 1000);
    let d = digit(n, 100);
    let e = digit(n, 10);
    let f = digit(n, 1);
    line.push(&[a, b, c, d, e, f]);
}

// The same of the value of a pattern in decimal, with what stands before the pattern.
fn push_amount(line: &mut Text<LINE>, p: u32)
    ensures { line.new ≡ pushed 128 line.old (Value.amount_text p) }
{
    if 150 < p / 0x80_0000 % 256 {
        line.push(b"of ");
    } else {
        let n = millionths(p);
        line.push(sign(p));
        line.push_number(n / 1000000);
        line.push(b".");
        push_six(line, n);
        line.push(b", ");
    }
}

// The same of a placed number.
fn push_value(line: &mut Text<LINE>, p: u32)
    ensures { line.new ≡ pushed 128 line.old (Value.value_text p) }
{
    push_amount(line, p);
    line.push(b"pattern ");
    line.push_number(p as u64);
}

// A side.
fn side_name(side: Side) -> &'static [u8]
    ensures { result.now ≡ Spec.side_name side }
{
    match side {
        Side::Home => b"Home",
        Side::Away => b"Away",
    }
}

// Puts a player after a line.
fn push_player(line: &mut Text<LINE>, side: Side, number: u32)
    ensures { line.new ≡ pushed 128 line.old (Spec.player_text side number) }
{
    line.push(side_name(side));
    line.push(b" ");
    line.push_number(number as u64);
}

// The same of whom a place is for.
fn push_who(line: &mut Text<LINE>, who: Who)
    ensures { line.new ≡ pushed 128 line.old (Spec.who_text who) }
{
    match who {
        Who::TheBall => line.push(b"the ball"),
        Who::OnePlayer(side, number) => push_player(line, side, number),
    }
}

// A verdict.
fn verdict_words(verdict: Positioning) -> &'static [u8]
    ensures { result.now ≡ Spec.verdict_text verdict }
{
    match verdict {
        Positioning::Legal => b" stands legally",
        Positioning::Illegal => b" stands illegally",
        Positioning::IllegalUnlessKicker => b" stands illegally unless it is the kicker",
        Positioning::InAvoidanceRegion => b" stands in the region that it must avoid",
    }
}

// Puts what is said of a player after a line.
fn push_said(line: &mut Text<LINE>, side: Side, number: u32, words: &[u8])
    ensures { line.new ≡ pushed 128 line.old (Spec.player_text side number ++ words.now) }
{
    push_player(line, side, number);
    line.push(words);
}

// The same of one who is too many.
fn push_excess(line: &mut Text<LINE>, side: Side, number: u32, rank: u32)
    ensures { line.new ≡ pushed 128 line.old (Spec.excess_text side number rank) }
{
    push_said(line, side, number, b" is in excess in its goal area, rank ");
    line.push_number(rank as u64);
}

// The same of a call for a side.
fn push_call(line: &mut Text<LINE>, words: &[u8], side: Side)
    ensures { line.new ≡ pushed 128 line.old (words.now ++ Spec.side_name side) }
{
    line.push(words);
    line.push(side_name(side));
}

// The same of the ball judgment.
fn push_judgment(line: &mut Text<LINE>, judgment: BallJudgment)
    ensures { line.new ≡ pushed 128 line.old (Spec.judgment_text judgment) }
{
    match judgment {
        BallJudgment::NoJudgment => line.push(b"no call"),
        BallJudgment::Goal(side) => push_call(line, b"goal for ", side),
        BallJudgment::GoalKick(side) => push_call(line, b"goal kick for ", side),
        BallJudgment::CornerKick(side) => push_call(line, b"corner for ", side),
        BallJudgment::ThrowIn(side) => push_call(line, b"throw-in for ", side),
        BallJudgment::EndOfPenaltyShot => line.push(b"end of the penalty shot"),
    }
}

// What is said of the third number of a place.
fn third_words(who: Who) -> &'static [u8]
    ensures { result.now ≡ Spec.third_words who }
{
    match who {
        Who::TheBall => b" is placed at z ",
        Who::OnePlayer(_, _) => b" is placed with heading ",
    }
}

// Puts a number of a place after a line.
fn push_placed(line: &mut Text<LINE>, who: Who, words: &[u8], value: f32)
    ensures { line.new ≡ pushed 128 line.old (Spec.placed_text who words.now value) }
{
    let p = floats::bits(value);
    push_who(line, who);
    line.push(words);
    push_value(line, p);
}

// The same of an item.
// Display was tried: `write!` promises its text only where it gives Ok, and no contract of std says that it does so for a writer that never fails, so the clause of `push_player`, which holds always, did not close.
fn push_item(line: &mut Text<LINE>, item: Item)
    ensures { line.new ≡ pushed 128 line.old (Spec.item_text item) }
{
    match item {
        Item::Verdict(side, number, verdict) => {
            push_said(line, side, number, verdict_words(verdict))
        }
        Item::Excess(side, number, rank) => push_excess(line, side, number, rank),
        Item::Kicks(side, number) => push_said(line, side, number, b" is the kicking player"),
        Item::Leaves(side, number) => push_said(line, side, number, b" leaves the field"),
        Item::HasMoved(side, number) => push_said(line, side, number, b" has moved"),
        Item::Judged(judgment) => push_judgment(line, judgment),
        Item::PlacedX(who, x) => push_placed(line, who, b" is placed at x ", x),
        Item::PlacedY(who, y) => push_placed(line, who, b" is placed at y ", y),
        Item::PlacedThird(who, z) => push_placed(line, who, third_words(who), z),
    }
}

// "Home 4 stands illegally", then a line feed: what a line of a sheet says. Writes it where the lent bytes have room for it, and answers how many bytes it wrote.
// An Option is no plainer: as of `told`, every caller wants 0 bytes where there is no room.
pub fn item_line(item: Item, out: &mut [u8]) -> usize
    ensures value { result ≡ written_in (Spec.item_line item) out.old }
    ensures out_after { out.new ≡ line_in (Spec.item_line item) out.old }
{
    let mut line = Text::<LINE>::new();
    push_item(&mut line, item);
    line.push(b"\n");
    replies::told(line.as_bytes(), out)
}

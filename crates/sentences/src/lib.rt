// The line by which the coach is told a verdict other than Legal, and why, as "Home 4 illegal: own penalty area".
#![tactic(auto)]

ghost use Rattle.std.specs.Prelude.{◌≡◌, ◌+◌, ◌≤◌, length};
ghost use Rattle.lists.specs.Put.{fronted_into};
ghost use Rattle.lines.specs.Over.{over};
ghost use Rattle.sentences.specs.Sentences as Spec;

use conditions::Condition;
use game::{Positioning, Side};

// The length of the longest line of a number from 1 to 20.
pub const LONGEST: usize = 74;

// Room for every line.
const ROOM: usize = 80;

// A side's word.
#[tactic(auto, unfolding(crate::specs::Sentences::side_word))]
fn side_word(side: Side) -> &'static [u8]
    ensures value { result.now ≡ Spec.side_word side }
    ensures few { length result.now ≤ 4 }
{
    match side {
        Side::Home => b"Home",
        Side::Away => b"Away",
    }
}

// A verdict's words.
#[tactic(auto, unfolding(crate::specs::Sentences::verdict_words))]
fn verdict_words(verdict: Positioning) -> &'static [u8]
    ensures value { result.now ≡ Spec.verdict_words verdict }
    ensures few { length result.now ≤ 21 }
{
    match verdict {
        Positioning::Legal => b"legal",
        Positioning::Illegal => b"illegal",
        Positioning::IllegalUnlessKicker => b"illegal unless kicker",
        Positioning::InAvoidanceRegion => b"in avoidance region",
    }
}

// A condition's words.
#[tactic(auto, unfolding(crate::specs::Sentences::condition_words))]
fn condition_words(condition: Condition) -> &'static [u8]
    ensures value { result.now ≡ Spec.condition_words condition }
    ensures few { length result.now ≤ 43 }
{
    match condition {
        Condition::NoCondition => b"",
        Condition::OnCenterMark => b"on the centre mark",
        Condition::OutsideCircle => b"outside the centre circle",
        Condition::InCircle => b"only the kicker may be in the centre circle",
        Condition::InOpponentHalf => b"opponent half",
        Condition::InCenterCircle => b"centre circle",
        Condition::OnPenaltyMark => b"on the penalty mark",
        Condition::BeyondPenaltyMark => b"beyond the penalty mark",
        Condition::InOpponentPenaltyArea => b"opponent penalty area",
        Condition::NearPenaltyMark => b"near the penalty mark",
        Condition::InOwnPenaltyArea => b"own penalty area",
        Condition::BehindOwnMark => b"behind own penalty mark",
        Condition::NearOwnMark => b"near own penalty mark",
        Condition::NearBall => b"near the ball",
        Condition::InGoalKickArea => b"penalty area of the goal kick",
        Condition::InAreaOfBall => b"own penalty area with the ball in it",
    }
}

// How many digits of a number are written, one or two. `io::decimal` is no plainer for them: it wants room for 20, and its law is on the digits of every number.
#[tactic(auto, unfolding(crate::specs::Sentences::number_word))]
fn digits_of(number: u8) -> usize
    ensures value { result ≡ length (Spec.number_word number) }
    ensures few { result ≤ 2 }
{
    if number % 100 < 10 {
        return 1;
    }
    2
}

// Writes a piece over the lent bytes from a place on, and answers the place after it.
#[tactic(auto, unfolding(lines::specs::Over::over))]
fn put(out: &mut [u8], at: usize, piece: &[u8]) -> usize
    requires { at + length piece.now ≤ length out.old }
    ensures value { result ≡ at + length piece.now }
    ensures out_after { out.new ≡ over at piece.now out.old }
{
    let end = at + piece.len();
    out[at..end].copy_from_slice(piece);
    end
}

// Writes the line, without a line feed, at the front of the lent bytes and answers its length; None, and nothing is written, where these are fewer.
// Callers hand a number from 1 to 20; one of 100 or more is written as its remainder by 100.
pub fn coach_line(
    side: Side,
    number: u8,
    verdict: Positioning,
    condition: Condition,
    text: &mut [u8],
) -> Option<usize>
    ensures value { result ≡ Spec.written (Spec.line_of side number verdict condition) text.old }
    ensures text_after { text.new ≡ fronted_into (Spec.line_of side number verdict condition) text.old }
{
    let s = side_word(side);
    let v = verdict_words(verdict);
    let c = condition_words(condition);
    let count = digits_of(number);
    let size = s.len() + 1 + count + 1 + v.len() + 2 + c.len();
    let too_few = text.len() < size;
    if too_few {
        return None;
    }
    let tens = b'0' + number / 10 % 10;
    let ones = b'0' + number % 10;
    let digits = [tens, ones];
    // Made here and then copied: words that are copied right to the lent bytes, which may lie anywhere, are copied by `memmove`, for which the archive would have to ask.
    let mut line = [0u8; ROOM];
    let after_side = put(&mut line, 0, s);
    let number_place = put(&mut line, after_side, b" ");
    let after_number = put(&mut line, number_place, &digits[2 - count..]);
    let verdict_place = put(&mut line, after_number, b" ");
    let after_verdict = put(&mut line, verdict_place, v);
    let condition_place = put(&mut line, after_verdict, b": ");
    let end = put(&mut line, condition_place, c);
    text[..end].copy_from_slice(&line[..end]);
    Some(end)
}

// The constant, proved to be the length that `LongestClaim` speaks of.
pub fn longest() -> usize
    ensures { result ≡ Spec.longest }
{
    LONGEST
}

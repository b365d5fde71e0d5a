// The coach's calls: the line on one player, or those on all players that do not stand legally.
#![tactic(auto)]

ghost use Rattle.std.specs.Prelude.{◌≡◌, ◌||◌, ◌+◌, ◌≤◌, eqb, length};
ghost use Rattle.lists.specs.Put.{fronted_into};
ghost use Rattle.lines.specs.Over.{over};
ghost use Rattle.coach.specs.Coach as Spec;

use conditions::Condition;
use game::{Side, Situation};
use refusal::Refusal;

// Room for the lines of both sides: 40 of the longest, each with a line feed.
const ROOM: usize = 3000;

// The conditions on a side's players.
#[tactic(auto, unfolding(crate::specs::Coach::side_conditions, seen::specs::Seen::side_seen))]
fn side_conditions(s: Situation, side: Side) -> [Condition; 20]
    ensures { result ≡ Spec.side_conditions s side }
{
    let game = s.game;
    let field = s.field;
    let ball = s.ball;
    let team = game::team_of(s, side);
    let seen = seen::side_seen(game, field, side, team);
    let margins = seen.margins;
    positioning::team_conditions(game, field, ball, side, team, margins)
}

// Writes the line of a player's condition at the front of the lent text, and answers its length; without one, for a player that stands legally, none is written. Where the text is
// shorter than the line, all of it is kept.
fn sentence(side: Side, number: u8, condition: Condition, text: &mut [u8]) -> Result<usize, Refusal>
    ensures value { result ≡ Spec.line_answer (Spec.line_for side number condition) (length text.old) }
    ensures text_after { text.new ≡ fronted_into (Spec.line_for side number condition) text.old }
{
    if !conditions::is_some(condition) {
        return Ok(0);
    }
    let verdict = conditions::verdict_of(condition);
    sentences::coach_line(side, number, verdict, condition, text).ok_or(Refusal::TextRoom)
}

// Whether the number that is asked for is refused before what the situation is refused for, by the number of that refusal, 0 for none.
fn comes_after_number(own: u8) -> bool
    ensures { result ≡ (eqb own 0 || eqb own 5) }
{
    matches!(own, 0 | 5)
}

// The number of a situation's first refusal, 0 for none, with the number that is asked for: 4 of that comes before 5.
fn with_number(own: u8, number: u32) -> u8
    ensures { result ≡ Spec.with_number own number }
{
    let numbered = (game::MIN as u32 <= number) & (number <= game::MAX as u32);
    if comes_after_number(own) & !numbered {
        return refusal::number_of(Refusal::Number);
    }
    own
}

// Writes the line on one player of a situation, of which the first refusal is handed in, at the front of the lent text; the bytes after it are kept. Answers the line's length, 0 for
// a player that stands legally. A refusal, that or 4 of the number, and then 8, keeps every byte.
// Refusals go by their numbers here, since any number may be handed in: an enum would take fewer.
#[tactic(auto, unfolding(crate::specs::Coach::sentence_of))]
pub fn write_sentence(
    own: u8,
    s: Situation,
    side: Side,
    number: u32,
    text: &mut [u8],
) -> Result<usize, u8>
    ensures value { result ≡ Spec.text_answer (Spec.with_number own number) (Spec.sentence_of s side number) (length text.old) }
    ensures text_after { text.new ≡ Spec.text_after (Spec.with_number own number) (Spec.sentence_of s side number) text.old }
{
    let refused = with_number(own, number);
    if refused != 0 {
        return Err(refused);
    }
    let conditions = side_conditions(s, side);
    let i = (number - 1) as usize;
    let condition = conditions[i];
    let n = number as u8;
    sentence(side, n, condition, text).map_err(refusal::number_of)
}

// Writes the line of a player's condition, with a line feed after it, over the bytes from a place on, and answers the place after it.
fn ended_sentence(
    side: Side,
    number: u8,
    condition: Condition,
    lines: &mut [u8],
    at: usize,
) -> usize
    requires { at + 75 ≤ length lines.old }
    ensures value { result ≡ at + length (Spec.ended (Spec.line_for side number condition)) }
    ensures lines_after { lines.new ≡ over at (Spec.ended (Spec.line_for side number condition)) lines.old }
{
    let size = sentence(side, number, condition, &mut lines[at..]).unwrap_or(0);
    if size == 0 {
        return at;
    }
    let end = at + size;
    lines[end] = b'\n';
    end + 1
}

// The same for a side's players, in the order of their numbers.
#[tactic(auto, unfolding(crate::specs::Coach::lines_for))]
fn side_sentences(side: Side, conditions: [Condition; 20], lines: &mut [u8], at: usize) -> usize
    requires { at + 1500 ≤ length lines.old }
    ensures value { result ≡ at + length (Spec.lines_for side conditions) }
    ensures lines_after { lines.new ≡ over at (Spec.lines_for side conditions) lines.old }
{
    let mut next = at;
    for i in 0..20 {
        let condition = conditions[i];
        let number = (i + 1) as u8;
        next = ended_sentence(side, number, condition, lines, next);
    }
    next
}

// Writes the lines on all players of a situation, of which the first refusal is handed in, that do not stand legally at the front of the lent text, in the order of the sheet,
// each with a line feed; the bytes after them are kept. A refusal, that and then 8, keeps every byte.
pub fn write_sentences(own: u8, s: Situation, text: &mut [u8]) -> Result<usize, u8>
    ensures value { result ≡ Spec.text_answer own (Spec.sentences_of s) (length text.old) }
    ensures text_after { text.new ≡ Spec.text_after own (Spec.sentences_of s) text.old }
{
    let refused = own != 0;
    if refused {
        return Err(own);
    }
    let home = side_conditions(s, Side::Home);
    let away = side_conditions(s, Side::Away);
    let mut lines = [0u8; ROOM];
    let middle = side_sentences(Side::Home, home, &mut lines, 0);
    let end = side_sentences(Side::Away, away, &mut lines, middle);
    if text.len() < end {
        return Err(refusal::number_of(Refusal::TextRoom));
    }
    text[..end].copy_from_slice(&lines[..end]);
    Ok(end)
}

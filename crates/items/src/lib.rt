// The items of a sheet: what each of its lines says.
#![tactic(auto)]

ghost use Rattle.std.specs.Prelude.{◌≡◌};
ghost use Rattle.items.specs.Items as Spec;

use game::{BallJudgment, Positioning, Side};
use lines::Row;

// Whom a place is for.
#[derive(Clone, Copy)]
pub enum Who {
    TheBall,
    OnePlayer(Side, u32),
}

// A line of a sheet after its header: the verdict on a player, one who is too many in its goal area with its rank, the kicking player, one leaving, one moved, the ball
// judgment, and x, y and the third number of a place.
#[derive(Clone, Copy)]
pub enum Item {
    Verdict(Side, u32, Positioning),
    Excess(Side, u32, u32),
    Kicks(Side, u32),
    Leaves(Side, u32),
    HasMoved(Side, u32),
    Judged(BallJudgment),
    PlacedX(Who, f32),
    PlacedY(Who, f32),
    PlacedThird(Who, f32),
}

fn is_player(row: Row) -> bool
    ensures { result ≡ Spec.is_player row }
{
    (row.side < 2) & ((1 <= row.number) & (row.number <= 20))
}

fn is_the_ball(row: Row) -> bool
    ensures { result ≡ Spec.is_the_ball row }
{
    (row.side == 2) & (row.number == 0)
}

fn is_judged(row: Row) -> bool
    ensures { result ≡ Spec.is_judged row }
{
    ((row.side < 2) & ((1 <= row.number) & (row.number <= 4)))
        | ((row.side == 2) & (row.number == 5))
}

fn is_placed(value: u32) -> bool
    ensures { result ≡ Spec.is_placed value }
{
    (value / 0x80_0000 % 256 != 255) & (value != 2147483648)
}

// Whether the numbers of a line are those of an item. No TryFrom of it or its parts: of the callers in `reading` one asks only this, and the other has a line of a
// sheet, of which an error cannot come.
#[tactic(auto, unfolding(crate::specs::Items::is_item))]
pub fn is_item(row: Row) -> bool
    ensures { result ≡ Spec.is_item row }
{
    match row.kind {
        1 => is_player(row) & ((1 <= row.value) & (row.value <= 3)),
        2 => is_player(row),
        3..=5 => is_player(row) & (row.value == 0),
        6 => is_judged(row) & (row.value == 0),
        7..=9 => (is_player(row) | is_the_ball(row)) & is_placed(row.value),
        _ => false,
    }
}

fn side_of(side: u32) -> Side
    ensures { result ≡ Spec.side_of side }
{
    if side == 0 { Side::Home } else { Side::Away }
}

fn verdict_of(value: u32) -> Positioning
    ensures { result ≡ Spec.verdict_of value }
{
    match value {
        1 => Positioning::Illegal,
        2 => Positioning::IllegalUnlessKicker,
        _ => Positioning::InAvoidanceRegion,
    }
}

fn judgment_of(side: Side, code: u32) -> BallJudgment
    ensures { result ≡ Spec.judgment_of side code }
{
    match code {
        1 => BallJudgment::Goal(side),
        2 => BallJudgment::GoalKick(side),
        3 => BallJudgment::CornerKick(side),
        4 => BallJudgment::ThrowIn(side),
        _ => BallJudgment::EndOfPenaltyShot,
    }
}

fn who_of(side: u32, number: u32) -> Who
    ensures { result ≡ Spec.who_of side number }
{
    if side == 2 {
        Who::TheBall
    } else {
        Who::OnePlayer(side_of(side), number)
    }
}

// The item that a line is.
#[tactic(auto, unfolding(crate::specs::Items::item_of))]
pub fn item_of(row: Row) -> Item
    ensures { result ≡ Spec.item_of row }
{
    let side = side_of(row.side);
    let number = row.number;
    let who = who_of(row.side, number);
    let value = floats::from_bits(row.value);
    match row.kind {
        1 => Item::Verdict(side, number, verdict_of(row.value)),
        2 => Item::Excess(side, number, row.value),
        3 => Item::Kicks(side, number),
        4 => Item::Leaves(side, number),
        5 => Item::HasMoved(side, number),
        6 => Item::Judged(judgment_of(side, number)),
        7 => Item::PlacedX(who, value),
        8 => Item::PlacedY(who, value),
        _ => Item::PlacedThird(who, value),
    }
}

// Lines of one kind and side, and those of a place, gathered before anything is written, so that their number is known.
ghost use Rattle.std.specs.Prelude.{◌≡◌, [], ◌∷◌, ◌++◌, Some};
ghost use Rattle.lists.specs.Gather.{only_if};
ghost use Rattle.game.specs.Codes.{positioning_code, judgment_code, judgment_side};
ghost use Rattle.sheet.specs.Rows as Spec;
ghost use Rattle.sheet.specs.Blocks.{Holds, HoldsList, Few, all_rows, place_line_rows};

use game::{BallJudgment, Decision, KickingPlayer, MIN, Placement, PlayerList, Positioning, Side};

// The first `count` of the numbers and values, each a line of this kind and side.
// There is no heap: a block has room for all players of a side. Two arrays, so that `list_block` takes a list's numbers as they are.
#[derive(Clone, Copy)]
pub struct Block {
    pub kind: u32,
    pub side: u32,
    pub count: usize,
    pub numbers: [u8; 20],
    pub values: [u8; 20],
}

// The three lines of a place: the side and the number of each, and their values.
#[derive(Clone, Copy)]
pub struct PlaceLines {
    pub side: u32,
    pub number: u32,
    pub x: u32,
    pub y: u32,
    pub z: u32,
}

// The ranks of a list of players, from 1.
const RANKS: [u8; 20] = [
    1, 2, 3, 4, 5, 6, 7, 8, 9, 10, 11, 12, 13, 14, 15, 16, 17, 18, 19, 20,
];

fn positioning_code(verdict: Positioning) -> u8
    ensures { result ≡ positioning_code verdict }
{
    verdict as u8
}

// A block of at most one line.
#[tactic(auto, unfolding(crate::specs::Blocks::block_rows))]
fn block_if(wanted: bool, kind: u32, side: u32, number: u8) -> Block
    ensures { Holds result (only_if wanted (Spec.row kind side number 0)) }
{
    Block {
        kind,
        side,
        count: wanted as usize,
        numbers: [number; 20],
        values: [0; 20],
    }
}

// The lines of the players whose verdict is not Legal. A line that is not wanted is written over by the next one.
#[tactic(auto, unfolding(lists::specs::Gather::flat_to, crate::specs::Rows::verdict_rows, crate::specs::Blocks::block_rows))]
fn verdict_block(side: Side, verdicts: [Positioning; 20]) -> Block
    ensures { Holds result (Spec.verdict_rows side verdicts) }
{
    let code = game::side_code(side);
    let mut numbers = [0u8; 20];
    let mut values = [0u8; 20];
    let mut n: usize = 0;
    for i in 0..20 {
        let value = positioning_code(verdicts[i]);
        numbers[n] = i as u8 + MIN;
        values[n] = value;
        if 0 < value {
            n += 1;
        }
    }
    Block {
        kind: 1,
        side: code,
        count: n,
        numbers,
        values,
    }
}

// The lines of the players of a list, with these values.
#[tactic(auto, unfolding(crate::specs::Blocks::block_rows))]
fn list_block(kind: u32, side: Side, list: PlayerList, values: [u8; 20]) -> Block
    ensures { HoldsList result kind side values list }
{
    let code = game::side_code(side);
    let numbers = list.numbers;
    Block {
        kind,
        side: code,
        count: list.count.min(20),
        numbers,
        values,
    }
}

// The kicking player's line.
fn kicker_block(kicker: Option<KickingPlayer>) -> Block
    ensures { Holds result (Spec.kicker_rows kicker) }
{
    match kicker {
        None => block_if(false, 3, 0, 0),
        Some(k) => block_if(true, 3, game::side_code(k.side), k.number),
    }
}

fn judgment_code(judgment: BallJudgment) -> u8
    ensures { result ≡ judgment_code judgment }
{
    match judgment {
        BallJudgment::NoJudgment => 0,
        BallJudgment::Goal(_) => 1,
        BallJudgment::GoalKick(_) => 2,
        BallJudgment::CornerKick(_) => 3,
        BallJudgment::ThrowIn(_) => 4,
        BallJudgment::EndOfPenaltyShot => 5,
    }
}

fn judgment_side(judgment: BallJudgment) -> u32
    ensures { result ≡ judgment_side judgment }
{
    match judgment {
        BallJudgment::NoJudgment => 2,
        BallJudgment::Goal(side) => game::side_code(side),
        BallJudgment::GoalKick(side) => game::side_code(side),
        BallJudgment::CornerKick(side) => game::side_code(side),
        BallJudgment::ThrowIn(side) => game::side_code(side),
        BallJudgment::EndOfPenaltyShot => 2,
    }
}

// All lines of a decision but those of its place.
#[tactic(auto, unfolding(lists::specs::Gather::flat_to, crate::specs::Blocks::all_rows, crate::specs::Rows::rows_of, crate::specs::Rows::ball_rows))]
pub(crate) fn blocks_of(d: Decision) -> [Block; 10]
    ensures few { Few result }
    ensures place_value { all_rows result ++ Spec.place_rows d.place ≡ Spec.rows_of d }
{
    let home = d.home;
    let away = d.away;
    let none = [0u8; 20];
    let verdicts = home.verdicts;
    let home_verdicts = verdict_block(Side::Home, verdicts);
    let verdicts = away.verdicts;
    let away_verdicts = verdict_block(Side::Away, verdicts);
    let home_excess = list_block(2, Side::Home, home.excess, RANKS);
    let away_excess = list_block(2, Side::Away, away.excess, RANKS);
    let kicking_player = d.kicker;
    let kicker = kicker_block(kicking_player);
    let home_leaving = list_block(4, Side::Home, home.leaving, none);
    let away_leaving = list_block(4, Side::Away, away.leaving, none);
    let home_moved = list_block(5, Side::Home, home.moved, none);
    let away_moved = list_block(5, Side::Away, away.moved, none);
    let judgment = d.ball;
    let code = judgment_code(judgment);
    let judged = judgment_side(judgment);
    let ball = block_if(0 < code, 6, judged, code);
    [
        home_verdicts,
        away_verdicts,
        home_excess,
        away_excess,
        kicker,
        home_leaving,
        away_leaving,
        home_moved,
        away_moved,
        ball,
    ]
}

// A number of a place on the sheet: a zero of either sign as 0, any other by its pattern.
#[tactic(auto, unfolding(crate::specs::Rows::placed_value))]
fn placed_value(x: f32) -> u32
    ensures { result ≡ Spec.placed_value x }
{
    if x == 0.0 {
        return 0;
    }
    floats::bits(x)
}

// The three lines of a place with this side and number.
#[tactic(auto, unfolding(crate::specs::Blocks::place_line_rows))]
fn three_lines(side: u32, number: u32, x: f32, y: f32, z: f32) -> PlaceLines
    ensures { place_line_rows (Some result) ≡ Spec.value_rows 7 side number (x ∷ y ∷ z ∷ []) }
{
    let x = placed_value(x);
    let y = placed_value(y);
    let z = placed_value(z);
    PlaceLines {
        side,
        number,
        x,
        y,
        z,
    }
}

// The lines of a place, if there is one.
#[tactic(auto, unfolding(crate::specs::Rows::place_rows, crate::specs::Blocks::place_line_rows))]
pub(crate) fn lines_of_place(place: Placement) -> Option<PlaceLines>
    ensures { place_line_rows result ≡ Spec.place_rows place }
{
    match place {
        Placement::NoPlace => None,
        Placement::BallAt(x, y, z) => Some(three_lines(2, 0, x, y, z)),
        Placement::PlayerAt {
            side,
            number,
            x,
            y,
            theta,
        } => {
            let code = game::side_code(side);
            Some(three_lines(code, number as u32, x, y, theta))
        }
    }
}

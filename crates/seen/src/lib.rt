// What several items of a decision, and the coach's lines, use of a side.
#![tactic(auto)]

ghost use Rattle.std.specs.Prelude.{◌≡◌};
ghost use Rattle.seen.specs.Seen as Spec;

use game::{FieldDimensions, Game, Margins, Side, Team};

// Its players' margins, and how many of them are on the field.
#[derive(Clone, Copy)]
pub struct Seen {
    pub margins: [Option<Margins>; 20],
    pub on_field: usize,
}

// One function for all that asks for any of them, for speed: called in several places it is compiled once, with its loops inside it, and leaves the teams where they are.
#[tactic(auto, unfolding(crate::specs::Seen::side_seen))]
pub fn side_seen(game: Game, field: FieldDimensions, side: Side, team: Team) -> Seen
    ensures { result ≡ Spec.side_seen game field side team }
{
    let sides = game.sides;
    let sign = geometry::side_to_sign(side, sides);
    let margins = geometry::compute_margins(team, field, sign);
    let on_field = counts::players_on_field(team);
    Seen { margins, on_field }
}

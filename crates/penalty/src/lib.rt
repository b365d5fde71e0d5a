// The place of a penalized player, as place_for_penalty.
#![tactic(auto)]

ghost use Rattle.std.specs.Prelude.{◌≡◌};
ghost use Rattle.lists.specs.Fold.{fold_to};
ghost use Rattle.clearance.specs.Clearance.{occupied};
ghost use Rattle.penalty.specs.Penalty as Spec;
ghost use Rattle.penalty.specs.Walk as Walk;

use floats::PI;
use game::{Earlier, FieldDimensions, Game, Placement, Side, Team};
use std::cmp::Ordering;
use tries::Span;

// The candidate that is taken so far, its clearance, and whether that reaches the distance: a flag and no Option, since there is a candidate either way.
#[derive(Clone, Copy)]
struct Choice {
    reached: bool,
    x: f32,
    clearance: f32,
}

// The choice after one more candidate x with the clearance c.
fn considered(choice: Choice, distance: f32, x: f32, c: f32) -> Choice
    ensures { result ≡ Walk.considered choice distance x c }
{
    if choice.reached {
        return choice;
    }
    if c >= distance {
        return Choice {
            reached: true,
            x,
            clearance: c,
        };
    }
    let next = Choice {
        reached: false,
        x,
        clearance: c,
    };
    match floats::total_cmp(c, choice.clearance) {
        Ordering::Less => choice,
        Ordering::Equal => next,
        Ordering::Greater => next,
    }
}

// What the tries need: the first candidate and the bounds, the distance, which is the step too, the side's sign, and the height of the place.
#[derive(Clone, Copy)]
struct Search {
    first: f32,
    min: f32,
    max: f32,
    distance: f32,
    sign: f32,
    y: f32,
}

// The choice after the try j, which may have no candidate.
fn after_try(
    choice: Choice,
    search: Search,
    home: Team,
    away: Team,
    side: Side,
    number: u8,
    earlier: Earlier<'_>,
    j: u16,
) -> Choice
    ensures { result ≡ Walk.after_try search (occupied home away side number earlier.entry.xs.now earlier.entry.ys.now) j choice }
{
    let x = tries::candidate_at(search.first, search.distance, j);
    if tries::is_candidate(search.min, search.max, j, x) {
        let c = clearance::clearance(home, away, side, number, earlier, search.sign * x, search.y);
        return considered(choice, search.distance, x, c);
    }
    choice
}

// The choice after so many tries, or after the first that reaches the distance.
fn walk(
    start: Choice,
    search: Search,
    home: Team,
    away: Team,
    side: Side,
    number: u8,
    earlier: Earlier<'_>,
    tries: u16,
) -> Choice
    ensures { result ≡ fold_to tries (Walk.after_try search (occupied home away side number earlier.entry.xs.now earlier.entry.ys.now)) start }
{
    let mut choice = start;
    for j in 0..tries {
        if choice.reached {
            return choice;
        }
        choice = after_try(choice, search, home, away, side, number, earlier, j);
    }
    choice
}

// The team's x that is taken: the first candidate that reaches the distance, otherwise the last of those with the most space.
fn team_place(
    field: FieldDimensions,
    radius: f32,
    distance: f32,
    sign: f32,
    y: f32,
    home: Team,
    away: Team,
    side: Side,
    number: u8,
    earlier: Earlier<'_>,
) -> f32
    ensures { result ≡ Spec.team_place field radius distance (Spec.clear_from sign y (occupied home away side number earlier.entry.xs.now earlier.entry.ys.now)) }
{
    let start = -(field.length * 0.5 - field.penalty_mark_distance);
    let min = -field.length * 0.5 + radius;
    let max = -radius;
    let span = Span {
        start,
        min,
        max,
        step: distance,
    };
    let first = span.candidate_first();
    let tries = span.candidate_tries();
    let c = clearance::clearance(home, away, side, number, earlier, sign * first, y);
    let reached = c >= distance;
    let search = Search {
        first,
        min,
        max,
        distance,
        sign,
        y,
    };
    let choice = Choice {
        reached,
        x: first,
        clearance: c,
    };
    let taken = walk(choice, search, home, away, side, number, earlier, tries);
    taken.x
}

// The place of a penalized player at the edge of the carpet; none where the lists of earlier places differ in length, which is refused before.
pub fn place_for_penalty(
    game: Game,
    field: FieldDimensions,
    distance: f32,
    home: Team,
    away: Team,
    earlier: Earlier<'_>,
    side: Side,
    number: u8,
) -> Placement
    ensures { result ≡ Spec.place_for_penalty game.sides field distance home away earlier.entry.xs.now earlier.entry.ys.now side number }
{
    let xs = earlier.xs;
    let ys = earlier.ys;
    if xs.len() != ys.len() {
        return Placement::NoPlace;
    }
    let player = match side {
        Side::Home => game::player_numbered(home, number),
        Side::Away => game::player_numbered(away, number),
    };
    let pose = player.pose;
    match pose {
        None => Placement::NoPlace,
        Some(p) => {
            let sides = game.sides;
            let sign = geometry::side_to_sign(side, sides);
            let y = floats::copysign(field.width * 0.5 + field.border_strip_width - p.radius, p.y);
            let team_x = team_place(
                field, p.radius, distance, sign, y, home, away, side, number, earlier,
            );
            let theta = if y > 0.0 { -PI * 0.5 } else { PI * 0.5 };
            Placement::PlayerAt {
                side,
                number,
                x: sign * team_x,
                y,
                theta,
            }
        }
    }
}

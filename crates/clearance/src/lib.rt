// How much space there is at a point, as place_for_penalty measures it.
#![tactic(auto)]

ghost use Rattle.std.specs.Prelude.{◌≡◌, map, ◌<◌};
ghost use Rattle.clearance.specs.Clearance as Spec;

use game::{Earlier, Player, Side, Team};

// The lesser of the least distance so far and that of one spot. One that is as far in a single direction is no nearer, so that its distance is not computed.
fn nearer(least: f32, dx: f32, dy: f32) -> f32
    ensures { result ≡ Spec.nearer least dx dy }
{
    let far = (floats::abs(dx) >= least) | (floats::abs(dy) >= least);
    if far {
        return least;
    }
    floats::min(least, hypot::hypot(dx, dy))
}

// The least distance after the player at the place i, which the one with the number skip does not change.
fn near_player(least: f32, player: Player, skip: u8, i: usize, x: f32, y: f32) -> f32
    requires { i < 20 }
    ensures { result ≡ Spec.near_player player skip x y i least }
{
    let pose = player.pose;
    let number = (i + 1) as u8;
    if number == skip {
        return least;
    }
    match pose {
        None => least,
        Some(p) => nearer(least, p.x - x, p.y - y),
    }
}

// The least distance after a team.
fn near_team(least: f32, team: Team, skip: u8, x: f32, y: f32) -> f32
    ensures { result ≡ Spec.least_of least (map (Spec.distance_from x y) (Spec.team_spots team skip)) }
{
    let players = team.players;
    let mut acc = least;
    for i in 0..20 {
        let player = players[i];
        acc = near_player(acc, player, skip, i, x, y);
    }
    acc
}

// The least distance after the earlier places.
fn near_places(least: f32, earlier: Earlier<'_>, x: f32, y: f32) -> f32
    ensures { result ≡ Spec.least_of least (map (Spec.distance_from x y) (Spec.earlier_spots earlier.entry.xs.now earlier.entry.ys.now)) }
{
    let xs = earlier.xs;
    let ys = earlier.ys;
    let n = xs.len().min(ys.len());
    let mut acc = least;
    for k in 0..n {
        acc = nearer(acc, xs[k] - x, ys[k] - y);
    }
    acc
}

// The number to leave out of a team: the placed player's in its own, and 0, which no player has, in the other.
fn left_out(side: Side, number: u8, other: Side) -> u8
    ensures { result ≡ Spec.left_out side number other }
{
    if game::same_side(side, other) {
        return number;
    }
    0
}

// The distance from (x, y) to the nearest spot that is taken when the player with this number of a side is placed.
pub fn clearance(
    home: Team,
    away: Team,
    side: Side,
    number: u8,
    earlier: Earlier<'_>,
    x: f32,
    y: f32,
) -> f32
    ensures { result ≡ Spec.clearance (Spec.occupied home away side number earlier.entry.xs.now earlier.entry.ys.now) x y }
{
    let skip_home = left_out(side, number, Side::Home);
    let skip_away = left_out(side, number, Side::Away);
    let a = near_team(1.0 / 0.0, home, skip_home, x, y);
    let b = near_team(a, away, skip_away, x, y);
    near_places(b, earlier, x, y)
}

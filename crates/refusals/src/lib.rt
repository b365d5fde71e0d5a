// What is no situation that can be judged: refusals 1 to 5 of document 01, the lowest number first.
#![tactic(auto)]

ghost use Rattle.std.specs.Prelude.{◌≡◌};
ghost use Rattle.lists.specs.Refusals.{first_refusal};
ghost use Rattle.refusal.specs.Refusal.{unless_refused};
ghost use Rattle.refusals.specs.Refusals as Spec;

use game::{Earlier, FieldDimensions, Player, PlayerPose, Restart, Situation, Team, Wish};
use refusal::Refusal;

// From lo to hi. A NaN is not.
fn is_within(lo: f32, x: f32, hi: f32) -> bool
    ensures { result ≡ Spec.within lo x hi }
{
    (lo <= x) & (x <= hi)
}

fn is_size(x: f32) -> bool
    ensures { result ≡ Spec.is_size x }
{
    is_within(0.0, x, 64.0)
}

#[tactic(auto, unfolding(crate::specs::Refusals::field_fits))]
fn field_fits(f: FieldDimensions) -> bool
    ensures { result ≡ Spec.field_fits f }
{
    is_within(4.0, f.length, 64.0)
        & is_within(4.0, f.width, 64.0)
        & is_size(f.goal_width)
        & is_size(f.goal_height)
        & is_size(f.goal_area_length)
        & is_size(f.goal_area_width)
        & is_size(f.penalty_area_length)
        & is_size(f.penalty_area_width)
        & is_size(f.penalty_mark_distance)
        & is_size(f.center_circle_radius)
        & is_size(f.border_strip_width)
        & is_size(f.mark_radius)
        & is_within(0.0, f.line_width, 1.0)
        & is_size(f.ball_radius)
}

// At most 64 either way.
pub fn is_coordinate(x: f32) -> bool
    ensures { result ≡ Spec.is_coordinate x }
{
    is_within(-64.0, x, 64.0)
}

#[tactic(auto, unfolding(crate::specs::Refusals::pose_fits))]
fn pose_fits(p: PlayerPose) -> bool
    ensures { result ≡ Spec.pose_fits p }
{
    is_coordinate(p.x)
        & is_coordinate(p.y)
        & is_coordinate(p.theta)
        & ((0.0 < p.radius) & (p.radius <= 1.0))
}

fn maybe_pose_fits(pose: Option<PlayerPose>) -> bool
    ensures { result ≡ Spec.maybe_pose_fits pose }
{
    pose.is_none_or(pose_fits)
}

// By `&` of two tests: one `match` in the other has the test of a pose four times, and the loop over a team is then no longer compiled into its caller.
fn player_fits(p: Player) -> bool
    ensures { result ≡ Spec.player_fits p }
{
    let pose = p.pose;
    let reference = p.reference;
    maybe_pose_fits(pose) & maybe_pose_fits(reference) & is_coordinate(p.allowance)
}

fn team_fits(team: Team) -> bool
    ensures { result ≡ Spec.team_fits team }
{
    let players = team.players;
    let mut ok = true;
    for i in 0..20 {
        let player = players[i];
        ok = ok & player_fits(player);
    }
    ok
}

fn places_fit(places: &[f32]) -> bool
    ensures { result ≡ Spec.places_fit places.now }
{
    let mut ok = true;
    for i in 0..places.len() {
        ok = ok & is_coordinate(places[i]);
    }
    ok
}

fn is_player_number(n: u8) -> bool
    ensures { result ≡ Spec.is_player_number n }
{
    (game::MIN <= n) & (n <= game::MAX)
}

// Whether a number that may be missing is a player's where it is there.
pub fn number_fits(n: Option<u8>) -> bool
    ensures { result ≡ Spec.number_fits n }
{
    n.is_none_or(is_player_number)
}

fn restart_fits(restart: Option<Restart>) -> bool
    ensures { result ≡ Spec.restart_fits restart }
{
    restart.is_none_or(|r| number_fits(r.kicker))
}

fn wish_fits(wish: Wish) -> bool
    ensures { result ≡ Spec.wish_fits wish }
{
    match wish {
        Wish::ForPenalty(_, n) | Wish::ForPenaltyShot(_, n) => is_player_number(n),
        Wish::Nothing | Wish::BallAtRestart | Wish::BallInSet | Wish::Goalkeeper(_) => true,
    }
}

// The refusal of the first of the five that does not hold, where there is one.
pub fn first_failing(
    field: bool,
    poses: bool,
    ball: bool,
    numbers: bool,
    distance: bool,
) -> Result<(), Refusal>
    ensures { result ≡ unless_refused (first_refusal (Spec.five field poses ball numbers distance)) tt }
{
    if !field {
        return Err(Refusal::Field);
    }
    if !poses {
        return Err(Refusal::Pose);
    }
    if !ball {
        return Err(Refusal::Ball);
    }
    if !numbers {
        return Err(Refusal::Number);
    }
    if !distance {
        return Err(Refusal::Distance);
    }
    Ok(())
}

// The first refusal, where there is one.
#[tactic(auto, unfolding(crate::specs::Refusals::refusal_of, crate::specs::Refusals::requirements_of, crate::specs::Refusals::numbers_fit, crate::specs::Refusals::poses_fit, crate::specs::Refusals::lists_fit))]
pub fn refusal(s: Situation, earlier: Earlier<'_>) -> Result<(), Refusal>
    ensures { result ≡ unless_refused (Spec.refusal_of s earlier.entry.xs.now earlier.entry.ys.now) tt }
{
    let field = s.field;
    let home = s.home;
    let away = s.away;
    let ball = s.ball;
    let home_goalkeeper = home.goalkeeper;
    let away_goalkeeper = away.goalkeeper;
    let restart = s.restart;
    let wish = s.wish;
    let distance = s.penalty_placement_distance;
    let xs = earlier.xs;
    let ys = earlier.ys;
    let a = field_fits(field);
    let b = team_fits(home)
        & team_fits(away)
        & ((xs.len() == ys.len()) & (xs.len() <= 4096) & places_fit(xs) & places_fit(ys));
    let c = is_coordinate(ball.x) & is_coordinate(ball.y) & is_coordinate(ball.z);
    let d = number_fits(home_goalkeeper)
        & number_fits(away_goalkeeper)
        & restart_fits(restart)
        & wish_fits(wish);
    let e = (distance <= 0.0) | (0.015625 <= distance);
    first_failing(a, b, c, d, e)
}

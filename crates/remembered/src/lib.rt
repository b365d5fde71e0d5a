// What is remembered of the players of a side between frames, and what a frame makes of it.
#![tactic(auto)]

ghost use Rattle.std.specs.Prelude.{◌≡◌};
ghost use Rattle.remembered.specs.Remembered as Spec;

use game::{Ball, FieldDimensions, Game, Margins, Player, PlayerPose, Side, Team};

// How much further than when it was unpenalised a returning player may be beyond the edge of the carpet.
const RETURN_TOLERANCE: f32 = 0.05;

// Of one player: it has been penalised and not been on the field since; its allowance, how far it was beyond the edge of the carpet when it was unpenalised, where it has been seen so; it has been outside the avoidance region since the set play began; it was inside its goal area in the last
// frame; it was present there.
#[derive(Clone, Copy)]
pub struct Remembered {
    pub returning: bool,
    pub return_allowance: Option<f32>,
    pub left_avoidance: bool,
    pub in_goal_area: bool,
    pub present: bool,
}

// Whether a player is there and a part of it is on the field of play.
fn is_on_field_of_play(pose: Option<PlayerPose>, field: FieldDimensions) -> bool
    ensures { result ≡ Spec.is_on_field_of_play pose field }
{
    pose.is_some_and(|p| !geometry::is_outside_field(p, field))
}

// How far a player is beyond the edge of the carpet, at least 0; none where it is absent.
fn allowance_at(pose: Option<PlayerPose>, field: FieldDimensions) -> Option<f32>
    ensures { result ≡ Spec.allowance_at pose field }
{
    pose.map(|p| floats::max(geometry::carpet_excess(p, field), 0.0))
}

// Whether a player is returning from a penalty, and its allowance.
#[tactic(auto, unfolding(crate::specs::Remembered::update_returning))]
fn update_returning(field: FieldDimensions, player: Player, r: Remembered) -> Remembered
    ensures { result ≡ Spec.update_returning field player r }
{
    if !game::is_unpenalized(player.penalty) {
        return Remembered {
            returning: true,
            return_allowance: None,
            ..r
        };
    }
    if is_on_field_of_play(player.pose, field) {
        return Remembered {
            returning: false,
            return_allowance: None,
            ..r
        };
    }
    if r.returning & r.return_allowance.is_none() {
        return Remembered {
            return_allowance: allowance_at(player.pose, field),
            ..r
        };
    }
    r
}

// Whether a player has been outside the avoidance region, once a frame is seen; `left` tells whether it had before. While the region is not in effect nobody can leave it.
fn update_avoidance(
    active: bool,
    game: Game,
    field: FieldDimensions,
    ball: Ball,
    side: Side,
    player: Player,
    margins: Option<Margins>,
    left: bool,
) -> bool
    ensures { result ≡ Spec.left_avoidance active game field ball side player margins left }
{
    if active {
        let inside = avoidance::is_in_avoidance_region(game, field, ball, side, player, margins);
        return left | !inside;
    }
    left
}

// What a frame makes of what is remembered of a player; `begun` tells that a set play has just begun.
#[tactic(auto, unfolding(crate::specs::Remembered::framed_player, crate::specs::Remembered::update_returning))]
fn framed_player(
    begun: bool,
    active: bool,
    game: Game,
    field: FieldDimensions,
    ball: Ball,
    side: Side,
    player: Player,
    margins: Option<Margins>,
    r: Remembered,
) -> Remembered
    ensures { result ≡ Spec.framed_player begun active game field ball side player margins r }
{
    let before = r.left_avoidance & !begun;
    let left = update_avoidance(active, game, field, ball, side, player, margins, before);
    Remembered {
        left_avoidance: left,
        present: game::is_present(player.pose),
        ..update_returning(field, player, r)
    }
}

// What a frame makes of what is remembered of a side's players, as observe, detect_movement, update_returning and update_avoidance one after the other: no player's part of one depends on another
// player, so that one walk does for all four.
pub fn framed_players(
    begun: bool,
    game: Game,
    field: FieldDimensions,
    ball: Ball,
    side: Side,
    team: Team,
    margins: [Option<Margins>; 20],
    remembered: [Remembered; 20],
) -> [Remembered; 20]
    ensures { result ≡ Spec.framed_players begun game field ball side team margins remembered }
{
    let active = avoidance::is_avoidance_region_active(game);
    let players = team.players;
    let mut out = remembered;
    for i in 0..20 {
        let player = players[i];
        let known = margins[i];
        let r = remembered[i];
        out[i] = framed_player(begun, active, game, field, ball, side, player, known, r);
    }
    out
}

// How far beyond the edge of the carpet a player may be: what is remembered and a tolerance, or nothing.
fn tolerated(allowance: Option<f32>) -> f32
    ensures { result ≡ Spec.tolerated allowance }
{
    allowance.map_or(0.0, |a| a + RETURN_TOLERANCE)
}

// A player with what is remembered of it in place of what the frame says.
fn judged_player(player: Player, r: Remembered) -> Player
    ensures { result ≡ Spec.judged_player player r }
{
    Player {
        allowance: tolerated(r.return_allowance),
        previously_inside: r.in_goal_area,
        ..player
    }
}

// A team whose players are each changed by what is remembered of it.
fn mapped_team<F: Fn(Player, Remembered) -> Player>(
    team: Team,
    remembered: [Remembered; 20],
    change: F,
) -> Team
    requires { F.IsAlwaysCallable change }
    ensures { (by : _) → Spec.Gives (F.post change) by → result ≡ Spec.mapped_team by team remembered }
{
    let mut players = team.players;
    for i in 0..20 {
        let player = players[i];
        let r = remembered[i];
        players[i] = change(player, r);
    }
    Team { players, ..team }
}

// A team with what is remembered of its players in place of what the frame says: allowances and who was inside.
pub fn judged_team(team: Team, remembered: [Remembered; 20]) -> Team
    ensures { result ≡ Spec.judged_team team remembered }
{
    mapped_team(team, remembered, judged_player)
}

// A player as it was in the last frame, of which only its presence is remembered; the penalty is the frame's own.
fn last_seen_player(player: Player, r: Remembered) -> Player
    ensures { result ≡ Spec.last_seen_player player r }
{
    let there = PlayerPose {
        x: 0.0,
        y: 0.0,
        theta: 0.0,
        radius: 0.0,
    };
    Player {
        pose: r.present.then_some(there),
        ..player
    }
}

// A team as it was in the last frame, for the count of its players on the field: those present there, by the frame's own penalties.
pub fn last_seen_team(team: Team, remembered: [Remembered; 20]) -> Team
    ensures { result ≡ Spec.last_seen_team team remembered }
{
    mapped_team(team, remembered, last_seen_player)
}

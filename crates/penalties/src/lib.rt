// Who is penalised in a frame, for leaving the field or for an illegal position.
#![tactic(auto)]

ghost use Rattle.std.specs.Prelude.{◌≡◌};
ghost use Rattle.penalties.specs.Penalties as Spec;

use game::{
    FieldDimensions, Game, Margins, Player, PlayerList, PlayerPose, Positioning, State, Team,
};
use remembered::Remembered;

// What a player is penalised for.
#[derive(Clone, Copy, PartialEq, Eq)]
pub enum PlayerCall {
    LeavingTheField,
    IllegalPosition,
}

// What asking of a player gives: its call, if any, and the kicking player after it, who may be named on the way.
#[derive(Clone, Copy)]
struct Asked {
    call: Option<PlayerCall>,
    kicking_player: Option<u8>,
}

// The calls on a side's players, and the kicking player after them.
#[derive(Clone, Copy)]
pub struct Penalized {
    pub calls: [Option<PlayerCall>; 20],
    pub kicking_player: Option<u8>,
}

// Whether a player is there and no part of it is on the field of play.
fn is_seen_outside(pose: Option<PlayerPose>, field: FieldDimensions) -> bool
    ensures { result ≡ Spec.is_seen_outside pose field }
{
    pose.is_some_and(|p| geometry::is_outside_field(p, field))
}

// Whether a player is outside the field in Set, where it must be on it unless it is still returning from a penalty.
fn is_outside_in_set(game: Game, field: FieldDimensions, player: Player, returning: bool) -> bool
    ensures { result ≡ Spec.is_outside_in_set game field player returning }
{
    let shootout = game::is_shootout(game.phase);
    let set = game::is_set(game.state);
    let unpenalized = game::is_unpenalized(player.penalty);
    let outside = is_seen_outside(player.pose, field);
    !shootout & set & unpenalized & !returning & outside
}

// The call for a position that is illegal, none for another.
fn position_call(illegal: bool) -> Option<PlayerCall>
    ensures { result ≡ Spec.position_call illegal }
{
    illegal.then_some(PlayerCall::IllegalPosition)
}

// The kicking player once a player that may stand there only as the kicker is asked: in Playing the first such player is it where nobody has been named.
fn first_kicker(state: State, number: u8, kicking_player: Option<u8>) -> Option<u8>
    ensures { result ≡ Spec.first_kicker (Spec.is_playing state) number kicking_player }
{
    let asked = game::is_playing(state).then_some(number);
    kicking_player.or(asked)
}

// The call for a verdict on the position, and the kicking player after it. Who was in the avoidance region when the set play began has some time to leave it.
fn judged_position(
    state: State,
    verdict: Positioning,
    left_avoidance: bool,
    grace_over: bool,
    number: u8,
    kicking_player: Option<u8>,
) -> Asked
    ensures { result ≡ Spec.judged_position state verdict left_avoidance grace_over number kicking_player }
{
    match verdict {
        Positioning::Legal => Asked {
            call: None,
            kicking_player,
        },
        Positioning::Illegal => Asked {
            call: position_call(true),
            kicking_player,
        },
        Positioning::IllegalUnlessKicker => {
            let kicker = first_kicker(state, number, kicking_player);
            let may_kick = game::is_number(kicker, number);
            Asked {
                call: position_call(!may_kick),
                kicking_player: kicker,
            }
        }
        Positioning::InAvoidanceRegion => Asked {
            call: position_call(left_avoidance | grace_over),
            kicking_player,
        },
    }
}

// Asks one player: for leaving the field, then for its position. Who leaves or is in excess in its goal area is not asked for the verdict, and so is not named as the kicker.
#[tactic(auto, unfolding(crate::specs::Penalties::asked_player))]
fn asked_player(
    game: Game,
    field: FieldDimensions,
    player: Player,
    r: Remembered,
    verdict: Positioning,
    in_excess: bool,
    grace_over: bool,
    number: u8,
    kicking_player: Option<u8>,
) -> Asked
    ensures { result ≡ Spec.asked_player game field player r verdict in_excess grace_over number kicking_player }
{
    let outside = is_outside_in_set(game, field, player, r.returning);
    if geometry::is_leaving_the_field(player, field, player.allowance) {
        return Asked {
            call: Some(PlayerCall::LeavingTheField),
            kicking_player,
        };
    }
    if in_excess | outside {
        return Asked {
            call: Some(PlayerCall::IllegalPosition),
            kicking_player,
        };
    }
    judged_position(
        game.state,
        verdict,
        r.left_avoidance,
        grace_over,
        number,
        kicking_player,
    )
}

// Whether a number is in a list of players.
fn is_listed(list: PlayerList, number: u8) -> bool
    ensures { result ≡ Spec.is_listed list number }
{
    let numbers = list.numbers;
    let mut found = false;
    for i in 0..20 {
        found = found | ((i < list.count) & (numbers[i] == number));
    }
    found
}

// Which of a side's players are in a list, by their places.
fn listed_flags(list: PlayerList) -> [bool; 20]
    ensures { result ≡ Spec.listed_flags list }
{
    let mut out = [false; 20];
    if list.count == 0 {
        return out;
    }
    for i in 0..20 {
        out[i] = is_listed(list, (i + 1) as u8);
    }
    out
}

// Penalises a side's players, one after the other, by the verdicts and the excess of the frame's decision. The team has the allowances that are judged by.
pub fn penalize_players(
    game: Game,
    field: FieldDimensions,
    team: Team,
    verdicts: [Positioning; 20],
    excess: PlayerList,
    remembered: [Remembered; 20],
    grace_over: bool,
    kicking_player: Option<u8>,
) -> Penalized
    ensures { result ≡ Spec.penalize_players game field team verdicts excess remembered grace_over kicking_player }
{
    let players = team.players;
    let in_excess = listed_flags(excess);
    let mut calls = [None; 20];
    let mut kicker = kicking_player;
    for i in 0..20 {
        let player = players[i];
        let r = remembered[i];
        let verdict = verdicts[i];
        let number = (i + 1) as u8;
        let asked = asked_player(
            game,
            field,
            player,
            r,
            verdict,
            in_excess[i],
            grace_over,
            number,
            kicker,
        );
        calls[i] = asked.call;
        kicker = asked.kicking_player;
    }
    Penalized {
        calls,
        kicking_player: kicker,
    }
}

// What is remembered of a player once it is known whether it is in its goal area.
fn inside_player(player: Player, margins: Option<Margins>, r: Remembered) -> Remembered
    ensures { result ≡ Spec.inside_player player margins r }
{
    let unpenalized = game::is_unpenalized(player.penalty);
    let inside = margins.is_some_and(|m| m.own_goal_area >= 0.0);
    Remembered {
        in_goal_area: unpenalized & inside,
        ..r
    }
}

// What is remembered of a side's players once it is known who is in the goal area.
pub fn inside_players(
    team: Team,
    margins: [Option<Margins>; 20],
    remembered: [Remembered; 20],
) -> [Remembered; 20]
    ensures { result ≡ Spec.inside_players team margins remembered }
{
    let players = team.players;
    let mut out = remembered;
    for i in 0..20 {
        let player = players[i];
        let known = margins[i];
        let r = remembered[i];
        out[i] = inside_player(player, known, r);
    }
    out
}

// The Restart record that is in effect: what a touch of the ball, a change of the game and the way of the ball make of it.
#![tactic(auto)]

ghost use Rattle.std.specs.Prelude.{◌≡◌};
ghost use Rattle.restarts.specs.Restarts as Spec;

use game::{Ball, FieldDimensions, Game, Restart, RestartKind, SetPlay, Side, State};

// The distance the ball must have moved after a kick to have clearly moved.
const BALL_CLEARLY_MOVED_DISTANCE: f32 = 0.1;

// What a touch of the ball has called: the end of the penalty shot, or an indirect free kick and the side that takes it.
#[derive(Clone, Copy, PartialEq, Eq)]
pub enum TouchCall {
    PenaltyShotEnded,
    IndirectFreeKick(Side),
}

// The restart after a touch, and what is called for it, if anything.
#[derive(Clone, Copy)]
pub struct TouchedRestart {
    pub restart: Option<Restart>,
    pub call: Option<TouchCall>,
}

// How far the ball is from where it was kicked.
fn kick_distance(r: Restart, ball: Ball) -> f32
    ensures { result ≡ Spec.kick_distance r ball }
{
    hypot::hypot(ball.x - r.kick_x, ball.y - r.kick_y)
}

// Whether the ball is outside the center circle.
fn is_outside_circle(field: FieldDimensions, ball: Ball) -> bool
    ensures { result ≡ Spec.is_outside_circle field ball }
{
    hypot::hypot(ball.x, ball.y) > field.center_circle_radius + field.ball_radius
}

// After the first touch by the side that takes the restart: this is the kick.
#[tactic(auto, unfolding(crate::specs::Restarts::kick_taken))]
fn kick_taken(r: Restart, number: u8, field: FieldDimensions, ball: Ball) -> Restart
    ensures { result ≡ Spec.kick_taken r number field ball }
{
    let outside = is_outside_circle(field, ball);
    Restart {
        kicker: Some(number),
        kick_x: ball.x,
        kick_y: ball.y,
        kicker_touched_outside_center_circle: r.kicker_touched_outside_center_circle | outside,
        ..r
    }
}

// After another touch by the kicker, whose side has so many players on the field.
#[tactic(auto, unfolding(crate::specs::Restarts::touched_again))]
fn touched_again(r: Restart, field: FieldDimensions, ball: Ball, players: usize) -> Restart
    ensures { result ≡ Spec.touched_again r field ball players }
{
    let outside = is_outside_circle(field, ball);
    let from_kick = kick_distance(r, ball);
    let far = (players <= 2) & (from_kick >= 2.0 * field.center_circle_radius);
    Restart {
        kicker_touched_outside_center_circle: r.kicker_touched_outside_center_circle | outside,
        kicker_touched_far_from_kick: r.kicker_touched_far_from_kick | far,
        ..r
    }
}

// After a touch by anybody else.
#[tactic(auto, unfolding(crate::specs::Restarts::touched_by_other))]
fn touched_by_other(r: Restart) -> Restart
    ensures { result ≡ Spec.touched_by_other r }
{
    Restart {
        other_touch: true,
        ..r
    }
}

// After a touch by the player with this number, of the side that takes the restart or not.
#[tactic(auto, unfolding(crate::specs::Restarts::after_touch))]
fn after_touch(
    r: Restart,
    own: bool,
    number: u8,
    field: FieldDimensions,
    ball: Ball,
    players: usize,
) -> Restart
    ensures { result ≡ Spec.after_touch r own number field ball players }
{
    match r.kicker {
        None if own => kick_taken(r, number, field, ball),
        Some(k) if own & (k == number) => touched_again(r, field, ball, players),
        _ => touched_by_other(r),
    }
}

// Whether the touch is the kicker's second, before anybody else's and after the ball has clearly moved.
#[tactic(auto, unfolding(crate::specs::Restarts::is_second_touch))]
fn is_second_touch(r: Restart, own: bool, number: u8) -> bool
    ensures { result ≡ Spec.is_second_touch r own number }
{
    let is_kicker = r.kicker == Some(number);
    own & is_kicker & (!r.other_touch & r.ball_moved_since_kick)
}

// Whether the kicker of a restart from this set play may not touch the ball twice.
fn forbids_second_touch(set_play: SetPlay) -> bool
    ensures { result ≡ Spec.forbids_second_touch set_play }
{
    matches!(
        set_play,
        SetPlay::ThrowIn | SetPlay::GoalKick | SetPlay::CornerKick
    )
}

// Whether the opponents get an indirect free kick for the second touch.
fn is_double_touch(game: Game, set_play: SetPlay, players: usize) -> bool
    ensures { result ≡ Spec.is_double_touch game set_play players }
{
    let forbidden = forbids_second_touch(set_play);
    let shootout = game::is_shootout(game.phase);
    let playing = game::is_playing(game.state);
    forbidden & !shootout & playing & (players >= 3)
}

// After a second touch, where `next` is the record after it: a penalty shot ends, a double touch lifts the restart.
#[tactic(auto, unfolding(crate::specs::Restarts::after_second_touch))]
fn after_second_touch(game: Game, next: Restart, side: Side, players: usize) -> TouchedRestart
    ensures { result ≡ Spec.after_second_touch game next side players }
{
    let doubled = is_double_touch(game, next.set_play, players);
    if next.kind == RestartKind::PenaltyShot {
        let call = Some(TouchCall::PenaltyShotEnded);
        return TouchedRestart {
            restart: Some(next),
            call,
        };
    }
    if doubled {
        let call = Some(TouchCall::IndirectFreeKick(game::opponent(side)));
        return TouchedRestart {
            restart: None,
            call,
        };
    }
    TouchedRestart {
        restart: Some(next),
        call: None,
    }
}

// A new touch of the ball, as ball_contact: by the player of a side with a number, where the ball was in the last frame, and so many players of the side were on the field there.
#[tactic(auto, unfolding(crate::specs::Restarts::touched_restart))]
pub fn touched(
    game: Game,
    field: FieldDimensions,
    ball: Ball,
    side: Side,
    number: u8,
    players: usize,
    restart: Option<Restart>,
) -> TouchedRestart
    ensures { result ≡ Spec.touched_restart game field ball side number players restart }
{
    let Some(r) = restart else {
        return TouchedRestart {
            restart,
            call: None,
        };
    };
    let own = side == r.side;
    let next = after_touch(r, own, number, field, ball, players);
    if is_second_touch(r, own, number) {
        return after_second_touch(game, next, side, players);
    }
    TouchedRestart {
        restart: Some(next),
        call: None,
    }
}

// The kind of the restart that a set play begins.
fn kind_of(set_play: SetPlay) -> RestartKind
    ensures { result ≡ Spec.kind_of set_play }
{
    match set_play {
        SetPlay::NoSetPlay => RestartKind::Direct,
        SetPlay::KickOff => RestartKind::KickOff,
        SetPlay::DirectFreeKick => RestartKind::Direct,
        SetPlay::IndirectFreeKick => RestartKind::Indirect,
        SetPlay::PenaltyKick => RestartKind::Direct,
        SetPlay::ThrowIn => RestartKind::Indirect,
        SetPlay::GoalKick => RestartKind::Direct,
        SetPlay::CornerKick => RestartKind::Direct,
    }
}

// A restart that begins for the kicking side, none without one. Nobody has touched the ball.
fn begun_for(kicking_side: Option<Side>, kind: RestartKind, set_play: SetPlay) -> Option<Restart>
    ensures { result ≡ Spec.begun_for kicking_side kind set_play }
{
    kicking_side.map(|side| Restart {
        kind,
        set_play,
        side,
        kicker: None,
        kick_x: 0.0,
        kick_y: 0.0,
        other_touch: false,
        kicker_touched_outside_center_circle: false,
        kicker_touched_far_from_kick: false,
        ball_moved_since_kick: false,
    })
}

// Whether a restart is in effect and nobody has kicked.
fn is_unkicked(restart: Option<Restart>) -> bool
    ensures { result ≡ Spec.is_unkicked restart }
{
    restart.is_some_and(|r| r.kicker.is_none())
}

// Whether a restart can be in effect in a state.
fn has_restarts(state: State) -> bool
    ensures { result ≡ Spec.has_restarts state }
{
    matches!(state, State::Ready | State::Set | State::Playing)
}

// Where a set play has just begun.
fn after_begun(begun: bool, game: Game, restart: Option<Restart>) -> Option<Restart>
    ensures { result ≡ Spec.after_begun begun game restart }
{
    if begun {
        let set_play = game.set_play;
        return begun_for(game.kicking_side, kind_of(set_play), set_play);
    }
    restart
}

// Where a set play has just ended: one that nobody has kicked has failed, which lifts all restrictions.
fn after_ended(ended: bool, game: Game, restart: Option<Restart>) -> Option<Restart>
    ensures { result ≡ Spec.after_ended ended game restart }
{
    let playing = game::is_playing(game.state);
    let unkicked = is_unkicked(restart);
    if ended & playing & unkicked {
        return None;
    }
    restart
}

// What the changes of the game since the last frame make of the restart, as observe.
#[tactic(auto, unfolding(crate::specs::Restarts::observed_restart))]
pub fn observed(
    game: Game,
    begun: bool,
    ended: bool,
    set_begun: bool,
    restart: Option<Restart>,
) -> Option<Restart>
    ensures { result ≡ Spec.observed_restart game begun ended set_begun restart }
{
    let shootout = game::is_shootout(game.phase);
    let first = after_begun(begun, game, restart);
    let second = after_ended(ended, game, first);
    if set_begun & shootout {
        return begun_for(
            game.kicking_side,
            RestartKind::PenaltyShot,
            SetPlay::NoSetPlay,
        );
    }
    if has_restarts(game.state) {
        return second;
    }
    None
}

// What the way of the ball since the kick makes of the restart, as track_ball.
#[tactic(auto, unfolding(crate::specs::Restarts::tracked_restart))]
pub fn tracked(restart: Option<Restart>, ball: Ball) -> Option<Restart>
    ensures { result ≡ Spec.tracked_restart restart ball }
{
    let r = restart?;
    if r.kicker.is_none() {
        return restart;
    }
    let distance = kick_distance(r, ball);
    let moved = distance > BALL_CLEARLY_MOVED_DISTANCE;
    Some(Restart {
        ball_moved_since_kick: r.ball_moved_since_kick | moved,
        ..r
    })
}

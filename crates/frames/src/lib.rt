// Playing frames in a row: what is kept between frames, and what a frame and a touch of the ball make of it.
#![tactic(auto)]

ghost use Rattle.std.specs.Prelude.{◌≡◌};
ghost use Rattle.refusal.specs.Refusal.{unless_refused, number_in};
ghost use Rattle.frames.specs.Frames as Spec;

use game::{Ball, Decision, Earlier, Margins, Restart, SetPlay, Side, Situation};
use penalties::PlayerCall;
use refusal::Refusal;
use remembered::Remembered;
use restarts::TouchCall;

// What is kept between frames for positioning: of each player, the player that may take the kick-off or penalty kick, the restart that is in effect, and where the ball was in the last frame.
#[derive(Clone, Copy)]
pub struct Memory {
    pub home: [Remembered; 20],
    pub away: [Remembered; 20],
    pub kicking_player: Option<u8>,
    pub restart: Option<Restart>,
    pub ball: Ball,
}

// A touch of the ball, by a player of a side: one that goes on from the frame before, or a new one.
#[derive(Clone, Copy, PartialEq, Eq)]
pub struct Touch {
    pub side: Side,
    pub number: u8,
    pub is_new: bool,
}

// What has happened since the last frame, beside what the frame itself shows.
#[derive(Clone, Copy)]
pub struct Events {
    pub grace_over: bool,
    pub set_play_begun: bool,
    pub set_play_ended: bool,
    pub set_begun: bool,
    pub touch: Option<Touch>,
}

// The calls of a frame, in their order: that of the touch, those on Home's players and those on Away's.
#[derive(Clone, Copy)]
pub struct Calls {
    pub touch: Option<TouchCall>,
    pub home: [Option<PlayerCall>; 20],
    pub away: [Option<PlayerCall>; 20],
}

// The memory after a touch, and what is called for it, if anything.
#[derive(Clone, Copy)]
pub struct Touched {
    pub memory: Memory,
    pub call: Option<TouchCall>,
}

// What a frame gives: the next memory, the calls and the decision.
#[derive(Clone, Copy)]
pub struct Framed {
    pub memory: Memory,
    pub calls: Calls,
    pub decision: Decision,
}

// A frame with the margins of both sides' players in it.
#[derive(Clone, Copy)]
struct Measured {
    s: Situation,
    home_margins: [Option<Margins>; 20],
    away_margins: [Option<Margins>; 20],
    ghost measured: { Spec.AreMargins s home_margins away_margins },
}

// What is remembered of a side's players.
fn remembered_of(memory: Memory, side: Side) -> [Remembered; 20]
    ensures { result ≡ Spec.remembered_of memory side }
{
    match side {
        Side::Home => memory.home,
        Side::Away => memory.away,
    }
}

// How many players of a side were on the field in the last frame, by this frame's penalties. It is the count of the ball judgment, of the team as it was last seen.
fn players_before(memory: Memory, s: Situation, side: Side) -> usize
    ensures { result ≡ Spec.players_before memory s side }
{
    let team = game::team_of(s, side);
    let players = remembered_of(memory, side);
    let last_seen = remembered::last_seen_team(team, players);
    counts::players_on_field(last_seen)
}

// Whether a set play has a kicking player.
fn has_kicking_player(set_play: SetPlay) -> bool
    ensures { result ≡ Spec.has_kicking_player set_play }
{
    matches!(set_play, SetPlay::KickOff | SetPlay::PenaltyKick)
}

// The kicking player, none once a set play has just begun.
fn kept_kicker(begun: bool, kicking_player: Option<u8>) -> Option<u8>
    ensures { result ≡ Spec.kept_kicker begun kicking_player }
{
    if begun {
        return None;
    }
    kicking_player
}

// The kicking player once Set has just begun: chosen anew for the side that kicks.
fn kicker_in_set(frame: Measured, kicking_player: Option<u8>) -> Option<u8>
    ensures { result ≡ Spec.kicker_in_set frame.s.game.kicking_side frame.s kicking_player }
{
    let s = frame.s;
    let game = s.game;
    if game.kicking_side.is_none() {
        return kicking_player;
    }
    let chosen = decision::kicking_player(
        game,
        s.home,
        s.away,
        s.field,
        frame.home_margins,
        frame.away_margins,
    )?;
    Some(chosen.number)
}

// The kicking player after the changes of the game.
#[tactic(auto, unfolding(crate::specs::Frames::observed_kicker))]
fn observed_kicker(
    frame: Measured,
    begun: bool,
    set_begun: bool,
    kicking_player: Option<u8>,
) -> Option<u8>
    ensures { result ≡ Spec.observed_kicker frame.s begun set_begun kicking_player }
{
    let s = frame.s;
    let game = s.game;
    let phase = game.phase;
    let set_play = game.set_play;
    let kept = kept_kicker(begun, kicking_player);
    let shootout = game::is_shootout(phase);
    let chosen = has_kicking_player(set_play);
    if set_begun & !shootout & chosen {
        return kicker_in_set(frame, kept);
    }
    kept
}

// The memory after the changes of the game and the frame's poses and ball, up to penalize_players.
#[tactic(auto, unfolding(crate::specs::Frames::update, crate::specs::Frames::update_avoidance, crate::specs::Frames::update_returning, crate::specs::Frames::track_ball, crate::specs::Frames::detect_movement, crate::specs::Frames::observe, remembered::specs::Remembered::framed_players))]
fn updated(memory: Memory, frame: Measured, events: Events) -> Memory
    ensures { result ≡ Spec.update frame.s events memory }
{
    let s = frame.s;
    let game = s.game;
    let field = s.field;
    let ball = s.ball;
    let state = game.state;
    let set_play = game.set_play;
    let on = set_play != SetPlay::NoSetPlay;
    let begun = events.set_play_begun & on;
    let ended = events.set_play_ended & !on;
    let set_begun = events.set_begun & game::is_set(state);
    let kicker = memory.kicking_player;
    let kicking_player = observed_kicker(frame, begun, set_begun, kicker);
    let before = memory.restart;
    let observed = restarts::observed(game, begun, ended, set_begun, before);
    let restart = restarts::tracked(observed, ball);
    let home_team = s.home;
    let away_team = s.away;
    let h = memory.home;
    let a = memory.away;
    let home = remembered::framed_players(
        begun,
        game,
        field,
        ball,
        Side::Home,
        home_team,
        frame.home_margins,
        h,
    );
    let away = remembered::framed_players(
        begun,
        game,
        field,
        ball,
        Side::Away,
        away_team,
        frame.away_margins,
        a,
    );
    Memory {
        home,
        away,
        kicking_player,
        restart,
        ball,
    }
}

// The side that touched the ball last.
fn contact_by(touch: Option<Touch>, last_contact: Option<Side>) -> Option<Side>
    ensures { result ≡ Spec.contact_by touch last_contact }
{
    touch.map(|t| t.side).or(last_contact)
}

// The frame as it is judged, by the memory as it is before penalize_players.
#[tactic(auto, unfolding(crate::specs::Frames::judged_frame))]
fn judged_frame(s: Situation, touch: Option<Touch>, memory: Memory) -> Situation
    ensures { result ≡ Spec.judged_frame s touch memory }
{
    Situation {
        home: remembered::judged_team(s.home, memory.home),
        away: remembered::judged_team(s.away, memory.away),
        last_contact: contact_by(touch, s.last_contact),
        restart: memory.restart,
        ..s
    }
}

// Penalises the players of both sides, Home first, by the decision on the frame as it is judged. The first side may name the kicking player.
#[tactic(auto, unfolding(crate::specs::Frames::penalize_players, crate::specs::Frames::penalize_side))]
fn penalized(
    frame: Measured,
    grace_over: bool,
    call: Option<TouchCall>,
    decision: Decision,
    memory: Memory,
) -> Framed
    ensures { result ≡ Spec.penalize_players frame.s grace_over call decision memory }
{
    let judged = frame.s;
    let game = judged.game;
    let field = judged.field;
    let home_team = judged.home;
    let away_team = judged.away;
    let h = memory.home;
    let a = memory.away;
    let kicker = memory.kicking_player;
    let hd = decision.home;
    let ad = decision.away;
    let hv = hd.verdicts;
    let he = hd.excess;
    let av = ad.verdicts;
    let ae = ad.excess;
    let hp = penalties::penalize_players(game, field, home_team, hv, he, h, grace_over, kicker);
    let named = hp.kicking_player;
    let ap = penalties::penalize_players(game, field, away_team, av, ae, a, grace_over, named);
    let home = penalties::inside_players(home_team, frame.home_margins, h);
    let away = penalties::inside_players(away_team, frame.away_margins, a);
    let next = Memory {
        home,
        away,
        kicking_player: ap.kicking_player,
        ..memory
    };
    let hc = hp.calls;
    let ac = ap.calls;
    let calls = Calls {
        touch: call,
        home: hc,
        away: ac,
    };
    Framed {
        memory: next,
        calls,
        decision,
    }
}

impl Memory {
    // The memory with which the original begins.
    #[tactic(auto, unfolding(crate::specs::Frames::new_memory))]
    pub fn new() -> Memory
        ensures { result ≡ Spec.new_memory }
    {
        let none = None;
        let nothing = Remembered {
            returning: false,
            return_allowance: none,
            left_avoidance: false,
            in_goal_area: false,
            present: false,
        };
        let players = [nothing; 20];
        let kicking_player = None;
        let restart = None;
        let ball = Ball {
            x: 0.0,
            y: 0.0,
            z: 0.0,
        };
        Memory {
            home: players,
            away: players,
            kicking_player,
            restart,
            ball,
        }
    }

    // A touch of the ball, as ball_contact: against the frame's own game, with the ball and the present players of the last frame. One that goes on changes nothing here.
    #[tactic(auto, unfolding(crate::specs::Frames::ball_contact))]
    pub fn touch(self, s: Situation, touch: Option<Touch>) -> Touched
        ensures { result ≡ Spec.ball_contact touch s self }
    {
        let Some(t) = touch.filter(|t| t.is_new) else {
            return Touched {
                memory: self,
                call: None,
            };
        };
        let side = t.side;
        let number = t.number;
        let players = players_before(self, s, side);
        let touched = restarts::touched(
            s.game,
            s.field,
            self.ball,
            side,
            number,
            players,
            self.restart,
        );
        let memory = Memory {
            restart: touched.restart,
            ..self
        };
        Touched {
            memory,
            call: touched.call,
        }
    }

    // A frame after its touch, as update up to penalize_players; what the touch called is handed on.
    #[tactic(auto, unfolding(crate::specs::Frames::frame_of))]
    pub fn frame(
        self,
        s: Situation,
        events: Events,
        earlier: Earlier<'_>,
        call: Option<TouchCall>,
    ) -> Framed
        ensures { result ≡ Spec.frame_of s events earlier.entry.xs.now earlier.entry.ys.now call self }
    {
        let game = s.game;
        let field = s.field;
        let home_team = s.home;
        let away_team = s.away;
        // As decision_of begins: a function of both sides would give two of Seen in a struct, which each caller takes apart again.
        let home_seen = seen::side_seen(game, field, Side::Home, home_team);
        let away_seen = seen::side_seen(game, field, Side::Away, away_team);
        let home_margins = home_seen.margins;
        let away_margins = away_seen.margins;
        let measured = Measured {
            s,
            home_margins,
            away_margins,
        };
        let next = updated(self, measured, events);
        let touch = events.touch;
        let judged = judged_frame(s, touch, next);
        let d = decision::decision_of(judged, earlier);
        let measured_again = Measured {
            s: judged,
            home_margins,
            away_margins,
        };
        penalized(measured_again, events.grace_over, call, d, next)
    }
}

// Who touches the ball.
fn toucher(touch: Option<Touch>) -> Option<u8>
    ensures { result ≡ Spec.toucher touch }
{
    touch.map(|t| t.number)
}

// The lower of two refusals, where there is one.
fn lower(a: Result<(), Refusal>, b: Result<(), Refusal>) -> Result<(), Refusal>
    ensures { result ≡ unless_refused (Spec.lower (number_in a) (number_in b)) tt }
{
    match (a, b) {
        (Err(x), Err(y)) => Err(x.min(y)),
        (Ok(()), told) => told,
        (told, Ok(())) => told,
    }
}

// The first refusal of a step, where there is one.
fn step_refusal(
    memory: Memory,
    s: Situation,
    events: Events,
    earlier: Earlier<'_>,
) -> Result<(), Refusal>
    ensures { result ≡ unless_refused (Spec.step_refusal memory s events earlier.entry.xs.now earlier.entry.ys.now) tt }
{
    let of_frame = refusals::refusal(s, earlier);
    let home = memory.home;
    let away = memory.away;
    let ball = memory.ball;
    let restart = memory.restart;
    let kicking_player = memory.kicking_player;
    let touch = events.touch;
    let number = toucher(touch);
    let of_memory = memory_fits::memory_refusal(home, away, ball, restart, kicking_player, number);
    lower(of_frame, of_memory)
}

// Plays one frame, a step: the touch, then the frame. Beside a refusal the memory stays as the caller has it.
pub fn play(
    memory: Memory,
    s: Situation,
    events: Events,
    earlier: Earlier<'_>,
) -> Result<Framed, Refusal>
    ensures { result ≡ Spec.played (Spec.step_of memory s events earlier.entry.xs.now earlier.entry.ys.now) }
{
    step_refusal(memory, s, events, earlier)?;
    let touch = events.touch;
    let touched = memory.touch(s, touch);
    let after = touched.memory;
    let call = touched.call;
    Ok(after.frame(s, events, earlier, call))
}

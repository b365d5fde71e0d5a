// Who has moved from its reference pose. It is asked in every state; when a robot may move is for the caller to know.
#![tactic(auto)]

ghost use Rattle.std.specs.Prelude.{◌≡◌};
ghost use Rattle.motion.specs.Motion as Spec;

use game::{Player, PlayerList, PlayerPose, Team};

// The distance a player must move.
const MOTION_DISTANCE: f32 = 0.1;

// The angle a player must turn.
const MOTION_ANGLE: f32 = 0.3;

// Whether an unpenalised player has moved from its reference pose.
pub fn has_moved(player: Player) -> bool
    ensures { result ≡ Spec.has_moved player }
{
    let unpenalized = game::is_unpenalized(player.penalty);
    let (Some(p), Some(q)) = (player.pose, player.reference) else {
        return false;
    };
    let distance = hypot::hypot(p.x - q.x, p.y - q.y);
    if distance > MOTION_DISTANCE {
        return unpenalized;
    }
    let angle = floats::abs(geometry::normalize_angle(p.theta - q.theta));
    unpenalized & (angle > MOTION_ANGLE)
}

// Which of a team's players have moved.
fn moved_flags(team: Team) -> [bool; 20]
    ensures { result ≡ Spec.moved_flags team }
{
    let players = team.players;
    let mut out = [false; 20];
    for i in 0..20 {
        let player = players[i];
        out[i] = has_moved(player);
    }
    out
}

// What motion gives for a team: the numbers of the players that have moved, ascending, and the reference poses after that.
#[derive(Clone, Copy)]
pub struct Motion {
    pub moved: PlayerList,
    pub references: [Option<PlayerPose>; 20],
}

// The reference pose of one player after it was checked: none once it has moved.
fn reference_after(player: Player, moved: bool) -> Option<PlayerPose>
    ensures { result ≡ Spec.reference_unless moved player }
{
    if moved { None } else { player.reference }
}

// The reference poses of a team's players after they were checked.
fn references_after(team: Team, moved: [bool; 20]) -> [Option<PlayerPose>; 20]
    ensures { result ≡ Spec.references_unless moved team }
{
    let players = team.players;
    let mut out = [None; 20];
    for i in 0..20 {
        let player = players[i];
        out[i] = reference_after(player, moved[i]);
    }
    out
}

// Who of a team has moved, and the reference poses after that, as check_motion.
pub fn check_motion(team: Team) -> Motion
    ensures { result ≡ Spec.check_motion team }
{
    let flags = moved_flags(team);
    let moved = game::numbers_where(flags);
    let references = references_after(team, flags);
    Motion { moved, references }
}

// The used types of types.rs and lib.rs: the situation that a decision is asked of, and the decision. Everything goes by value.
// What may be missing is an Option. An enum with a case of its own for nothing has it first, so that it is the value past the end of an array.
#![tactic(auto)]

ghost use Rattle.std.specs.Prelude.{◌≡◌, false, ◌<◌, get_or};
ghost use Rattle.game.specs.Codes.{side_code};
ghost use Rattle.game.specs.Game as Spec;
ghost use Rattle.game.specs.Players as Players;

// The team listed first on the schedule, and the other.
#[derive(Clone, Copy, PartialEq, Eq)]
pub enum Side {
    Home,
    Away,
}

// Which goal the home team defends. The left goal is at positive x.
#[derive(Clone, Copy, PartialEq, Eq)]
pub enum SideMapping {
    HomeDefendsLeftGoal,
    HomeDefendsRightGoal,
}

#[derive(Clone, Copy, PartialEq, Eq)]
pub enum Phase {
    FirstHalf,
    SecondHalf,
    FirstExtraHalf,
    SecondExtraHalf,
    PenaltyShootout,
}

#[derive(Clone, Copy, PartialEq, Eq)]
pub enum State {
    Initial,
    Ready,
    Set,
    Playing,
    Finished,
    Timeout,
}

// NoSetPlay is a case, and none is no Option, as in types.rs.
#[derive(Clone, Copy, PartialEq, Eq)]
pub enum SetPlay {
    NoSetPlay,
    KickOff,
    DirectFreeKick,
    IndirectFreeKick,
    PenaltyKick,
    ThrowIn,
    GoalKick,
    CornerKick,
}

// NoPenalty is a case, and none is no Option, as in types.rs.
#[derive(Clone, Copy, PartialEq, Eq)]
pub enum Penalty {
    NoPenalty,
    IllegalPositioning,
    MotionInSet,
    MotionInStop,
    LocalGameStuck,
    IncapableRobot,
    PickedUp,
    BallHolding,
    LeavingTheField,
    PlayingWithArmsHands,
    Pushing,
    Cautioned,
    SentOff,
    Substitute,
}

// PlayerNumber::MIN and PlayerNumber::MAX.
pub const MIN: u8 = 1;

pub const MAX: u8 = 20;

// The dimensions of the field, in metres.
#[derive(Clone, Copy)]
pub struct FieldDimensions {
    pub length: f32,
    pub width: f32,
    pub goal_width: f32,
    pub goal_height: f32,
    pub goal_area_length: f32,
    pub goal_area_width: f32,
    pub penalty_area_length: f32,
    pub penalty_area_width: f32,
    pub penalty_mark_distance: f32,
    pub center_circle_radius: f32,
    pub border_strip_width: f32,
    pub mark_radius: f32,
    pub line_width: f32,
    pub ball_radius: f32,
}

// Where a player stands.
#[derive(Clone, Copy)]
pub struct PlayerPose {
    pub x: f32,
    pub y: f32,
    pub theta: f32,
    pub radius: f32,
}

// What the situation holds of one player: the pose that the judges see, where it is present, and the pose that motion is measured from, where there is one.
#[derive(Clone, Copy)]
pub struct Player {
    pub pose: Option<PlayerPose>,
    pub reference: Option<PlayerPose>,
    pub penalty: Penalty,
    pub allowance: f32,
    pub previously_inside: bool,
}

// One side's players, by number - 1, and its goalkeeper.
#[derive(Clone, Copy)]
pub struct Team {
    pub players: [Player; 20],
    pub goalkeeper: Option<u8>,
}

// How far a player is inside its own goal area, its own penalty area and the opponents' penalty area; below 0 it is outside.
#[derive(Clone, Copy)]
pub struct Margins {
    pub own_goal_area: f32,
    pub own_penalty_area: f32,
    pub opponent_penalty_area: f32,
}

#[derive(Clone, Copy, PartialEq, Eq)]
pub enum RestartKind {
    KickOff,
    Indirect,
    Direct,
    PenaltyShot,
}

// The restart that is in effect, its kicker without the time of the kick. The kick position is not read.
#[derive(Clone, Copy)]
pub struct Restart {
    pub kind: RestartKind,
    pub set_play: SetPlay,
    pub side: Side,
    pub kicker: Option<u8>,
    pub kick_x: f32,
    pub kick_y: f32,
    pub other_touch: bool,
    pub kicker_touched_outside_center_circle: bool,
    pub kicker_touched_far_from_kick: bool,
    pub ball_moved_since_kick: bool,
}

// The game without its teams.
#[derive(Clone, Copy)]
pub struct Game {
    pub sides: SideMapping,
    pub stopped: bool,
    pub phase: Phase,
    pub state: State,
    pub set_play: SetPlay,
    pub kicking_side: Option<Side>,
}

#[derive(Clone, Copy)]
pub struct Ball {
    pub x: f32,
    pub y: f32,
    pub z: f32,
}

// The placement wish: a named player is a side and a number. Nothing is one of the six that a word numbers, so that an Option would be no plainer.
#[derive(Clone, Copy)]
pub enum Wish {
    Nothing,
    BallAtRestart,
    BallInSet,
    ForPenalty(Side, u8),
    ForPenaltyShot(Side, u8),
    Goalkeeper(Side),
}

// One moment of a match, with what the referee remembers. The earlier places of the batch are two lists beside it.
#[derive(Clone, Copy)]
pub struct Situation {
    pub field: FieldDimensions,
    pub penalty_placement_distance: f32,
    pub game: Game,
    pub home: Team,
    pub away: Team,
    pub ball: Ball,
    pub last_contact: Option<Side>,
    pub restart: Option<Restart>,
    pub invalid_goals_judged: bool,
    pub ball_rested: bool,
    pub wish: Wish,
}

// A list of players of one side by their numbers: the first `count` of the array, the rest of it 0. There is no heap: it has room for all players of a side, and counts those that it has.
#[derive(Clone, Copy)]
pub struct PlayerList {
    pub count: usize,
    pub numbers: [u8; 20],
}

// The result of checking the position of a player.
#[derive(Clone, Copy, PartialEq, Eq)]
pub enum Positioning {
    Legal,
    Illegal,
    IllegalUnlessKicker,
    InAvoidanceRegion,
}

// The player that is allowed to take the kick.
#[derive(Clone, Copy)]
pub struct KickingPlayer {
    pub side: Side,
    pub number: u8,
}

// What is called, for a side where it is for one. NoJudgment is a case, since an item of a sheet takes any judgment: a type without it would ask more of who hands one in.
#[derive(Clone, Copy)]
pub enum BallJudgment {
    NoJudgment,
    Goal(Side),
    GoalKick(Side),
    CornerKick(Side),
    ThrowIn(Side),
    EndOfPenaltyShot,
}

// A place for the ball, its x, y and z, or for a player, its x, y and heading. That no place is one of its cases, beside those with floats, is a rule of the project.
#[derive(Clone, Copy)]
pub enum Placement {
    NoPlace,
    BallAt(f32, f32, f32),
    PlayerAt {
        side: Side,
        number: u8,
        x: f32,
        y: f32,
        theta: f32,
    },
}

// The places that were given before in the same batch, which a new place keeps its distance from: the x of each, and the y.
#[derive(Clone, Copy)]
pub struct Earlier<'a> {
    pub xs: &'a [f32],
    pub ys: &'a [f32],
}

// The items that each side has of its own.
#[derive(Clone, Copy)]
pub struct SideDecision {
    pub verdicts: [Positioning; 20],
    pub excess: PlayerList,
    pub leaving: PlayerList,
    pub moved: PlayerList,
    pub references: [Option<PlayerPose>; 20],
}

// The items of a decision.
#[derive(Clone, Copy)]
pub struct Decision {
    pub home: SideDecision,
    pub away: SideDecision,
    pub kicker: Option<KickingPlayer>,
    pub ball: BallJudgment,
    pub place: Placement,
}

// The other side.
pub fn opponent(side: Side) -> Side
    ensures { result ≡ Spec.opponent side }
{
    match side {
        Side::Home => Side::Away,
        Side::Away => Side::Home,
    }
}

// Document 01's number of a side.
pub fn side_code(side: Side) -> u32
    ensures { result ≡ side_code side }
{
    side as u32
}

pub fn same_side(a: Side, b: Side) -> bool
    ensures { result ≡ Spec.same_side a b }
{
    a == b
}

// Whether a side that may be missing is there and is this one.
pub fn is_side(a: Option<Side>, side: Side) -> bool
    ensures { result ≡ Spec.is_side a side }
{
    a == Some(side)
}

// Whether a number that may be missing is there and is this one.
pub fn is_number(a: Option<u8>, number: u8) -> bool
    ensures { result ≡ Spec.is_number a number }
{
    a == Some(number)
}

pub fn is_shootout(phase: Phase) -> bool
    ensures { result ≡ Spec.is_shootout phase }
{
    phase == Phase::PenaltyShootout
}

pub fn is_set(state: State) -> bool
    ensures { result ≡ Spec.is_set state }
{
    state == State::Set
}

pub fn is_playing(state: State) -> bool
    ensures { result ≡ Spec.is_playing state }
{
    state == State::Playing
}

pub fn is_unpenalized(penalty: Penalty) -> bool
    ensures { result ≡ Spec.is_unpenalized penalty }
{
    penalty == Penalty::NoPenalty
}

pub fn is_present(pose: Option<PlayerPose>) -> bool
    ensures { result ≡ Spec.is_present pose }
{
    pose.is_some()
}

// The player with the number i + 1. Beyond the last one it is absent, unpenalised, with no reference, an allowance of NaN, and was not inside.
pub fn player_at(team: Team, i: usize) -> Player
    ensures { result ≡ Players.player_at team i }
{
    if i < 20 {
        let a = team.players;
        return a[i];
    }
    Player {
        pose: None,
        reference: None,
        penalty: Penalty::NoPenalty,
        allowance: 0.0 / 0.0,
        previously_inside: false,
    }
}

// The player with a number; nobody has the number 0.
pub fn player_numbered(team: Team, number: u8) -> Player
    ensures { result ≡ Players.player_numbered team number }
{
    if number == 0 {
        return player_at(team, 20);
    }
    let i = (number - 1) as usize;
    player_at(team, i)
}

pub fn team_of(s: Situation, side: Side) -> Team
    ensures { result ≡ Players.team_of s side }
{
    match side {
        Side::Home => s.home,
        Side::Away => s.away,
    }
}

// The list with one more number at its end, or unchanged.
fn append_if(wanted: bool, list: PlayerList, number: u8) -> PlayerList
    requires { list.count < 20 }
    ensures { result ≡ Players.append_if wanted list number }
{
    if wanted {
        let n = list.count;
        let mut numbers = list.numbers;
        numbers[n] = number;
        return PlayerList {
            count: n + 1,
            numbers,
        };
    }
    list
}

// The numbers of the players whose flag is set, ascending.
pub fn numbers_where(flags: [bool; 20]) -> PlayerList
    ensures { result ≡ Players.numbers_where (λ i. get_or flags i false) }
{
    let numbers = [0u8; 20];
    let mut list = PlayerList { count: 0, numbers };
    for i in 0..20 {
        let number = (i + 1) as u8;
        list = append_if(flags[i], list, number);
    }
    list
}

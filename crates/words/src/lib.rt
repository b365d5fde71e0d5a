// The situation that words of 32 bits are, by the layout of the crate `columns`. A word past the end counts as 0, and one that is none of its column's values gives the first of them, or none.
#![tactic(auto)]

ghost use Rattle.std.specs.Prelude.{◌≡◌, ◌<◌, ◌≤◌, slice_index_or};
ghost use Rattle.columns.specs.Layout.{word_count};
ghost use Rattle.words.specs.Words as Spec;

use columns::layout;
use game::{
    Ball, FieldDimensions, Game, Penalty, Phase, Player, PlayerPose, Restart, RestartKind, SetPlay,
    Side, SideMapping, Situation, State, Team, Wish,
};

// The values of a column's words, from 0 on. No TryFrom of the enums: a word that is none of them gives the first, so that each caller would drop an error.
const PHASES: [Phase; 5] = [
    Phase::FirstHalf,
    Phase::SecondHalf,
    Phase::FirstExtraHalf,
    Phase::SecondExtraHalf,
    Phase::PenaltyShootout,
];

const STATES: [State; 6] = [
    State::Initial,
    State::Ready,
    State::Set,
    State::Playing,
    State::Finished,
    State::Timeout,
];

const SET_PLAYS: [SetPlay; 8] = [
    SetPlay::NoSetPlay,
    SetPlay::KickOff,
    SetPlay::DirectFreeKick,
    SetPlay::IndirectFreeKick,
    SetPlay::PenaltyKick,
    SetPlay::ThrowIn,
    SetPlay::GoalKick,
    SetPlay::CornerKick,
];

const PENALTIES: [Penalty; 14] = [
    Penalty::NoPenalty,
    Penalty::IllegalPositioning,
    Penalty::MotionInSet,
    Penalty::MotionInStop,
    Penalty::LocalGameStuck,
    Penalty::IncapableRobot,
    Penalty::PickedUp,
    Penalty::BallHolding,
    Penalty::LeavingTheField,
    Penalty::PlayingWithArmsHands,
    Penalty::Pushing,
    Penalty::Cautioned,
    Penalty::SentOff,
    Penalty::Substitute,
];

const RESTART_KINDS: [RestartKind; 4] = [
    RestartKind::KickOff,
    RestartKind::Indirect,
    RestartKind::Direct,
    RestartKind::PenaltyShot,
];

#[tactic(auto, unfolding(crate::specs::Words::word_at))]
fn word_at(words: &[u32], i: usize) -> u32
    ensures { result ≡ Spec.word_at words.now i }
{
    words.get(i).copied().unwrap_or(0)
}

#[tactic(auto, unfolding(crate::specs::Words::float_at))]
fn float_at(words: &[u32], i: usize) -> f32
    ensures { result ≡ Spec.float_at words.now i }
{
    floats::from_bits(word_at(words, i))
}

#[tactic(auto, unfolding(crate::specs::Words::flag_at))]
fn flag_at(words: &[u32], i: usize) -> bool
    ensures { result ≡ Spec.flag_at words.now i }
{
    word_at(words, i) == 1
}

// The value of the word at a place, by its column's values, of which one past the end gives the first.
fn value_of<T: Copy>(words: &[u32], i: usize, all: &[T], first: T) -> T
    ensures { result ≡ slice_index_or all.now (Spec.word_at words.now i) first }
{
    all.get(word_at(words, i) as usize)
        .copied()
        .unwrap_or(first)
}

#[tactic(auto, unfolding(crate::specs::Words::side_of))]
pub fn side_of(word: u32) -> Side
    ensures { result ≡ Spec.side_of word }
{
    if word == 1 { Side::Away } else { Side::Home }
}

#[tactic(auto, unfolding(crate::specs::Words::sides_of))]
fn sides_of(word: u32) -> SideMapping
    ensures { result ≡ Spec.sides_of word }
{
    if word == 1 {
        SideMapping::HomeDefendsRightGoal
    } else {
        SideMapping::HomeDefendsLeftGoal
    }
}

#[tactic(auto, unfolding(crate::specs::Words::maybe_side_of))]
fn maybe_side_of(word: u32) -> Option<Side>
    ensures { result ≡ Spec.maybe_side_of word }
{
    (word < 2).then(|| side_of(word))
}

#[tactic(auto, unfolding(crate::specs::Words::maybe_number_of))]
fn maybe_number_of(word: u32) -> Option<u8>
    ensures { result ≡ Spec.maybe_number_of word }
{
    u8::try_from(word).ok()
}

#[tactic(auto, unfolding(crate::specs::Words::number_of))]
fn number_of(word: u32) -> u8
    ensures { result ≡ Spec.number_of word }
{
    u8::try_from(word).unwrap_or(0)
}

#[tactic(auto, unfolding(crate::specs::Words::field_of))]
fn field_of(words: &[u32]) -> FieldDimensions
    ensures { result ≡ Spec.field_of words.now }
{
    FieldDimensions {
        length: float_at(words, layout::FIELD_LENGTH),
        width: float_at(words, layout::FIELD_WIDTH),
        goal_width: float_at(words, layout::GOAL_WIDTH),
        goal_height: float_at(words, layout::GOAL_HEIGHT),
        goal_area_length: float_at(words, layout::GOAL_AREA_LENGTH),
        goal_area_width: float_at(words, layout::GOAL_AREA_WIDTH),
        penalty_area_length: float_at(words, layout::PENALTY_AREA_LENGTH),
        penalty_area_width: float_at(words, layout::PENALTY_AREA_WIDTH),
        penalty_mark_distance: float_at(words, layout::PENALTY_MARK_DISTANCE),
        center_circle_radius: float_at(words, layout::CENTER_CIRCLE_RADIUS),
        border_strip_width: float_at(words, layout::BORDER_STRIP_WIDTH),
        mark_radius: float_at(words, layout::MARK_RADIUS),
        line_width: float_at(words, layout::LINE_WIDTH),
        ball_radius: float_at(words, layout::BALL_RADIUS),
    }
}

#[tactic(auto, unfolding(crate::specs::Words::game_of, crate::specs::Words::phase_of, crate::specs::Words::state_of, crate::specs::Words::set_play_of))]
fn game_of(words: &[u32]) -> Game
    ensures { result ≡ Spec.game_of words.now }
{
    let sides = sides_of(word_at(words, layout::SIDES));
    let stopped = flag_at(words, layout::STOPPED);
    let phase = value_of(words, layout::PHASE, &PHASES, Phase::FirstHalf);
    let state = value_of(words, layout::STATE, &STATES, State::Initial);
    let set_play = value_of(words, layout::SET_PLAY, &SET_PLAYS, SetPlay::NoSetPlay);
    let kicking_side = maybe_side_of(word_at(words, layout::KICKING_SIDE));
    Game {
        sides,
        stopped,
        phase,
        state,
        set_play,
        kicking_side,
    }
}

// The four words of a pose.
#[tactic(auto, unfolding(crate::specs::Words::pose_at))]
fn pose_at(words: &[u32], i: usize) -> PlayerPose
    requires { i ≤ word_count }
    ensures { result ≡ Spec.pose_at words.now i }
{
    PlayerPose {
        x: float_at(words, i),
        y: float_at(words, i + 1),
        theta: float_at(words, i + 2),
        radius: float_at(words, i + 3),
    }
}

// A pose with the word before it, which says whether it is there.
#[tactic(auto, unfolding(crate::specs::Words::pose_if_at))]
fn pose_if_at(words: &[u32], i: usize) -> Option<PlayerPose>
    requires { i < word_count }
    ensures { result ≡ Spec.pose_if_at words.now i }
{
    flag_at(words, i).then(|| pose_at(words, i + 1))
}

// The player k of the 40.
#[tactic(auto, unfolding(crate::specs::Words::player_of, crate::specs::Words::penalty_of))]
fn player_of(words: &[u32], k: usize) -> Player
    requires { k < 40 }
    ensures { result ≡ Spec.player_of words.now k }
{
    let pose = pose_if_at(words, layout::POSES + layout::POSE_WORDS * k);
    let reference = pose_if_at(words, layout::REFERENCES + layout::POSE_WORDS * k);
    let penalty = value_of(words, layout::PENALTIES + k, &PENALTIES, Penalty::NoPenalty);
    let allowance = float_at(words, layout::ALLOWANCES + k);
    let previously_inside = flag_at(words, layout::PREVIOUSLY_INSIDE + k);
    Player {
        pose,
        reference,
        penalty,
        allowance,
        previously_inside,
    }
}

// The players and the goalkeeper of Home (0) or Away (1).
#[tactic(auto, unfolding(crate::specs::Words::team_in))]
fn team_in(words: &[u32], side: usize) -> Team
    requires { side ≤ 1 }
    ensures { result ≡ Spec.team_in words.now side }
{
    let blank = player_of(words, 20 * side);
    let mut players = [blank; 20];
    for i in 0..20 {
        players[i] = player_of(words, 20 * side + i);
    }
    let goalkeeper = maybe_number_of(word_at(words, layout::GOALKEEPERS + side));
    Team {
        players,
        goalkeeper,
    }
}

#[tactic(auto, unfolding(crate::specs::Words::restart_of, crate::specs::Words::maybe_restart_of, crate::specs::Words::restart_kind_of, crate::specs::Words::set_play_of))]
fn maybe_restart_of(words: &[u32]) -> Option<Restart>
    ensures { result ≡ Spec.maybe_restart_of words.now }
{
    if flag_at(words, layout::RESTART) {
        let kind = value_of(
            words,
            layout::RESTART_KIND,
            &RESTART_KINDS,
            RestartKind::KickOff,
        );
        let set_play = value_of(
            words,
            layout::RESTART_SET_PLAY,
            &SET_PLAYS,
            SetPlay::NoSetPlay,
        );
        let side = side_of(word_at(words, layout::RESTART_SIDE));
        let kicker = maybe_number_of(word_at(words, layout::RESTART_KICKER));
        let restart = Restart {
            kind,
            set_play,
            side,
            kicker,
            kick_x: float_at(words, layout::KICK_POSITION),
            kick_y: float_at(words, layout::KICK_POSITION + 1),
            other_touch: flag_at(words, layout::OTHER_TOUCH),
            kicker_touched_outside_center_circle: flag_at(
                words,
                layout::KICKER_TOUCHED_OUTSIDE_CENTER_CIRCLE,
            ),
            kicker_touched_far_from_kick: flag_at(words, layout::KICKER_TOUCHED_FAR_FROM_KICK),
            ball_moved_since_kick: flag_at(words, layout::BALL_MOVED_SINCE_KICK),
        };
        return Some(restart);
    }
    None
}

// The wish, with the side and the number that it may name.
#[tactic(auto, unfolding(crate::specs::Words::wish_from, crate::specs::Words::wish_of))]
fn wish_of(words: &[u32]) -> Wish
    ensures { result ≡ Spec.wish_of words.now }
{
    let side = side_of(word_at(words, layout::WISHED_SIDE));
    let number = number_of(word_at(words, layout::WISHED_PLAYER));
    let all = [
        Wish::Nothing,
        Wish::BallAtRestart,
        Wish::BallInSet,
        Wish::ForPenalty(side, number),
        Wish::ForPenaltyShot(side, number),
        Wish::Goalkeeper(side),
    ];
    value_of(words, layout::WISH, &all, Wish::Nothing)
}

// The situation that the words are.
#[tactic(auto, unfolding(crate::specs::Words::ball_of, crate::specs::Words::situation_of))]
pub fn situation_of(words: &[u32]) -> Situation
    ensures { result ≡ Spec.situation_of words.now }
{
    let field = field_of(words);
    let game = game_of(words);
    let home = team_in(words, 0);
    let away = team_in(words, 1);
    let ball = Ball {
        x: float_at(words, layout::BALL),
        y: float_at(words, layout::BALL + 1),
        z: float_at(words, layout::BALL + 2),
    };
    let last_contact = maybe_side_of(word_at(words, layout::LAST_CONTACT));
    let restart = maybe_restart_of(words);
    let wish = wish_of(words);
    Situation {
        field,
        penalty_placement_distance: float_at(words, layout::PENALTY_PLACEMENT_DISTANCE),
        game,
        home,
        away,
        ball,
        last_contact,
        restart,
        invalid_goals_judged: flag_at(words, layout::INVALID_GOALS_JUDGED),
        ball_rested: flag_at(words, layout::BALL_RESTED),
        wish,
    }
}

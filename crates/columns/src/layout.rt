// Made by tools/words/make from crates/columns/specs/Layout.antt and crates/game/src/lib.rt. Change those and not this file.

// How many words a situation has.
pub const WORDS: usize = 563;

// How many words a pose has: present, x, y, theta, radius.
pub const POSE_WORDS: usize = 5;

// The first word of: the length of the field.
pub const FIELD_LENGTH: usize = 0;

// The first word of: the width of the field.
pub const FIELD_WIDTH: usize = 1;

// The first word of: the width of a goal.
pub const GOAL_WIDTH: usize = 2;

// The first word of: the height of a goal.
pub const GOAL_HEIGHT: usize = 3;

// The first word of: the length of a goal area.
pub const GOAL_AREA_LENGTH: usize = 4;

// The first word of: the width of a goal area.
pub const GOAL_AREA_WIDTH: usize = 5;

// The first word of: the length of a penalty area.
pub const PENALTY_AREA_LENGTH: usize = 6;

// The first word of: the width of a penalty area.
pub const PENALTY_AREA_WIDTH: usize = 7;

// The first word of: the distance of a penalty mark from its goal line.
pub const PENALTY_MARK_DISTANCE: usize = 8;

// The first word of: the radius of the centre circle.
pub const CENTER_CIRCLE_RADIUS: usize = 9;

// The first word of: the width of the border strip.
pub const BORDER_STRIP_WIDTH: usize = 10;

// The first word of: the radius of a mark.
pub const MARK_RADIUS: usize = 11;

// The first word of: the width of a line.
pub const LINE_WIDTH: usize = 12;

// The first word of: the radius of the ball.
pub const BALL_RADIUS: usize = 13;

// The first word of: the distance between placed players.
pub const PENALTY_PLACEMENT_DISTANCE: usize = 14;

// The first word of: which goal Home defends.
pub const SIDES: usize = 15;

// The first word of: the game is stopped.
pub const STOPPED: usize = 16;

// The first word of: the phase.
pub const PHASE: usize = 17;

// The first word of: the state.
pub const STATE: usize = 18;

// The first word of: the set play.
pub const SET_PLAY: usize = 19;

// The first word of: the kicking side.
pub const KICKING_SIDE: usize = 20;

// The first word of: the goalkeepers of Home and of Away.
pub const GOALKEEPERS: usize = 21;

// The first word of: the penalties of the 40 players.
pub const PENALTIES: usize = 23;

// The first word of: the poses of the 40 players.
pub const POSES: usize = 63;

// The first word of: the reference poses of the 40 players, for motion.
pub const REFERENCES: usize = 263;

// The first word of: the allowances of the 40 players.
pub const ALLOWANCES: usize = 463;

// The first word of: which of the 40 players were inside their goal area.
pub const PREVIOUSLY_INSIDE: usize = 503;

// The first word of: the ball: x, y, z.
pub const BALL: usize = 543;

// The first word of: the side that touched the ball last.
pub const LAST_CONTACT: usize = 546;

// The first word of: a Restart record is present.
pub const RESTART: usize = 547;

// The first word of: the kind of the Restart.
pub const RESTART_KIND: usize = 548;

// The first word of: the set play of the Restart.
pub const RESTART_SET_PLAY: usize = 549;

// The first word of: the side of the Restart.
pub const RESTART_SIDE: usize = 550;

// The first word of: the kicker of the Restart.
pub const RESTART_KICKER: usize = 551;

// The first word of: the kick position of the Restart: x, y.
pub const KICK_POSITION: usize = 552;

// The first word of: other_touch of the Restart.
pub const OTHER_TOUCH: usize = 554;

// The first word of: kicker_touched_outside_center_circle of the Restart.
pub const KICKER_TOUCHED_OUTSIDE_CENTER_CIRCLE: usize = 555;

// The first word of: kicker_touched_far_from_kick of the Restart.
pub const KICKER_TOUCHED_FAR_FROM_KICK: usize = 556;

// The first word of: ball_moved_since_kick of the Restart.
pub const BALL_MOVED_SINCE_KICK: usize = 557;

// The first word of: invalid goals are judged.
pub const INVALID_GOALS_JUDGED: usize = 558;

// The first word of: the ball has rested since the kick.
pub const BALL_RESTED: usize = 559;

// The first word of: what is wished.
pub const WISH: usize = 560;

// The first word of: the wished side (wishes 3, 4, 5).
pub const WISHED_SIDE: usize = 561;

// The first word of: the wished player (wishes 3, 4).
pub const WISHED_PLAYER: usize = 562;

// A float is any pattern.
const ANY: u32 = 0xffff_ffff;

// The list `columns`: the greatest value of each word.
pub const GREATEST: [u32; WORDS] = [
    ANY, ANY, ANY, ANY, ANY, ANY, ANY, ANY, ANY, ANY, ANY, ANY, ANY, ANY, ANY, 1, 1, 4, 5, 7, 2,
    256, 256, 13, 13, 13, 13, 13, 13, 13, 13, 13, 13, 13, 13, 13, 13, 13, 13, 13, 13, 13, 13, 13,
    13, 13, 13, 13, 13, 13, 13, 13, 13, 13, 13, 13, 13, 13, 13, 13, 13, 13, 13, 1, ANY, ANY, ANY,
    ANY, 1, ANY, ANY, ANY, ANY, 1, ANY, ANY, ANY, ANY, 1, ANY, ANY, ANY, ANY, 1, ANY, ANY, ANY,
    ANY, 1, ANY, ANY, ANY, ANY, 1, ANY, ANY, ANY, ANY, 1, ANY, ANY, ANY, ANY, 1, ANY, ANY, ANY,
    ANY, 1, ANY, ANY, ANY, ANY, 1, ANY, ANY, ANY, ANY, 1, ANY, ANY, ANY, ANY, 1, ANY, ANY, ANY,
    ANY, 1, ANY, ANY, ANY, ANY, 1, ANY, ANY, ANY, ANY, 1, ANY, ANY, ANY, ANY, 1, ANY, ANY, ANY,
    ANY, 1, ANY, ANY, ANY, ANY, 1, ANY, ANY, ANY, ANY, 1, ANY, ANY, ANY, ANY, 1, ANY, ANY, ANY,
    ANY, 1, ANY, ANY, ANY, ANY, 1, ANY, ANY, ANY, ANY, 1, ANY, ANY, ANY, ANY, 1, ANY, ANY, ANY,
    ANY, 1, ANY, ANY, ANY, ANY, 1, ANY, ANY, ANY, ANY, 1, ANY, ANY, ANY, ANY, 1, ANY, ANY, ANY,
    ANY, 1, ANY, ANY, ANY, ANY, 1, ANY, ANY, ANY, ANY, 1, ANY, ANY, ANY, ANY, 1, ANY, ANY, ANY,
    ANY, 1, ANY, ANY, ANY, ANY, 1, ANY, ANY, ANY, ANY, 1, ANY, ANY, ANY, ANY, 1, ANY, ANY, ANY,
    ANY, 1, ANY, ANY, ANY, ANY, 1, ANY, ANY, ANY, ANY, 1, ANY, ANY, ANY, ANY, 1, ANY, ANY, ANY,
    ANY, 1, ANY, ANY, ANY, ANY, 1, ANY, ANY, ANY, ANY, 1, ANY, ANY, ANY, ANY, 1, ANY, ANY, ANY,
    ANY, 1, ANY, ANY, ANY, ANY, 1, ANY, ANY, ANY, ANY, 1, ANY, ANY, ANY, ANY, 1, ANY, ANY, ANY,
    ANY, 1, ANY, ANY, ANY, ANY, 1, ANY, ANY, ANY, ANY, 1, ANY, ANY, ANY, ANY, 1, ANY, ANY, ANY,
    ANY, 1, ANY, ANY, ANY, ANY, 1, ANY, ANY, ANY, ANY, 1, ANY, ANY, ANY, ANY, 1, ANY, ANY, ANY,
    ANY, 1, ANY, ANY, ANY, ANY, 1, ANY, ANY, ANY, ANY, 1, ANY, ANY, ANY, ANY, 1, ANY, ANY, ANY,
    ANY, 1, ANY, ANY, ANY, ANY, 1, ANY, ANY, ANY, ANY, 1, ANY, ANY, ANY, ANY, 1, ANY, ANY, ANY,
    ANY, 1, ANY, ANY, ANY, ANY, 1, ANY, ANY, ANY, ANY, 1, ANY, ANY, ANY, ANY, 1, ANY, ANY, ANY,
    ANY, 1, ANY, ANY, ANY, ANY, 1, ANY, ANY, ANY, ANY, 1, ANY, ANY, ANY, ANY, 1, ANY, ANY, ANY,
    ANY, 1, ANY, ANY, ANY, ANY, 1, ANY, ANY, ANY, ANY, 1, ANY, ANY, ANY, ANY, 1, ANY, ANY, ANY,
    ANY, 1, ANY, ANY, ANY, ANY, 1, ANY, ANY, ANY, ANY, 1, ANY, ANY, ANY, ANY, ANY, ANY, ANY, ANY,
    ANY, ANY, ANY, ANY, ANY, ANY, ANY, ANY, ANY, ANY, ANY, ANY, ANY, ANY, ANY, ANY, ANY, ANY, ANY,
    ANY, ANY, ANY, ANY, ANY, ANY, ANY, ANY, ANY, ANY, ANY, ANY, ANY, ANY, ANY, ANY, ANY, 1, 1, 1,
    1, 1, 1, 1, 1, 1, 1, 1, 1, 1, 1, 1, 1, 1, 1, 1, 1, 1, 1, 1, 1, 1, 1, 1, 1, 1, 1, 1, 1, 1, 1, 1,
    1, 1, 1, 1, 1, ANY, ANY, ANY, 2, 1, 3, 7, 1, 256, ANY, ANY, 1, 1, 1, 1, 1, 1, 5, 1, 255,
];

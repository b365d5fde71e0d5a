// Document 01's case A, built in: prints its sheet.
#![tactic(auto)]

use call::SheetFor;
use game::{
    Ball, Earlier, FieldDimensions, Game, Penalty, Phase, Player, PlayerPose, SetPlay, SideMapping,
    Situation, State, Team, Wish,
};
use std::io;

// Room for the sheet.
const ROOM: usize = 4096;

fn field() -> FieldDimensions {
    FieldDimensions {
        length: 14.0,
        width: 9.0,
        goal_width: 2.5,
        goal_height: 1.75,
        goal_area_length: 1.0,
        goal_area_width: 4.0,
        penalty_area_length: 3.0,
        penalty_area_width: 6.0,
        penalty_mark_distance: 2.0,
        center_circle_radius: 1.5,
        border_strip_width: 1.0,
        mark_radius: 0.0625,
        line_width: 0.0625,
        ball_radius: 0.125,
    }
}

// FirstHalf, Playing, NoSetPlay, not stopped, no kicking side, HomeDefendsLeftGoal.
fn game() -> Game {
    let sides = SideMapping::HomeDefendsLeftGoal;
    let phase = Phase::FirstHalf;
    let state = State::Playing;
    let set_play = SetPlay::NoSetPlay;
    let kicking_side = None;
    Game {
        sides,
        stopped: false,
        phase,
        state,
        set_play,
        kicking_side,
    }
}

// An unpenalised player without a reference pose, allowance 0.
fn player(pose: Option<PlayerPose>, previously_inside: bool) -> Player {
    let reference = None;
    let penalty = Penalty::NoPenalty;
    Player {
        pose,
        reference,
        penalty,
        allowance: 0.0,
        previously_inside,
    }
}

// One of radius 0.25 who is there.
fn present(x: f32, y: f32, previously_inside: bool) -> Player {
    let p = PlayerPose {
        x,
        y,
        theta: 0.0,
        radius: 0.25,
    };
    let pose = Some(p);
    player(pose, previously_inside)
}

fn absent() -> Player {
    let pose = None;
    player(pose, false)
}

fn home() -> Team {
    let nobody = absent();
    let mut players = [nobody; 20];
    players[1] = present(6.5, 0.0, true);
    players[2] = present(6.5, 1.0, true);
    players[3] = present(6.25, -1.0, true);
    players[4] = present(6.75, 0.5, false);
    let goalkeeper = None;
    Team {
        players,
        goalkeeper,
    }
}

fn case_a() -> Situation {
    let field = field();
    let game = game();
    let home = home();
    let nobody = absent();
    let players = [nobody; 20];
    let goalkeeper = None;
    let away = Team {
        players,
        goalkeeper,
    };
    let ball = Ball {
        x: 7.25,
        y: 1.0,
        z: 0.125,
    };
    let last_contact = None;
    let restart = None;
    let wish = Wish::Nothing;
    Situation {
        field,
        penalty_placement_distance: 1.0,
        game,
        home,
        away,
        ball,
        last_contact,
        restart,
        invalid_goals_judged: false,
        ball_rested: false,
        wish,
    }
}

fn main(rt: HostRuntime) -> io::Result<()> {
    let s = case_a();
    let xs = [0.0f32; 1];
    let ys = [0.0f32; 1];
    let mut text = [0u8; ROOM];
    let earlier = Earlier {
        xs: &xs[..0],
        ys: &ys[..0],
    };
    let answer = call::write_sheet(SheetFor::Desk, s, earlier, &mut text);
    match answer {
        Err(_) => println!(rt; "refused"),
        Ok(n) => rt.write_all(replies::front(&text, n)),
    }
}

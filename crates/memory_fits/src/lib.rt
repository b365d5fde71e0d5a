// Which memories between frames are accepted: refusals 2 to 4 of what is remembered and of a touch.
#![tactic(auto)]

ghost use Rattle.std.specs.Prelude.{◌≡◌};
ghost use Rattle.refusal.specs.Refusal.{unless_refused};
ghost use Rattle.memory_fits.specs.MemoryFits as Spec;

use game::{Ball, Restart};
use refusal::Refusal;
use refusals::{first_failing, is_coordinate, number_fits};
use remembered::Remembered;

// At most 256 either way; what is not there is not asked.
fn allowance_fits(allowance: Option<f32>) -> bool
    ensures { result ≡ Spec.allowance_fits allowance }
{
    allowance.is_none_or(|a| (-256.0 <= a) & (a <= 256.0))
}

fn allowances_fit(remembered: [Remembered; 20]) -> bool
    ensures { result ≡ Spec.allowances_fit remembered }
{
    let mut ok = true;
    for i in 0..20 {
        let r = remembered[i];
        let allowance = r.return_allowance;
        ok = ok & allowance_fits(allowance);
    }
    ok
}

// The kick place of a restart that is in effect, with or without a kicker.
fn kick_fits(restart: Option<Restart>) -> bool
    ensures { result ≡ Spec.kick_fits restart }
{
    restart.is_none_or(|r| is_coordinate(r.kick_x) & is_coordinate(r.kick_y))
}

// The first refusal of a memory and a touch, where there is one: Pose for an allowance, Ball for the ball or the kick place, Number for a player number, that of who touches the ball too.
#[tactic(auto, unfolding(crate::specs::MemoryFits::memory_refusal))]
pub fn memory_refusal(
    home: [Remembered; 20],
    away: [Remembered; 20],
    ball: Ball,
    restart: Option<Restart>,
    kicking_player: Option<u8>,
    toucher: Option<u8>,
) -> Result<(), Refusal>
    ensures { result ≡ unless_refused (Spec.memory_refusal home away ball restart kicking_player toucher) tt }
{
    let allowances = allowances_fit(home) & allowances_fit(away);
    let places = is_coordinate(ball.x)
        & is_coordinate(ball.y)
        & is_coordinate(ball.z)
        & kick_fits(restart);
    let kicker = restart.and_then(|r| r.kicker);
    let numbers = number_fits(kicking_player) & number_fits(kicker) & number_fits(toucher);
    first_failing(true, allowances, places, numbers, true)
}

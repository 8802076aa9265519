//! The need of a function.

ghost use Rattle.std.specs.Prelude.{◌≡◌, ◌<◌, ◌+◌, ◌^◌, min, IfOk};
ghost use Rattle.pw_live_fronts.specs.Blocks.{IsOutline};
ghost use Rattle.pw_live.specs.Points.{points};
ghost use Rattle.pw_live_held.specs.IsLiveness.{IsLiveness};
ghost use Rattle.pw_live_needs.specs.Needs.{need, enough, most_short};
ghost use Rattle.pw_live_needs.specs.Counts.{IsCounted, IsReached};

use crate::counting::{Counting, greatest};
use pw_db::{LAST_REGISTER, LAST_TEMPORARY};
use pw_live_fronts::Outline;
use pw_live_held::{Liveness, find_liveness, is_held};
use pw_live_spans::laws::points_stand_by_number;
use pw_summary::NEED_LIMIT;
use std::alloc::{AllocError as NoMemory, Global};

/// Counts a temporary at the points where it is live, if it is held over no call. Answers no more than what is counted at one
/// of all points, and the greatest count where it is live.
fn count_temp(counting: &mut Counting, liveness: &Liveness, f: &Outline, t: u32) -> u32
    requires liveness { IsLiveness f.now liveness.now }
    requires temp { t < f.now.temps }
    requires room { t + 1 < 2 ^ 32 }
    requires before { IsCounted f.now t counting.old }
    ensures counted { IsCounted f.now (t + 1) counting.new }
    ensures reached { IsReached result counting.new }
{
    points_stand_by_number();
    let held = is_held(liveness, f, t);
    if held {
        return 0;
    }
    let points = liveness.makers.len();
    counting.count_spans(points, t + 1, liveness.spans.of(t))
}

/// The greatest number of temporaries that are live at one point and held over no call, as far as it tells the need: once
/// there are enough at one point, no more of them are counted, so that no point is counted for more temporaries than that.
fn find_most(alloc: Global, f: &Outline) -> Result<u32, NoMemory>
    requires { IsOutline f.now }
    ensures { IfOk result (λ n. min enough n ≡ min enough (most_short f.now (points f.now))) }
{
    let saved = u32::from(NEED_LIMIT);
    let changed = u32::from(LAST_TEMPORARY - LAST_REGISTER);
    let limit = saved + changed;
    let liveness = find_liveness(alloc, f)?;
    let mut counting = Counting::new(alloc, liveness.makers.len())?;
    for t in 0..f.temps() {
        let reached = count_temp(&mut counting, &liveness, f, t);
        if reached >= limit {
            return Ok(reached);
        }
    }
    let Counting { counts, marks: _ } = counting;
    Ok(greatest(&counts))
}

/// How many registers a lawful function needs beside those that every call may change.
pub fn need(alloc: Global, f: &Outline) -> Result<u8, NoMemory>
    requires { IsOutline f.now }
    ensures { IfOk result (λ n. n ≡ need f.now) }
{
    let most = find_most(alloc, f)?;
    let changed = u32::from(LAST_TEMPORARY - LAST_REGISTER);
    let beside = most.saturating_sub(changed);
    Ok(beside.min(u32::from(NEED_LIMIT)) as u8)
}

//! Which temporaries are held over a call.

ghost use Rattle.std.specs.Prelude.{◌≡◌, ◌≤◌, ◌<◌, ◌↔◌, not, ℕ, length, map, IsTrue, IfSome};
ghost use Rattle.pw_live.specs.Liveness.{is_that};
ghost use Rattle.pw_live.specs.Interference.{is_held};
ghost use Rattle.pw_live.specs.Points.{points};
ghost use Rattle.pw_live_spans.specs.Spans.{Covers};
ghost use Rattle.pw_live_held.specs.Makers.{calls, IsOverCall};
ghost use Rattle.pw_live_held.specs.Calls.{IsLastCall, AreCallsOf};
ghost use Rattle.pw_live_held.specs.IsLiveness.{IsLiveness};

use crate::liveness::Liveness;
use pw_live_fronts::Outline;
use pw_live_spans::laws::points_stand_by_number;

/// Whether another temporary is written, or none.
fn is_other(maker: Option<u32>, t: u32) -> bool
    ensures { result ≡ not (is_that maker t) }
{
    match maker {
        Some(u) => u != t,
        None => true,
    }
}

/// Whether a point that may be is none, or stands before another.
fn is_before(last: Option<usize>, from: usize) -> bool
    ensures { IsTrue result ↔ IfSome last (λ p. p < from) }
{
    match last {
        Some(p) => p < from,
        None => true,
    }
}

/// The last of the points from one up to another that stands behind a call, if one does.
fn last_within(f: &Outline, lasts: &[Option<usize>], from: usize, to: usize) -> Option<usize>
    requires lasts { AreCallsOf f.now lasts.now }
    requires points { (p : ℕ) → from ≤ p → p < to → p < length lasts.now }
    ensures { IsLastCall (map calls (points f.now)) from to result }
{
    if to <= from {
        return None;
    }
    let end = to - 1;
    let last = lasts[end];
    if is_before(last, from) { None } else { last }
}

/// Whether one of the points of a span stands behind a call that does not write the temporary: they are looked at from call
/// to call, and there are no more calls in it that write the temporary than there are definitions of it.
fn is_held_within(
    f: &Outline,
    span: (usize, usize),
    makers: &[Option<u32>],
    lasts: &[Option<usize>],
    t: u32,
) -> bool
    requires lasts { AreCallsOf f.now lasts.now }
    requires long { length makers.now ≡ length lasts.now }
    requires points { (p : ℕ) → span.0 ≤ p → p < span.1 → p < length makers.now }
    ensures { IsTrue result ↔ ((p : ℕ) × (span.0 ≤ p) × (p < span.1) × IsOverCall makers.now (map calls (points f.now)) t p) }
{
    let mut to = span.1;
    while let Some(p) = last_within(f, lasts, span.0, to) {
        if is_other(makers[p], t) {
            return true;
        }
        to = p;
    }
    false
}

/// The same of one of the points of spans.
fn is_held_over(
    f: &Outline,
    spans: &[(usize, usize)],
    makers: &[Option<u32>],
    lasts: &[Option<usize>],
    t: u32,
) -> bool
    requires lasts { AreCallsOf f.now lasts.now }
    requires long { length makers.now ≡ length lasts.now }
    requires points { (p : ℕ) → Covers spans.now p → p < length makers.now }
    ensures { IsTrue result ↔ ((p : ℕ) × Covers spans.now p × IsOverCall makers.now (map calls (points f.now)) t p) }
{
    for place in 0..spans.len() {
        if is_held_within(f, spans[place], makers, lasts, t) {
            return true;
        }
    }
    false
}

/// Whether a temporary is held over a call.
pub fn is_held(liveness: &Liveness, f: &Outline, t: u32) -> bool
    requires liveness { IsLiveness f.now liveness.now }
    requires temp { t < f.now.temps }
    ensures { result ≡ is_held f.now t }
{
    points_stand_by_number();
    is_held_over(
        f,
        liveness.spans.of(t),
        &liveness.makers,
        &liveness.calls,
        t,
    )
}

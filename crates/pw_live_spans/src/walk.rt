//! A walk over the points of a function, from the last one back, that notes where temporaries are live.

ghost use Rattle.std.specs.Prelude.{◌≡◌, ◌≢◌, ◌⊎◌, ◌+◌, ◌^◌, ◌<◌, ◌≤◌, ◌↔◌, ℕ, List, [], Some, None, slice_get, vec_len, All, IsTrue, IfOk, OnOk};
ghost use Rattle.pw_live_spans.specs.Spans.{IsIn, Covers};

use pw_items::Items;
use std::alloc::{AllocError as NoMemory, Global};

/// Where the walk stands, and what it has found of each temporary: the spans that it has left, and where the span ends in
/// which it stands, if the temporary is live there.
#[derive(Drop)]
pub(crate) struct Walk {
    pub lists: Vec<Items<(usize, usize)>>,
    pub ends: Vec<Option<usize>>,
    pub place: usize,
    pub ghost same: { vec_len lists ≡ vec_len ends },
    pub ghost ahead: { (t e : ℕ) → slice_get ends.items t ≡ Some (Some e) → place < e },
}

/// Whether a span begins at a point, where points end that stand before it.
fn touches(span: (usize, usize), to: usize) -> bool
    ensures { IsTrue result ↔ ((span.0 ≡ to) × (span.0 ≤ span.1)) }
{
    span.0 == to && span.0 <= span.1
}

/// Adds to spans one that begins where points end, and these points.
fn put_joined(
    spans: &mut Items<(usize, usize)>,
    last: (usize, usize),
    from: usize,
) -> Result<(), NoMemory>
    requires up { last.0 ≤ last.1 }
    requires points { from ≤ last.0 }
    ensures { OnOk result ((q : ℕ) → Covers spans.new q ↔ ((Covers spans.old q ⊎ IsIn last q) ⊎ ((from ≤ q) × (q < last.0)))) }
{
    spans.push((from, last.1))?;
    Ok(())
}

/// Adds to spans two more.
fn put_both(
    spans: &mut Items<(usize, usize)>,
    last: (usize, usize),
    from: usize,
    to: usize,
) -> Result<(), NoMemory>
    ensures { OnOk result ((q : ℕ) → Covers spans.new q ↔ ((Covers spans.old q ⊎ IsIn last q) ⊎ ((from ≤ q) × (q < to)))) }
{
    spans.push(last)?;
    spans.push((from, to))?;
    Ok(())
}

/// Adds to spans one more, and the points from one up to another, which may end where it begins.
fn put_behind(
    spans: &mut Items<(usize, usize)>,
    last: (usize, usize),
    from: usize,
    to: usize,
) -> Result<(), NoMemory>
    requires { from ≤ to }
    ensures { OnOk result ((q : ℕ) → Covers spans.new q ↔ ((Covers spans.old q ⊎ IsIn last q) ⊎ ((from ≤ q) × (q < to)))) }
{
    if touches(last, to) {
        put_joined(spans, last, from)?;
    } else {
        put_both(spans, last, from, to)?;
    }
    Ok(())
}

/// Adds the points from one up to another to spans, the last of which may begin where these end.
fn cover(spans: &mut Items<(usize, usize)>, from: usize, to: usize) -> Result<(), NoMemory>
    requires { from ≤ to }
    ensures { OnOk result ((q : ℕ) → Covers spans.new q ↔ (Covers spans.old q ⊎ ((from ≤ q) × (q < to)))) }
{
    match spans.pop() {
        None => {
            spans.push((from, to))?;
            Ok(())
        }
        Some(last) => {
            put_behind(spans, last, from, to)?;
            Ok(())
        }
    }
}

/// No spans yet, of so many temporaries.
fn no_spans(alloc: Global, temps: u32) -> Result<Vec<Items<(usize, usize)>>, NoMemory>
    ensures count { IfOk result (λ v. vec_len v ≡ temps) }
    ensures none { IfOk result (λ v. All (λ (spans : List (ℕ × ℕ)). spans ≡ []) v.items) }
{
    let mut lists = Vec::new(alloc);
    for _ in 0..temps {
        lists.push(Items::new(alloc))?;
    }
    Ok(lists)
}

impl Walk {
    ghost use Rattle.pw_live_spans.specs.Walking.{IsOpen, Marked};

    /// At the end of so many points, where no temporary is live.
    pub fn new(alloc: Global, temps: u32, place: usize) -> Result<Walk, NoMemory>
        ensures place { IfOk result (λ w. w.place ≡ place) }
        ensures count { IfOk result (λ w. vec_len w.ends ≡ temps) }
        ensures none { IfOk result (λ w. (t q : ℕ) → ¬ Marked w t q) }
        ensures shut { IfOk result (λ w. (t : ℕ) → ¬ IsOpen w t) }
    {
        let lists = no_spans(alloc, temps)?;
        let ends = vec![in alloc; None; temps as usize]?;
        Ok(Walk { lists, ends, place })
    }

    /// Goes back by a point, at which all is live that was.
    pub fn back(&mut self)
        requires { 0 < self.old.place }
        ensures place { self.new.place + 1 ≡ self.old.place }
        ensures count { vec_len self.new.ends ≡ vec_len self.old.ends }
        ensures room { self.new.place + 1 < 2 ^ 64 }
        ensures marked { (t q : ℕ) → Marked self.new t q ↔ (Marked self.old t q ⊎ (IsOpen self.old t × (q ≡ self.new.place))) }
        ensures opens { (t : ℕ) → IsOpen self.new t ↔ IsOpen self.old t }
    {
        self.place -= 1;
    }

    /// A temporary that is not live is live from here on.
    fn start(&mut self, t: u32)
        requires shut { slice_get self.old.ends.items t ≡ Some None }
        requires room { self.old.place + 1 < 2 ^ 64 }
        ensures place { self.new.place ≡ self.old.place }
        ensures count { vec_len self.new.ends ≡ vec_len self.old.ends }
        ensures marked { (u q : ℕ) → Marked self.new u q ↔ (Marked self.old u q ⊎ ((u ≡ t) × (q ≡ self.old.place))) }
        ensures opens { (u : ℕ) → IsOpen self.new u ↔ (IsOpen self.old u ⊎ (u ≡ t)) }
    {
        self.ends[t as usize] = Some(self.place + 1);
    }

    /// A temporary is live from here on.
    pub fn open_span(&mut self, t: u32)
        requires temp { t < vec_len self.old.ends }
        requires room { self.old.place + 1 < 2 ^ 64 }
        ensures place { self.new.place ≡ self.old.place }
        ensures count { vec_len self.new.ends ≡ vec_len self.old.ends }
        ensures marked { (u q : ℕ) → Marked self.new u q ↔ (Marked self.old u q ⊎ ((u ≡ t) × (q ≡ self.old.place))) }
        ensures opens { (u : ℕ) → IsOpen self.new u ↔ (IsOpen self.old u ⊎ (u ≡ t)) }
    {
        match self.ends[t as usize] {
            Some(_) => (),
            None => self.start(t),
        }
    }

    /// A temporary that is live up to a point is not live before here.
    fn finish(&mut self, t: u32, end: usize) -> Result<(), NoMemory>
        requires { slice_get self.old.ends.items t ≡ Some (Some end) }
        ensures place { self.new.place ≡ self.old.place }
        ensures count { vec_len self.new.ends ≡ vec_len self.old.ends }
        ensures marked { OnOk result ((u q : ℕ) → Marked self.new u q ↔ Marked self.old u q) }
        ensures opens { OnOk result ((u : ℕ) → IsOpen self.new u ↔ (IsOpen self.old u × (u ≢ t))) }
    {
        cover(&mut self.lists[t as usize], self.place, end)?;
        self.ends[t as usize] = None;
        Ok(())
    }

    /// A temporary is not live before here.
    pub fn close_span(&mut self, t: u32) -> Result<(), NoMemory>
        requires { t < vec_len self.old.ends }
        ensures place { self.new.place ≡ self.old.place }
        ensures count { vec_len self.new.ends ≡ vec_len self.old.ends }
        ensures marked { OnOk result ((u q : ℕ) → Marked self.new u q ↔ Marked self.old u q) }
        ensures opens { OnOk result ((u : ℕ) → IsOpen self.new u ↔ (IsOpen self.old u × (u ≢ t))) }
    {
        match self.ends[t as usize] {
            Some(end) => self.finish(t, end),
            None => Ok(()),
        }
    }
}

//! Counting temporaries at points.

ghost use Rattle.std.specs.Prelude.{◌≡◌, ◌⊎◌, ◌↔◌, ◌+◌, ◌≤◌, ◌<◌, ◌^◌, ℕ, length, slice_index, IfOk};
ghost use Rattle.pw_live_spans.specs.Spans.{IsIn, Covers};
ghost use Rattle.pw_live_needs.specs.Counts.{full, AreCounts, IsReached, greatest};

use std::alloc::{AllocError as NoMemory, Global};

/// Of each point how many temporaries have been counted there, and the mark of the last one of them.
#[derive(Drop)]
pub(crate) struct Counting {
    pub counts: Vec<u32>,
    pub marks: Vec<u32>,
}

/// As many zeros as there are points.
fn zeros(alloc: Global, points: usize) -> Result<Vec<u32>, NoMemory>
    ensures long { IfOk result (λ v. length v.items ≡ points) }
    ensures none { IfOk result (λ v. (q : ℕ) → slice_index v.items q ≡ 0) }
{
    let zeros = vec![in alloc; 0; points]?;
    Ok(zeros)
}

impl Counting {
    /// Nothing has been counted at so many points.
    pub fn new(alloc: Global, points: usize) -> Result<Counting, NoMemory>
        ensures sized { IfOk result (AreCounts points) }
        ensures counts { IfOk result (λ v. (q : ℕ) → slice_index v.counts.items q ≡ 0) }
        ensures marks { IfOk result (λ v. (q : ℕ) → slice_index v.marks.items q ≡ 0) }
    {
        let counts = zeros(alloc, points)?;
        let marks = zeros(alloc, points)?;
        Ok(Counting { counts, marks })
    }

    /// Counts the temporary of a mark at a point, unless it is counted there.
    fn count_at(&mut self, points: usize, mark: u32, q: usize)
        requires sized { AreCounts points self.old }
        requires point { q < points }
        requires room { full self.old mark q < 2 ^ 32 }
        ensures sized { AreCounts points self.new }
        ensures same { (p : ℕ) → full self.new mark p ≡ full self.old mark p }
        ensures marked { (p : ℕ) → (slice_index self.new.marks.items p ≡ mark) ↔ ((slice_index self.old.marks.items p ≡ mark) ⊎ (p ≡ q)) }
        ensures others { (p : ℕ) → (slice_index self.new.marks.items p ≡ mark) ⊎ (slice_index self.new.marks.items p ≡ slice_index self.old.marks.items p) }
    {
        if self.marks[q] != mark {
            self.marks[q] = mark;
            self.counts[q] += 1;
        }
    }

    /// The same at the points of a span. Answers no more than what is counted at one of all points, and the greatest count
    /// of this span.
    fn count_span(&mut self, points: usize, mark: u32, span: (usize, usize)) -> u32
        requires sized { AreCounts points self.old }
        requires span { (p : ℕ) → IsIn span p → p < points }
        requires room { (p : ℕ) → full self.old mark p < 2 ^ 32 }
        ensures sized { AreCounts points self.new }
        ensures same { (p : ℕ) → full self.new mark p ≡ full self.old mark p }
        ensures marked { (p : ℕ) → (slice_index self.new.marks.items p ≡ mark) ↔ ((slice_index self.old.marks.items p ≡ mark) ⊎ IsIn span p) }
        ensures others { (p : ℕ) → (slice_index self.new.marks.items p ≡ mark) ⊎ (slice_index self.new.marks.items p ≡ slice_index self.old.marks.items p) }
        ensures reached { IsReached result self.new }
    {
        let mut most: u32 = 0;
        for q in span.0..span.1 {
            self.count_at(points, mark, q);
            most = most.max(self.counts[q]);
        }
        most
    }

    /// The same at the points of spans.
    pub fn count_spans(&mut self, points: usize, mark: u32, spans: &[(usize, usize)]) -> u32
        requires sized { AreCounts points self.old }
        requires spans { (p : ℕ) → Covers spans.now p → p < points }
        requires room { (p : ℕ) → full self.old mark p < 2 ^ 32 }
        ensures sized { AreCounts points self.new }
        ensures same { (p : ℕ) → full self.new mark p ≡ full self.old mark p }
        ensures marked { (p : ℕ) → (slice_index self.new.marks.items p ≡ mark) ↔ ((slice_index self.old.marks.items p ≡ mark) ⊎ Covers spans.now p) }
        ensures others { (p : ℕ) → (slice_index self.new.marks.items p ≡ mark) ⊎ (slice_index self.new.marks.items p ≡ slice_index self.old.marks.items p) }
        ensures reached { IsReached result self.new }
    {
        let mut most: u32 = 0;
        for place in 0..spans.len() {
            let reached = self.count_span(points, mark, spans[place]);
            most = most.max(reached);
        }
        most
    }
}

/// The greatest of some numbers, or 0.
pub(crate) fn greatest(counts: &[u32]) -> u32
    ensures { result ≡ greatest counts.now }
{
    let mut most: u32 = 0;
    for place in 0..counts.len() {
        most = most.max(counts[place]);
    }
    most
}

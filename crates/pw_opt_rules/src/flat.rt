//! What is known of a temporary.

/// What is known of a temporary at a point of a function.
#[derive(Clone, Copy)]
pub enum Flat {
    /// No path is known that leads here.
    Bottom,
    /// The same on every path: a word that the temporary holds, or a temporary that holds the same.
    One(u32),
    /// Nothing, or not the same on every path.
    Many,
}

/// Where nothing else is said, no path is known.
impl Default for Flat {
    fn default() -> Flat {
        Flat::Bottom
    }
}

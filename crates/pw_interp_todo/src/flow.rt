//! Where statements are met, and what comes of them.

use pw_value::Value;

/// Where a statement is met: at its beginning, or at a label that stands in it (ISO C90 6.6.1).
#[derive(Clone, Copy)]
pub enum Entry {
    /// At its beginning.
    Front,
    /// At the label of this number, which stands in it.
    AtLabel(u32),
}

/// What comes of a statement: the run goes on behind it; it leaves or goes on with the loop or switch around it; it
/// returns from the function, with a result or with none; or it goes to a label (ISO C90 6.6.6).
#[derive(Clone, Copy)]
pub enum Flow {
    /// The run goes on behind the statement.
    Normal,
    /// The run leaves the loop or switch around it.
    Breaks,
    /// The run goes on with the next turn of the loop around it.
    Continues,
    /// The function returns, with this result or with none.
    Returns(Option<Value>),
    /// The run goes to the label of this number.
    Goes(u32),
}

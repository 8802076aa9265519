//! Allocation: registers and words of the frame for the temporaries of a function, the registers that it saves, and its frame.
#![tactic(auto)]

mod allocating;
mod places;
mod saving;

pub use allocating::allocate_owned;

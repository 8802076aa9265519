//! Which temporaries are live at the fronts of the blocks of a function, by the data-flow solver.
#![tactic(auto)]

mod edges;
mod exposed;
mod fronts;
mod marking;
mod named;
mod outline;

pub use fronts::{Fronts, find_fronts};
pub use named::Exposed;
pub use outline::{Act, Few, Outline, Stretch};

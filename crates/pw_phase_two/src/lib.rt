//! The second phase of the compiler: from a flow graph and its directives to an object.
#![tactic(auto)]

mod compiling;
mod directives;
pub mod laws;
mod numbers;
mod origin;
mod phases;

pub use compiling::locate;
pub use directives::directives_for;
pub use origin::{Origin, origin_of};
pub use phases::{object_of, phase_two};
pub use pw_summarise::Interface;

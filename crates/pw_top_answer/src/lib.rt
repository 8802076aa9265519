//! What a call of the program answers: its status, the line that is told, and what an answer says of the store, the
//! input and the output.
#![tactic(auto)]

mod answer;
mod line;
mod printing;
mod telling;

pub use answer::{Answer, Reply, exit_of, is_untold, status};
pub use line::{Line, halt_name, line_of};
pub use printing::print;
pub use telling::tell;

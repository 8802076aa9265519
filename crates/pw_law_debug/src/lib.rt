//! Laws of the debugger's values: a walk comes to the number of a global object where the machine's trace notes that it stands.
#![tactic(auto)]

pub mod laws;

//! Laws of temporaries in registers, without code: the places that allocation gives serve.
#![tactic(auto)]

pub mod laws;

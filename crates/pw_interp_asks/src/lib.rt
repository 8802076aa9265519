//! The interpreter's first steps of expressions: what is left of what is asked, before anything of it is evaluated.
#![tactic(auto)]

mod asks;
mod names;

pub use asks::ask;
pub use names::{
    function, function_place, global, global_place, local, own_place, string, string_place,
};

//! Functions rewritten by what is known at each of their points, block by block and operation by operation.
#![tactic(auto)]

mod blocks;
mod operands;

pub use blocks::rewrite;
pub use operands::{end_with_originals, have_originals, original, with_originals};
pub use pw_live_outline::{numbers, op_defines};

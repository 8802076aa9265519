//! Laws of a call that is refused for want of stack: where the placed run stops at it, that the run of lines has noted it, and that the
//! flow graphs come to it where no function takes room.
#![tactic(auto)]

pub mod laws;

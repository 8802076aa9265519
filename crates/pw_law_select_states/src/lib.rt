//! Laws of states for the law of selection, without code: when a state of the placed run stands in words, and what the lines of an
//! operation do and leave.
#![tactic(auto)]

//! Laws of what the debugger tells: each call of a defined program that it counts is the program's, and the values there are those of
//! its objects.
#![tactic(auto)]

pub mod laws;

//! Tests of the machine and of what stands beside it: instructions, images, loading, runs and the routines behind
//! each program. What the contracts do not say, as tables of cases whose answers come from outside. It has no code of
//! its own.
#![tactic(auto)]

#[cfg(test)]
mod cases;
#[cfg(test)]
mod images;
#[cfg(test)]
mod instructions;
#[cfg(test)]
mod loading;
#[cfg(test)]
mod machines;
#[cfg(test)]
mod pairs;
#[cfg(test)]
mod programs;
#[cfg(test)]
mod routines;

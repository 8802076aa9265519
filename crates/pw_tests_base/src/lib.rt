//! Tests of the base: the outside in memory and the data-flow solver. What the contracts do not say, as tables of cases
//! whose answers come from outside. It has no code of its own.
#![tactic(auto)]

#[cfg(test)]
mod cases;
#[cfg(test)]
mod outside;
#[cfg(test)]
mod solver;

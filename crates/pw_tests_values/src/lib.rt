//! Tests of values, types and typed trees: what the contracts do not say, as tables of cases whose answers
//! are written by hand. It has no code of its own.
#![tactic(auto)]

#[cfg(test)]
mod cases;
#[cfg(test)]
mod fields;
#[cfg(test)]
mod trees;
#[cfg(test)]
mod types;
#[cfg(test)]
mod values;

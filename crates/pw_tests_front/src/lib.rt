//! Tests of the crates that read a text: tokens, names in scope, syntax trees and the front end. It has no code of its
//! own. Each test is a table of cases.
#![tactic(auto)]

#[cfg(test)]
mod fronts;
#[cfg(test)]
mod modules;
#[cfg(test)]
mod scopes;
#[cfg(test)]
mod spelling;
#[cfg(test)]
mod syntax;
#[cfg(test)]
mod tokens;

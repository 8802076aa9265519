//! The agreement of a source run with the machine's run, and that run as stages, in definitions.
#![tactic(auto)]

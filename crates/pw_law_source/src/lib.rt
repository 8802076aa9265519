//! The source's runs as stages, accepted programs, and what acceptance, the meaning of C and lowering owe, in definitions.
#![tactic(auto)]

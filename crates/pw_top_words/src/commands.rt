//! Commands.

use pw_build_opts::{Opts, RunOpts};
use pw_value::Name;

/// What a command line asks for.
///
/// `colours` is how many registers webs may have, at most [`pw_db::COLOUR_LIMIT`]; `stack` is the bytes of the stack, and `steps` how many
/// instructions a run may take; so are those of the options. A module's name is one that
/// `pw_store_modules::is_module_name` takes.
#[derive(Drop)]
pub enum Command {
    /// Build, then run.
    Go(RunOpts),
    /// Build.
    Build(Opts),
    /// A script of edits, builds and runs.
    Session(RunOpts),
    /// The text of a C module, preprocessed.
    Preprocess(Name),
    /// The first phase of a module, whose flow graph may be optimised.
    PhaseOne { name: Name, optimise: bool },
    /// The analysis of all modules.
    Analyse { colours: u8 },
    /// The second phase of a module.
    PhaseTwo(Name),
    /// The link of all modules.
    Link { stack: u32 },
    /// A run of the linked program.
    Run { steps: u64 },
    /// The linked program as text.
    List,
    /// The database as text.
    Db,
    /// A build, and a look at the call of a number, counted from 1, in the run.
    Where { call: u64, opts: RunOpts },
    /// A run of the modules by the meaning of C, of which `steps` is the bound, with the frames of a build's image.
    Interp(RunOpts),
    /// A build and a run of modules that are made from a number.
    Bench { number: u32, opts: RunOpts },
}

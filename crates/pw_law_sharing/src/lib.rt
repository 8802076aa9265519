//! The registers that functions share, in full builds: a law without code.
#![tactic(auto)]

ghost use Rattle.std.specs.Prelude.{Ok};
ghost use Rattle.pw_build_opts.specs.Options.{AreOpts};
ghost use Rattle.pw_store_modules.specs.Modules.{Texts};
ghost use Rattle.pw_build_opts.specs.declared.opts.Opts.{Opts};
ghost use Rattle.pw_build_objects.specs.Programs.{Parts};
ghost use Rattle.pw_build.specs.Builds.{FullBuild};
ghost use Rattle.pw_cmean.specs.Worlds.{Program};
ghost use Rattle.pw_law_whole.specs.Programs.{HavePlainNames, IsProgramOf};
ghost use Rattle.pw_law_sharing.specs.Sharing.{SharesSafely};

use pw_law_analysis::{databases_serve, roots_keep_registers};
use pw_law_layers::callers_hold_nothing_there;
use pw_law_lowering::lowering_keeps_runs;
use pw_law_whole::{full_builds_are_whole, full_builds_hold};

/// In each full build that gives parts, whoever calls a function that is free to use a register holds nothing in it over a call:
/// neither a global, by one of its webs, nor a value that it needs behind the call. And where the program is defined, a function
/// that saves a register for those below it has in it at its return what it had at its call. So it is by the database that the
/// analyser makes of the summaries of the build's flow graphs, and of the functions of which its objects are made.
pub fn full_builds_share_registers_safely()
    ensures { (texts : Texts) (opts : Opts) (parts : Parts) (p : Program) → FullBuild texts opts (Ok parts) → IsProgramOf texts p →
        HavePlainNames texts → AreOpts opts → SharesSafely p parts opts }
{
    full_builds_are_whole();
    full_builds_hold();
    lowering_keeps_runs();
    databases_serve();
    callers_hold_nothing_there();
    roots_keep_registers();
}

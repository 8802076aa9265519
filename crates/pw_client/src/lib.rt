//! A caller of the compiler who knows what the program will print: an example of how the main theorem is used.
#![tactic(auto)]

ghost use Rattle.std.specs.Prelude.{◌≡◌, IfSome, List, ℕ, Option, Some, map, string_bytes};
ghost use Rattle.pw_run_languages.specs.Programs.{AreBytes};
ghost use Rattle.pw_build_opts.specs.declared.opts.Opts.{Opts};
ghost use Rattle.pw_build_opts.specs.declared.opts.RunOpts.{RunOpts};
ghost use Rattle.pw_top.specs.Behind.{HoldsShortImage};
ghost use Rattle.pw_top.specs.FromLawSession.FromSession.FromBuildFiles.Genuine.{KeepsGenuine};
ghost use Rattle.pw_top_words.specs.CommandLine.{command_of};
ghost use Rattle.pw_top_words.specs.declared.commands.Command.TheVariants.{Build, Go, Run};
ghost use Rattle.pw_client.specs.Saying.{HoldsHello, SaysHi};

use pw_build::phase_one_is_exact;
use pw_hello::{hello_is_a_module, hello_says_hi};
use pw_image::laws::images_and_files_are_one_to_one;
use pw_io::{Sink, Source, Store};
use pw_top::laws::a_run_behind_a_build_is_go;
use pw_top::{Answer, full_builds_have_a_program, pawc_top};
use pw_top_words::laws::commands_are_within;
use std::alloc::Global;

/// Compiles, links and runs the module `hello` of a store. By the contract of the compiler alone, whatever registers and stack the
/// words ask for and whatever stands on the input, its image puts out "Hi" and ends with the status 0, unless the budget is spent
/// before that, linking refuses the program, or memory runs out or a store or stream fails; and but for want of memory, nothing is
/// put out that is no prefix of "Hi".
pub fn go_hello<S: Store, I: Source, O: Sink, E: Sink>(
    alloc: Global,
    words: &[String],
    store: &mut S,
    input: &mut I,
    out: &mut O,
    err: &mut E,
) -> Answer
    ensures { (opts : RunOpts) → command_of (map string_bytes words.now) ≡ Some (Go opts) → IfSome (S.told store.old) (λ told. HoldsHello told.files → KeepsGenuine told.files →
        IfSome (I.rest input.old) (λ rest. AreBytes rest → SaysHi result (O.taken out.old) (O.taken out.new))) }
{
    hello_is_a_module();
    hello_says_hi();
    images_and_files_are_one_to_one();
    full_builds_have_a_program();
    commands_are_within();
    phase_one_is_exact();
    pawc_top(alloc, words, store, input, out, err)
}

/// Compiles and links the module `hello` of a store, and runs what was built by a call of its own. Where the build is done, what the
/// run answers and puts out is what `go` would have: "Hi" and the status 0, or a prefix of "Hi". The image that the build left, and
/// the run left too, has to be short enough to be read whole.
pub fn build_and_run_hello<S: Store, I: Source, R: Sink, O: Sink, E: Sink>(
    alloc: Global,
    build: &[String],
    run: &[String],
    store: &mut S,
    input: &mut I,
    report: &mut R,
    out: &mut O,
    err: &mut E,
) -> (Answer, Answer)
    ensures { (opts : Opts) (steps : ℕ) → command_of (map string_bytes build.now) ≡ Some (Build opts) → command_of (map string_bytes run.now) ≡ Some (Run steps) → result.0 ≡ Answer.Done →
        IfSome (S.told store.old) (λ told. HoldsHello told.files → KeepsGenuine told.files → IfSome (I.rest input.old) (λ rest. AreBytes rest →
        IfSome (S.told store.new) (λ left. HoldsShortImage left.files → SaysHi result.1 (O.taken out.old) (O.taken out.new)))) }
{
    hello_is_a_module();
    hello_says_hi();
    images_and_files_are_one_to_one();
    full_builds_have_a_program();
    commands_are_within();
    phase_one_is_exact();
    a_run_behind_a_build_is_go();
    let built = pawc_top(alloc, build, store, input, report, err);
    let ran = pawc_top(alloc, run, store, input, out, err);
    (built, ran)
}

//! The law. The function here does nothing: its clause is a fact about all values.

ghost use Rattle.std.specs.Prelude.{ℕ, List, Ok};
ghost use Rattle.pw_build_opts.specs.Options.{AreOpts};
ghost use Rattle.pw_store_modules.specs.Modules.{Texts};
ghost use Rattle.pw_build_opts.specs.declared.opts.Opts.{Opts};
ghost use Rattle.pw_build_objects.specs.Programs.{Parts};
ghost use Rattle.pw_build.specs.Builds.{FullBuild};
ghost use Rattle.pw_cmean.specs.Worlds.{Program};
ghost use Rattle.pw_run_agreement.specs.Agreement.{IsDefined};
ghost use Rattle.pw_run_languages.specs.Programs.{AreBytes};
ghost use Rattle.pw_run_languages.specs.LinkingLaws.{frame_in};
ghost use Rattle.pw_law_source.specs.Source.{source_runs};
ghost use Rattle.pw_law_layers.specs.Whole.{image_of};
ghost use Rattle.pw_law_whole.specs.Programs.{HavePlainNames, IsProgramOf};
ghost use Rattle.pw_debug.specs.declared.info.FrameInfo.{FrameInfo};
ghost use Rattle.pw_debug_frames.specs.Frames.{AreFrames};
ghost use Rattle.pw_law_truth.specs.Truth.{ShowsTruth};

use pw_alloc_temps::laws::allocation_is_lawful;
use pw_build::phase_one_is_exact;
use pw_law_analysis::databases_serve;
use pw_law_direction::direction_keeps;
use pw_law_lowering::lowering_keeps_runs;
use pw_law_made::laws::built_objects_have_their_frames;
use pw_law_placed::places_keep;
use pw_law_truth::laws::lines_say_true;
use pw_law_whole::full_builds_are_whole;
use pw_opt::optimised_forms_are_one;

/// What the debugger shows at the k-th call of the image of a full build is the truth of the program of its texts, if this is
/// defined on the input.
pub fn full_builds_tell_the_truth()
    ensures { (texts : Texts) (opts : Opts) (parts : Parts) (p : Program) (frames : List FrameInfo) (k budget : ℕ) (input : List ℕ) →
        FullBuild texts opts (Ok parts) → IsProgramOf texts p → HavePlainNames texts → AreOpts opts →
        AreFrames parts.objects frames → AreBytes input → IsDefined (source_runs p (frame_in (image_of parts.objects opts.stack)) opts.stack input) →
        ShowsTruth p (image_of parts.objects opts.stack) parts.objects frames k budget input }
{
    allocation_is_lawful();
    phase_one_is_exact();
    databases_serve();
    direction_keeps();
    lowering_keeps_runs();
    built_objects_have_their_frames();
    places_keep();
    lines_say_true();
    full_builds_are_whole();
    optimised_forms_are_one();
}

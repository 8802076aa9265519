//! Laws of lowering's refinement, without code: both runs of a program start in states that match.
#![tactic(auto)]

ghost use Rattle.std.specs.Prelude.{◌≡◌, ◌<◌, ◌≤◌, ℕ, List, [], Some, All, length};
ghost use Rattle.pw_value.specs.Limits.{size_limit};
ghost use Rattle.pw_value.specs.ProgramNames.{main_name};
ghost use Rattle.pw_value.specs.Objects.{Object};
ghost use Rattle.pw_cmean.specs.Worlds.{World, Callable, function_number, function_named, function_at, global_number, start_objects};
ghost use Rattle.pw_cmean.specs.Typed.{IsByte};
ghost use Rattle.pw_run_languages.specs.Programs as flows;
ghost use Rattle.pw_run_languages.specs.FlowRun.{On, start};
ghost use Rattle.pw_law_refine_steps.specs.FromLawRefine.Lowerable.{IsLowerableWorld};
ghost use Rattle.pw_law_refine_steps.specs.FromLawRefine.Activations.{graphs};
ghost use Rattle.pw_law_refine_steps.specs.FromLawRefine.Standing.{MemoryStands};
ghost use Rattle.pw_law_refine_steps.specs.FromLawRefine.Matching.{IsGlobalAt, global_size};
ghost use Rattle.pw_law_refine_steps.specs.FromLawRefine.Calls.{FitShape};
ghost use Rattle.pw_law_refine_steps.specs.FromLawRefine.Whole.{AllPartsKeep, ProgramsKeepRuns, StartsMatch, start_machine};
ghost use Rattle.pw_law_refine_start.specs.Named.{IsFoundAs};
ghost use Rattle.pw_law_refine_start.specs.Start.{start_spots};

use pw_law_refine_steps::programs_rest_on_parts;

/// A name has the same number in the meaning of C as in the flow graphs: that of a function its place among all names of
/// functions, that of an object its place among the objects.
pub fn names_have_one_number()
    ensures functions { (world : World) (name : List ℕ) → IsLowerableWorld world →
        function_number world.program name ≡ flows.function_number (graphs world) name }
    ensures objects { (world : World) (name : List ℕ) → global_number world.program name ≡ flows.global_number (graphs world) name }
{}

/// What a name calls is found by both runs alike: a function of the library, or one of a module with its flow graph, which has
/// its shape; and by a number both find a function of the same name, which is the one that has that name.
pub fn functions_are_found()
    ensures names { (world : World) (name : List ℕ) (f : Callable) → IsLowerableWorld world → function_named world.program name ≡ Some f →
        IsFoundAs world name f }
    ensures numbers { (world : World) (n : ℕ) (f : Callable) → IsLowerableWorld world → function_at world.program n ≡ Some f →
        flows.function_at (graphs world) n ≡ Some f.name }
    ensures own { (world : World) (n : ℕ) (f : Callable) → IsLowerableWorld world → function_at world.program n ≡ Some f →
        function_named world.program f.name ≡ Some f }
{}

/// The objects at the start: each stands in the object of its own number, has the bytes that stand for its own there,
/// and lives; a number in a byte is one of 8 bits, and an object keeps the limit on sizes. An address in an initialiser
/// leads to the same place of the same object, or to the same function.
pub fn objects_stand_at_start()
    ensures memory { (world : World) → IsLowerableWorld world →
        MemoryStands (start_spots (graphs world)) (start_objects world.program) (flows.start_objects (graphs world)) }
    ensures globals { (world : World) (g : ℕ) → IsLowerableWorld world → g < length (flows.globals_of (graphs world)) →
        IsGlobalAt (global_size world g) (start_spots (graphs world)) (start_objects world.program) g }
    ensures bytes { (world : World) → IsLowerableWorld world →
        All (λ (o : Object). All IsByte o.bytes) (start_objects world.program) }
    ensures sizes { (world : World) → IsLowerableWorld world →
        All (λ (o : Object). length o.bytes ≤ size_limit) (start_objects world.program) }
{}

/// The run of the flow graphs begins in `$start`.
pub fn runs_begin_in_start()
    ensures { (world : World) (input : List ℕ) → IsLowerableWorld world →
        start (graphs world) input ≡ On (start_machine (graphs world) input) }
{}

/// In a program that can be lowered the shape of `main` fits a call without arguments, which is how a run begins (C90
/// 5.1.2.2.1).
pub fn main_takes_nothing()
    ensures { (world : World) (main : Callable) → IsLowerableWorld world → function_named world.program main_name ≡ Some main →
        FitShape main.shape [] }
{}

/// Both runs of a lowerable program start in states that match, and `main` takes nothing.
pub fn starts_match()
    ensures { StartsMatch }
{}

/// Where the parts of programs keep their promises at each bound, programs keep their runs.
pub fn parts_make_programs()
    ensures { AllPartsKeep → ProgramsKeepRuns }
{
    programs_rest_on_parts();
    starts_match();
}

//! The laws. A function here does nothing: its clause is a fact about all values.

ghost use Rattle.std.specs.Prelude.{ℕ, List};
ghost use Rattle.std.specs.List.{AllByRecursion};
ghost use Rattle.pw_cmean.specs.Acts.{Moment};
ghost use Rattle.pw_run.specs.Runs.{Met, Stage};
ghost use Rattle.pw_run_languages.specs.Programs.{Program};
ghost use Rattle.pw_run_languages.specs.LawfulPrograms.{IsProgram};
ghost use Rattle.pw_run_languages.specs.Traces.{Notes};
ghost use Rattle.pw_run_languages.specs.FlowRun.{flow_run};
ghost use Rattle.pw_law_source.specs.Lowering.{MomentKept};
ghost use Rattle.pw_law_bytes.specs.Stored.{HaveTheirBytesInC, HaveTheirBytesThen};

/// At each call and return that a run of flow graphs notes, whatever frames its functions take and whatever the stack, each global object has as many bytes as its size says, and each of
/// them that is a number is one of eight bits.
pub fn flow_globals_keep_their_bytes()
    ensures { (q : Program) (frame_of : List ℕ → ℕ) (stack : ℕ) (input : List ℕ) (n : ℕ) → IsProgram q →
        Notes (AllByRecursion (HaveTheirBytesThen q)) (flow_run (record q { frame_of = frame_of; stack = stack }) input n) }
{}

/// In C too, at each call and return that a stage of a program's run has noted, each global object has as many bytes as
/// its size says, and each of them that is a number is one of eight bits, if a run of flow graphs meets this stage with
/// the same globals.
pub fn globals_have_their_bytes()
    ensures { (q : Program) (frame_of : List ℕ → ℕ) (stack : ℕ) (input : List ℕ) (stage : Stage Moment) → IsProgram q →
        Met (MomentKept q) stage (flow_run (record q { frame_of = frame_of; stack = stack }) input) → Notes (AllByRecursion (HaveTheirBytesInC q)) stage }
{
    flow_globals_keep_their_bytes();
}

//! A law of accepted programs, without code: what the meaning of C accepts, the rules of linking accept.

ghost use Rattle.std.specs.Prelude.{ℕ, List, map};
ghost use Rattle.pw_cmean.specs.Worlds.{Program};
ghost use Rattle.pw_law_source.specs.Lowering.{IsAccepted, flow_program};
ghost use Rattle.pw_link_rules.specs.Linking.{Links};
ghost use Rattle.pw_law_build.specs.Alike.{shown};
ghost use Rattle.pw_law_accept.specs.Few.{AreFew};

/// The flow graphs of an accepted program keep the rules of linking, if there are no more functions and objects than a program
/// may have: each name that they use is defined, and once, all declarations of a name agree, and there is a `main`.
pub fn accepted_programs_keep_the_rules()
    ensures { (p : Program) (frame_of : List ℕ → ℕ) (stack : ℕ) → IsAccepted p frame_of stack → AreFew (flow_program p frame_of stack).modules → Links (map shown (flow_program p frame_of stack).modules) }
{}

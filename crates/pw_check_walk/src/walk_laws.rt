//! Laws of walks.

ghost use Rattle.std.specs.Prelude.{◌≡◌, ◌≢◌, ◌↔◌, Result, Ok, Err};
ghost use Rattle.pw_check_walk.specs.Answers.{Answers};
ghost use Rattle.pw_check_walk.specs.Walks.{Walk, bind, outcome};
ghost use Rattle.pw_check_walk.specs.declared.constraints.CheckFault.{CheckFault};
ghost use Rattle.pw_check_walk.specs.declared.constraints.CheckKind.TheVariants.{NoMemory};

/// What a walk answers is its outcome, and nothing else.
pub fn one_answer<A>()
    ensures { (w : Walk A) (answer : Result A CheckFault) → Answers w answer ↔ answer ≡ outcome w }
{}

/// No walk is refused for want of memory.
pub fn memory_is_no_fault<A>()
    ensures { (w : Walk A) (fault : CheckFault) → Answers w (Err fault) → fault.kind ≢ NoMemory }
{}

/// Behind a walk that made something the next one follows, and a walk's fault is that of both.
pub fn walks_follow<A, B>()
    ensures made { (w : Walk A) (next : A → Walk B) (a : A) → outcome w ≡ Ok a → outcome (bind w next) ≡ outcome (next a) }
    ensures stopped { (w : Walk A) (next : A → Walk B) (fault : CheckFault) → outcome w ≡ Err fault → outcome (bind w next) ≡ Err fault }
{}

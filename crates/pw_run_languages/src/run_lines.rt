//! The run of lines.

ghost use Rattle.std.specs.Prelude.{ℕ};
ghost use Rattle.pw_run.specs.Runs.{Stage, Refines, Same};
ghost use Rattle.pw_run_languages.specs.Traces.{Event, calls_of};
ghost use Rattle.pw_run_languages.specs.Late.{RefinesLately};

/// Runs in words whose logs may be behind by loads and stores of globals: a run is behind itself by nothing, nor is one
/// that refines; what refines a late run is late; and the calls and returns of a late run are not behind.
pub fn late_logs_compose()
    ensures itself { (a : ℕ → Stage (Event ℕ ℕ)) → RefinesLately Same a a }
    ensures exact { (a b : ℕ → Stage (Event ℕ ℕ)) → Refines Same a b → RefinesLately Same a b }
    ensures below { (a b c : ℕ → Stage (Event ℕ ℕ)) → RefinesLately Same a b → Refines Same b c → RefinesLately Same a c }
    ensures calls { (a b : ℕ → Stage (Event ℕ ℕ)) → RefinesLately Same a b → Refines Same (calls_of a) (calls_of b) }
{}

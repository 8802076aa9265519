//! Why a run does not go on.

ghost use Rattle.std.specs.Prelude.{◌≡◌, Ok, Err};
ghost use Rattle.pw_interp_state.specs.Answers.{unless, needed};

use pw_cmean::Undef;

/// Why a run does not go on: it met an undefined operation; or its tree is one of no accepted program.
#[derive(Clone, Copy)]
pub enum Fault {
    /// The run met this undefined operation.
    Undefined(Undef),
    /// The tree is one of no accepted program.
    Wrong,
}

/// An undefined operation that was found is the end.
pub(crate) fn judge(found: Option<Undef>) -> Result<(), Fault>
    ensures { result ≡ unless found (Ok tt) }
{
    match found {
        Some(operation) => Err(Fault::Undefined(operation)),
        None => Ok(()),
    }
}

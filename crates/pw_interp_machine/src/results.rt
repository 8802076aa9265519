//! How a run ends in which main returned (ISO C90 5.1.2.2.3).

ghost use Rattle.std.specs.Prelude.{◌≡◌};
ghost use Rattle.pw_interp_calls.specs.Endings.{view_ending};
ghost use Rattle.pw_interp_calls.specs.Functions.{callable_of};
ghost use Rattle.pw_interp_machine.specs.Ends as spec;

use pw_cmean::Undef;
use pw_interp_calls::Ending;
use pw_interp_world::Body;
use pw_value::Value;

/// How a run ends in which main returned this value: its low eight bits are the status.
fn ended_with<'a>(value: Value) -> Ending<'a>
    ensures { view_ending result ≡ spec.ended_with value }
{
    match value {
        Value::Num(n) => Ending::Exit((n % 256) as u8),
        _ => Ending::Wrong,
    }
}

/// How a run ends in which main returned no result: its name meets that.
fn unreturned<'a>(main: Body<'a>) -> Ending<'a>
    ensures { view_ending result ≡ spec.unreturned (callable_of main.entry).body }
{
    match main {
        Body::Defined(home, f) => Ending::Undefined(Undef::MissingResult, home.name, f.token),
        Body::Library(_) => Ending::Wrong,
    }
}

/// How a run ends in which main returned so.
pub fn finish<'a>(main: Body<'a>, given: Option<Value>) -> Ending<'a>
    ensures { view_ending result ≡ spec.finished (callable_of main.entry).body given }
{
    match given {
        Some(value) => ended_with(value),
        None => unreturned(main),
    }
}

//! Names that are met once.

ghost use Rattle.std.specs.Prelude.{◌≡◌, ◌∷◌, ℕ, List, [], length, IfOk, IfErr, ◌≢◌};
ghost use Rattle.pw_fields.specs.FieldFaults.{AnswersField};
ghost use Rattle.pw_fields.specs.FieldNames.{IsRisingFrom};
ghost use Rattle.pw_flowfile.specs.Reading.{fresh_at};
ghost use Rattle.pw_flowfile.specs.Marks.{Marks};

use pw_fields::FieldFault;
use pw_flow_ops::read_below;
use pw_value::Name;
use std::alloc::{AllocError, Global};

/// Marks beside a table of names, of which none was met.
pub fn unmarked(alloc: Global, names: &[Name]) -> Result<Vec<bool>, AllocError>
    ensures { IfOk result (λ v. Marks names.now [] v.items) }
{
    let mut met = Vec::new(alloc);
    for _name in names {
        met.push(false)?;
    }
    Ok(met)
}

/// A name of the table that was not met before; it is marked.
pub fn read_fresh<'a, 'b>(
    names: &'b [Name],
    met: &mut [bool],
    bytes: &'a [u8],
) -> Result<(&'b Name, &'a [u8]), FieldFault>
    requires { length met.old ≡ length names.now }
    ensures found { (seen : List (List ℕ)) → Marks names.now seen met.old → AnswersField (λ x. (x.0.now, x.1.now)) result (fresh_at names.now seen bytes.now) }
    ensures marked { IfOk result (λ x. (seen : List (List ℕ)) → IsRisingFrom [] names.now → Marks names.now seen met.old → Marks names.now (x.0.now ∷ seen) met.new) }
    ensures no_memory { IfErr result (λ e. e ≢ FieldFault.NoMemory) }
{
    let (number, rest) = read_below(names.len(), bytes)?;
    let index = number as usize;
    if met[index] {
        return Err(FieldFault::Fault { left: bytes.len() });
    }
    met[index] = true;
    Ok((&names[index], rest))
}

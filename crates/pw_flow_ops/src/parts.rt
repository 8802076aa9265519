//! The small parts of operations: indices, names, results, arguments, and what is copied.

ghost use Rattle.std.specs.Prelude.{◌≡◌, ◌<◌, ℕ, nat_le, nat_lt, List, length, IsOk, IfOk, IfErr, OnOk, ◌≢◌};
ghost use Rattle.pw_fields.specs.Fields.{u32_at, repeated, checked};
ghost use Rattle.pw_value.specs.Limits.{parameter_limit};
ghost use Rattle.pw_fields.specs.FieldFaults.{AnswersField, Fails};
ghost use Rattle.pw_flow.specs.ValidFlow.{IsUnit};
ghost use Rattle.pw_flow_ops.specs.Causes.{FaultFirst};
ghost use Rattle.pw_flow_ops.specs.Reading.{named_at, below_at, result_at, arguments_at, is_unit, is_whole, size_and_unit_at, moved_at};

use pw_fields::names::read_name;
use pw_fields::{FieldFault, read_u32};
use pw_items::Items;
use pw_value::Name;
use pw_value::limits::{PARAMETER_LIMIT, SIZE_LIMIT};
use pw_value::program_names::{StartName, is_allowed};
use std::alloc::Global;

/// What stands for a result that is not there.
pub const ABSENT: u32 = u32::MAX;

/// A number below a count.
pub fn read_below(count: usize, bytes: &[u8]) -> Result<(u32, &[u8]), FieldFault>
    ensures found { AnswersField (λ x. (x.0, x.1.now)) result (below_at count bytes.now) }
    ensures below { IfOk result (λ x. x.0 < count) }
    ensures no_memory { IfErr result (λ e. e ≢ FieldFault.NoMemory) }
{
    let (number, rest) = read_u32(bytes)?;
    if (number as usize) < count {
        Ok((number, rest))
    } else {
        Err(FieldFault::Fault { left: bytes.len() })
    }
}

/// A count of parameters or arguments.
pub fn read_few(bytes: &[u8]) -> Result<(u32, &[u8]), FieldFault>
    ensures found { AnswersField (λ x. (x.0, x.1.now)) result (checked (λ n. nat_le n parameter_limit) u32_at bytes.now) }
    ensures no_memory { IfErr result (λ e. e ≢ FieldFault.NoMemory) }
{
    let (number, rest) = read_u32(bytes)?;
    if number <= PARAMETER_LIMIT {
        Ok((number, rest))
    } else {
        Err(FieldFault::Fault { left: bytes.len() })
    }
}

/// A name of the table that may be named.
#[tactic(auto, unfolding(crate::specs::Reading::named_at))]
pub fn read_named<'a, 'b>(
    start: StartName,
    names: &'b [Name],
    bytes: &'a [u8],
) -> Result<(&'b Name, &'a [u8]), FieldFault>
    ensures found { AnswersField (λ x. (x.0.now, x.1.now)) result (named_at start names.now bytes.now) }
    ensures no_memory { IfErr result (λ e. e ≢ FieldFault.NoMemory) }
{
    let (name, rest) = read_name(names, bytes)?;
    if is_allowed(start, name) {
        Ok((name, rest))
    } else {
        Err(FieldFault::Fault { left: bytes.len() })
    }
}

/// A temporary, or none.
#[tactic(auto, unfolding(crate::specs::Reading::result_at))]
pub fn read_result(temps: u32, bytes: &[u8]) -> Result<(Option<u32>, &[u8]), FieldFault>
    ensures found { AnswersField (λ x. (x.0, x.1.now)) result (result_at temps bytes.now) }
    ensures no_memory { IfErr result (λ e. e ≢ FieldFault.NoMemory) }
{
    let (number, rest) = read_u32(bytes)?;
    if number == ABSENT {
        Ok((None, rest))
    } else if number < temps {
        Ok((Some(number), rest))
    } else {
        Err(FieldFault::Fault { left: bytes.len() })
    }
}

/// Looks at so many temporaries, and takes none.
fn check_temps(temps: u32, count: u32, bytes: &[u8]) -> Result<(), FieldFault>
    ensures lawful { OnOk result (IsOk (repeated (below_at temps) count bytes.now)) }
    ensures fault { IfErr result (λ e. Fails e (repeated (below_at temps) count bytes.now)) }
    ensures no_memory { IfErr result (λ e. e ≢ FieldFault.NoMemory) }
{
    let mut rest = bytes;
    for _ in 0..count {
        let (_, after) = read_below(temps as usize, rest)?;
        rest = after;
    }
    Ok(())
}

/// So many temporaries.
fn read_temps(
    alloc: Global,
    temps: u32,
    count: u32,
    bytes: &[u8],
) -> Result<(Items<u32>, &[u8]), FieldFault>
    ensures { AnswersField (λ x. (x.0, x.1.now)) result (repeated (below_at temps) count bytes.now) }
{
    let mut args = Items::new(alloc);
    let mut rest = bytes;
    for _ in 0..count {
        let (arg, after) = read_below(temps as usize, rest)?;
        args.push(arg)?;
        rest = after;
    }
    Ok((args, rest))
}

/// The arguments of a call. Memory is taken once they are all known to be lawful.
#[tactic(auto, unfolding(crate::specs::Reading::arguments_at))]
pub fn read_arguments(
    alloc: Global,
    temps: u32,
    bytes: &[u8],
) -> Result<(Items<u32>, &[u8]), FieldFault>
    ensures found { AnswersField (λ x. (x.0, x.1.now)) result (arguments_at temps bytes.now) }
    ensures fault_first { FaultFirst result (arguments_at temps bytes.now) }
{
    let (count, rest) = read_few(bytes)?;
    check_temps(temps, count, rest)?;
    read_temps(alloc, temps, count, rest)
}

/// The unit of a copy.
fn read_unit(bytes: &[u8]) -> Result<(u32, &[u8]), FieldFault>
    ensures found { AnswersField (λ x. (x.0, x.1.now)) result (checked is_unit u32_at bytes.now) }
    ensures unit { IfOk result (λ x. IsUnit x.0) }
    ensures no_memory { IfErr result (λ e. e ≢ FieldFault.NoMemory) }
{
    let (unit, rest) = read_u32(bytes)?;
    if unit == 1 || unit == 2 || unit == 4 {
        Ok((unit, rest))
    } else {
        Err(FieldFault::Fault { left: bytes.len() })
    }
}

/// How many bytes are copied, and in which units.
#[tactic(auto, unfolding(crate::specs::Reading::size_and_unit_at))]
fn read_size_and_unit(bytes: &[u8]) -> Result<((u32, u32), &[u8]), FieldFault>
    ensures found { AnswersField (λ x. (x.0, x.1.now)) result (size_and_unit_at bytes.now) }
    ensures unit { IfOk result (λ x. IsUnit x.0.1) }
    ensures no_memory { IfErr result (λ e. e ≢ FieldFault.NoMemory) }
{
    let (size, rest) = read_u32(bytes)?;
    let (unit, rest) = read_unit(rest)?;
    Ok(((size, unit), rest))
}

/// Whether so many bytes are a positive number of units, of at most a mebibyte.
fn is_lawful_copy(size: u32, unit: u32) -> bool
    requires { IsUnit unit }
    ensures { result ≡ is_whole (size, unit) }
{
    size % unit == 0 && size > 0 && size <= SIZE_LIMIT
}

/// How many bytes are copied, and in which units. The unit is looked at first.
#[tactic(auto, unfolding(crate::specs::Reading::moved_at))]
pub fn read_moved(bytes: &[u8]) -> Result<((u32, u32), &[u8]), FieldFault>
    ensures found { AnswersField (λ x. (x.0, x.1.now)) result (moved_at bytes.now) }
    ensures no_memory { IfErr result (λ e. e ≢ FieldFault.NoMemory) }
{
    let ((size, unit), rest) = read_size_and_unit(bytes)?;
    if is_lawful_copy(size, unit) {
        Ok(((size, unit), rest))
    } else {
        Err(FieldFault::Fault { left: bytes.len() })
    }
}

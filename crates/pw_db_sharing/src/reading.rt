//! Reading the registers that a function shares with others.

ghost use Rattle.std.specs.Prelude.{◌≡◌, ◌≢◌, ◌≤◌, ◌==◌, not, IfOk, IfErr};
ghost use Rattle.std.specs.List.{list_all};
ghost use Rattle.pw_fields.specs.Fields.{items_at};
ghost use Rattle.pw_fields.specs.FieldFaults.{AnswersField};
ghost use Rattle.pw_db.specs.Limits.{first_register, last_register};
ghost use Rattle.pw_db_sharing.specs.Reading.{kept_at, next_least, registers_at, no_sharing_at, all_sharing_at, sharing_at};

use pw_db::{FIRST, FIRST_REGISTER, LAST_REGISTER};
use pw_fields::{FieldFault, read_u8, read_u32};
use pw_items::Items;
use std::alloc::Global;

/// Whether a register is none of some others.
fn is_apart(others: &[u8], r: u8) -> bool
    ensures { result ≡ list_all (λ q. not (q == r)) others.now }
{
    for &other in others {
        if other == r {
            return false;
        }
    }
    true
}

/// A register that a callee keeps, from one on, that is none of some others.
#[tactic(auto, unfolding(crate::specs::Reading::kept_at))]
fn read_kept<'a>(others: &[u8], least: u8, bytes: &'a [u8]) -> Result<(u8, &'a [u8]), FieldFault>
    ensures found { AnswersField (λ x. (x.0, x.1.now)) result (kept_at others.now least bytes.now) }
    ensures high { IfOk result (λ x. x.0 ≤ last_register) }
    ensures no_memory { IfErr result (λ e. e ≢ FieldFault.NoMemory) }
{
    let (r, rest) = read_u8(bytes)?;
    if least <= r && r <= LAST_REGISTER && is_apart(others, r) {
        Ok((r, rest))
    } else {
        Err(FieldFault::Fault { left: bytes.len() })
    }
}

/// So many of them, which rise.
fn read_kept_items<'a>(
    alloc: Global,
    others: &[u8],
    count: u32,
    bytes: &'a [u8],
) -> Result<(Items<u8>, &'a [u8]), FieldFault>
    ensures { AnswersField (λ x. (x.0, x.1.now)) result (items_at (kept_at others.now) next_least count first_register bytes.now) }
{
    let mut registers = Items::new(alloc);
    let mut least = FIRST_REGISTER;
    let mut rest = bytes;
    for _ in 0..count {
        let (r, after) = read_kept(others, least, rest)?;
        registers.push(r)?;
        least = r + 1;
        rest = after;
    }
    Ok((registers, rest))
}

/// A list of them.
#[tactic(auto, unfolding(crate::specs::Reading::registers_at))]
fn read_registers<'a>(
    alloc: Global,
    others: &[u8],
    bytes: &'a [u8],
) -> Result<(Items<u8>, &'a [u8]), FieldFault>
    ensures { AnswersField (λ x. (x.0, x.1.now)) result (registers_at others.now bytes.now) }
{
    let (count, rest) = read_u32(bytes)?;
    read_kept_items(alloc, others, count, rest)
}

/// The registers that a function is free to use, and those that it saves for others.
#[derive(Drop)]
pub struct Sharing {
    pub free: Items<u8>,
    pub saves: Items<u8>,
}

/// None of either.
#[tactic(auto, unfolding(crate::specs::Reading::no_sharing_at))]
fn read_no_sharing(alloc: Global, bytes: &[u8]) -> Result<(Sharing, &[u8]), FieldFault>
    ensures { AnswersField (λ x. ((x.0.free, x.0.saves), x.1.now)) result (no_sharing_at bytes.now) }
{
    let (count, rest) = read_u32(bytes)?;
    if count == 0 {
        let free = Items::new(alloc);
        let saves = Items::new(alloc);
        Ok((Sharing { free, saves }, rest))
    } else {
        Err(FieldFault::Fault { left: bytes.len() })
    }
}

/// A list of each.
#[tactic(auto, unfolding(crate::specs::Reading::all_sharing_at))]
fn read_all_sharing(alloc: Global, bytes: &[u8]) -> Result<(Sharing, &[u8]), FieldFault>
    ensures { AnswersField (λ x. ((x.0.free, x.0.saves), x.1.now)) result (all_sharing_at bytes.now) }
{
    let (free, rest) = read_registers(alloc, &[], bytes)?;
    let (saves, rest) = read_registers(alloc, free.as_slice(), rest)?;
    Ok((Sharing { free, saves }, rest))
}

/// Reads what a function shares, in the form of a version, and answers what is left behind it. In the first version it is
/// nothing, and a count that is not 0 is a fault.
pub fn read_sharing(
    alloc: Global,
    version: u32,
    bytes: &[u8],
) -> Result<(Sharing, &[u8]), FieldFault>
    ensures { AnswersField (λ x. ((x.0.free, x.0.saves), x.1.now)) result (sharing_at version bytes.now) }
{
    if version == FIRST {
        read_no_sharing(alloc, bytes)
    } else {
        read_all_sharing(alloc, bytes)
    }
}

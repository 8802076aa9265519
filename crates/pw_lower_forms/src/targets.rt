//! Where scalar lvalues are: how they are read and written, and the values of lvalues.

ghost use Rattle.std.specs.Prelude.{◌≡◌, IfOk, OnOk, Some};
ghost use Rattle.pw_lower.specs.Codes.{lowered_as, value_is};
ghost use Rattle.pw_lower.specs.Expressions as spec;

use pw_flow::{BinKind, Op};
use pw_lower::{Code, LocalPlace, Target};
use pw_value::{Kind, Name, NoMemory};
use std::alloc::Global;

/// A scalar, read into a new temporary.
pub fn read(alloc: Global, kind: Kind, target: &Target, code: &mut Code) -> Result<u32, NoMemory>
    ensures { IfOk result (λ t. value_is t code.new ≡ spec.read_target kind target.now code.old) }
{
    match target {
        Target::Kept(temp) => code.copy(*temp),
        Target::Named(name) => code.load_global(name.copy(alloc)?, kind),
        Target::Led(address) => code.load(kind, *address),
    }
}

/// A temporary's value is written to a scalar.
pub fn write(kind: Kind, target: Target, value: u32, code: &mut Code) -> Result<(), NoMemory>
    ensures { OnOk result (code.new ≡ spec.write kind target value code.old) }
{
    match target {
        Target::Kept(temp) => code.emit(Op::Copy(temp, value)),
        Target::Named(name) => code.emit(Op::StoreG(name, value, kind)),
        Target::Led(address) => code.emit(Op::Store(kind, address, value)),
    }
}

/// An address and a number of bytes.
pub fn further(offset: u32, address: Option<u32>, code: &mut Code) -> Result<Option<u32>, NoMemory>
    ensures { IfOk result (λ t. lowered_as t code.new ≡ spec.further offset (lowered_as address code.old)) }
{
    if offset == 0 {
        return Ok(address);
    }
    let bytes = code.constant(offset)?;
    Ok(Some(code.binary(BinKind::Add, address.unwrap_or(0), bytes)?))
}

/// The address of a local. The value of one in a temporary stands for it, which has none.
pub fn address_of_local(place: LocalPlace, code: &mut Code) -> Result<u32, NoMemory>
    ensures { IfOk result (λ t. value_is t code.new ≡ spec.address_of_local place code.old) }
{
    match place {
        LocalPlace::Temp(temp) => Ok(temp),
        LocalPlace::Slot(slot) => code.slot_address(slot),
    }
}

/// Where a scalar local is: in its temporary, or behind the address of its slot, which a new temporary takes.
pub fn target_of_local(place: LocalPlace, code: &mut Code) -> Result<Target, NoMemory>
    ensures { IfOk result (λ target. spec.still target code.new ≡ spec.target_of_local place code.old) }
{
    match place {
        LocalPlace::Temp(temp) => Ok(Target::Kept(temp)),
        LocalPlace::Slot(slot) => Ok(Target::Led(code.slot_address(slot)?)),
    }
}

/// The value of an lvalue at an address: a scalar is read, and of all else the value is the address.
pub fn value_at(
    kind: Option<Kind>,
    address: Option<u32>,
    code: &mut Code,
) -> Result<Option<u32>, NoMemory>
    ensures { IfOk result (λ t. lowered_as t code.new ≡ spec.value_at kind (lowered_as address code.old)) }
{
    match kind {
        Some(kind) => Ok(Some(code.load(kind, address.unwrap_or(0))?)),
        None => Ok(address),
    }
}

/// The value of a global: a scalar is read by its name.
pub fn value_of_global(kind: Option<Kind>, name: Name, code: &mut Code) -> Result<u32, NoMemory>
    ensures { IfOk result (λ t. value_is t code.new ≡ spec.value_of_global kind name code.old) }
{
    match kind {
        Some(kind) => code.load_global(name, kind),
        None => code.global_address(name),
    }
}

/// The value of a local: a scalar in a temporary is copied.
pub fn value_of_local(
    kind: Option<Kind>,
    place: LocalPlace,
    code: &mut Code,
) -> Result<u32, NoMemory>
    ensures { IfOk result (λ t. value_is t code.new ≡ spec.value_of_local kind place code.old) }
{
    match (kind, place) {
        (Some(_), LocalPlace::Temp(temp)) => code.copy(temp),
        (None, LocalPlace::Temp(temp)) => Ok(temp),
        (Some(kind), LocalPlace::Slot(slot)) => {
            let address = code.slot_address(slot)?;
            code.load(kind, address)
        }
        (None, LocalPlace::Slot(slot)) => code.slot_address(slot),
    }
}

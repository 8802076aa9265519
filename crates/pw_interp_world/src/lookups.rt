//! What names denote, by the lists.

ghost use Rattle.std.specs.Prelude.{◌≡◌, ◌==◌, position};
ghost use Rattle.pw_interp_world.specs.Lookups as spec;

use pw_check_names::NameList;
use pw_value::Pointer;

/// The number of the function of a full name, where there is one.
pub(crate) fn number_by_name(names: &NameList, numbers: &[u32], name: &[u8]) -> Option<u32>
    ensures { result ≡ spec.number_by_name names.now numbers.now name.now }
{
    let place = names.position(name)?;
    numbers.get(place as usize).copied()
}

/// What a name denotes: the object of static lifetime at an offset, or else the function.
pub(crate) fn denoted(
    globals: &NameList,
    names: &NameList,
    numbers: &[u32],
    name: &[u8],
    offset: u32,
) -> Option<Pointer>
    ensures { result ≡ spec.denoted globals.now names.now numbers.now name.now offset }
{
    match globals.position(name) {
        Some(number) => Some(Pointer::Object(u128::from(number), offset)),
        None => {
            let number = number_by_name(names, numbers, name)?;
            Some(Pointer::Function(number))
        }
    }
}

/// The first place that has a number, where there is one.
pub(crate) fn place_of_number(numbers: &[u32], number: u32) -> Option<usize>
    ensures { result ≡ position (λ n. n == number) numbers.now }
{
    numbers.iter().position(|n| *n == number)
}

//! The objects of locals and parameters: each has one of its own (ISO C90 6.1.2.4).

ghost use Rattle.std.specs.Prelude.{◌≡◌, ◌+◌, false, IfOk, None, Some, if◌then◌else◌, option_map, slice_set};
ghost use Rattle.pw_value.specs.Objects.{ended};
ghost use Rattle.pw_interp_calls.specs.Views.{view_env};
ghost use Rattle.pw_interp_functions.specs.Locals as spec;

use pw_interp_calls::Env;
use pw_interp_state::Objects;
use pw_interp_world::exact_layout;
use std::alloc::{AllocError, Global};

/// Notes what object a local has; what is no local has none.
#[tactic(auto, using(std::proofs::lemmas::List::set_past))]
pub fn set_number(numbers: &mut [Option<u128>], local: usize, number: Option<u128>)
    ensures { numbers.new ≡ slice_set numbers.old local number }
{
    if local < numbers.len() {
        numbers[local] = number;
    }
}

/// Makes the object of a local, where it has a layout.
pub fn make_local<'a>(
    alloc: Global,
    env: &mut Env<'a>,
    objects: &mut Objects,
    local: usize,
) -> Result<bool, AllocError>
    ensures made { IfOk result (λ done. spec.made_one local (view_env env.old) objects.old ≡ (if done then Some (view_env env.new, objects.new) else None)) }
    ensures unmade { IfOk result (λ done. done ≡ false → objects.new ≡ objects.old) }
    ensures world { (view_env env.new).world ≡ (view_env env.old).world }
{
    let Some(declared) = env.locals.get(local) else {
        return Ok(false);
    };
    let Some(layout) = exact_layout(&env.home.tree.types, &declared.ty.ty)? else {
        return Ok(false);
    };
    let number = objects.make(alloc, layout.size, declared.writable)?;
    set_number(&mut env.numbers, local, Some(number));
    Ok(true)
}

/// Makes the objects of so many locals from the first one on, and answers where they are in scope; None where one of them
/// has no layout, behind those before it.
pub fn make_locals<'a>(
    alloc: Global,
    env: Env<'a>,
    objects: &mut Objects,
    count: u32,
) -> Result<Option<Env<'a>>, AllocError>
    ensures { IfOk result (λ inner. spec.made count 0 (view_env env.entry) objects.old ≡ (option_map view_env inner, objects.new)) }
{
    let mut inner = env;
    for i in 0..count {
        let made = make_local(alloc, &mut inner, objects, i as usize)?;
        if !made {
            return Ok(None);
        }
    }
    Ok(Some(inner))
}

/// The object ends that stands so far behind the one with this number; where there is none, none does.
#[tactic(auto, using(std::proofs::lemmas::List::set_past))]
fn end_behind(objects: &mut Objects, number: u128, place: u32)
    ensures { objects.new ≡ ended (number + place) objects.old }
{
    if number < objects.count() as u128 {
        objects.end(number + u128::from(place));
    }
}

/// The objects of so many parameters end, which have the numbers from one on.
pub fn end_parameters(objects: &mut Objects, count: u32, number: u128)
    ensures { objects.new ≡ spec.all_ended count number objects.old }
{
    let mut left = count;
    while left > 0 {
        left -= 1;
        end_behind(objects, number, left);
    }
}

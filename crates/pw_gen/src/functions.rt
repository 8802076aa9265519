//! The functions of a made module.

ghost use Rattle.std.specs.Prelude.{◌≡◌, ◌+◌, ◌*◌, ◌%◌, ◌^◌, ◌<◌, ◌++◌, IfOk, OnOk};
ghost use Rattle.std.specs.String.{string_bytes};
ghost use Rattle.pw_gen.specs.Generator.{after, answer, declaration, drawn, factor_part, functions_of_a_module, mask_part, member, next_declaration};

use std::alloc::{AllocError, Global};

/// How many functions a module has.
pub const FUNCTIONS: u32 = 8;

/// The count of functions is the one that the definitions speak of.
pub fn functions_of_a_module()
    ensures { FUNCTIONS ≡ functions_of_a_module }
{}

/// What follows on a number.
fn next(number: u32) -> u32
    ensures { result ≡ (1664525 * number + 1013904223) % 2 ^ 32 }
{
    number.wrapping_mul(1_664_525).wrapping_add(1_013_904_223)
}

/// What a draw gives that left a number, below a bound.
fn drawn(number: u32, bound: u32) -> u32
    requires { 0 < bound }
    ensures { result ≡ drawn number bound }
{
    number / 65_536 % bound
}

/// Draws a factor, a mask and the number of a module.
#[tactic(auto, unfolding(crate::specs::Generator::after))]
fn draw_three(state: &mut u32, count: u32) -> (u32, u32, u32)
    requires { 0 < count }
    ensures state { state.new ≡ after 3 state.old }
    ensures factor { result.0 ≡ drawn (after 1 state.old) 1000 }
    ensures mask { result.1 ≡ drawn (after 2 state.old) 1000 }
    ensures module { result.2 ≡ drawn (after 3 state.old) count }
{
    let first = next(*state);
    let second = next(first);
    let third = next(second);
    *state = third;
    (drawn(first, 1000), drawn(second, 1000), drawn(third, count))
}

/// The declaration of a function of a module.
pub fn declaration(alloc: Global, k: u32, j: u32) -> Result<String, AllocError>
    ensures { IfOk result (λ s. string_bytes s ≡ declaration k j) }
{
    format!(in alloc; "unsigned f{k}_{j}(unsigned x);\n")
}

/// What a function gives back.
fn answer(alloc: Global, count: u32, k: u32, j: u32) -> Result<String, AllocError>
    requires small { k < 2 ^ 16 }
    requires functions { j < functions_of_a_module }
    ensures { IfOk result (λ s. string_bytes s ≡ answer count k j) }
{
    if j + 1 < FUNCTIONS {
        return format!(in alloc; "f{k}_{}(x+g{k})", j + 1);
    }
    if k + 1 < count {
        return format!(in alloc; "f{}_0(x+g{k})", k + 1);
    }
    format!(in alloc; "x")
}

/// Adds the declaration of the next function of the module, where there is one.
fn add_next_declaration(alloc: Global, out: &mut Vec<u8>, k: u32, j: u32) -> Result<(), AllocError>
    requires { j < functions_of_a_module }
    ensures { OnOk result (out.new.items ≡ out.old.items ++ next_declaration k j) }
{
    if j + 1 < FUNCTIONS {
        out.extend_from_slice(declaration(alloc, k, j + 1)?.as_bytes())?;
    }
    Ok(())
}

/// Adds a function and, before it, the declaration of the next one.
#[tactic(auto, unfolding(crate::specs::Generator::member))]
pub fn add_member(
    alloc: Global,
    out: &mut Vec<u8>,
    count: u32,
    k: u32,
    j: u32,
    state: &mut u32,
) -> Result<(), AllocError>
    requires some { 0 < count }
    requires small { k < 2 ^ 16 }
    requires functions { j < functions_of_a_module }
    ensures added { OnOk result (out.new.items ≡ out.old.items ++ member count k j state.old) }
    ensures state { OnOk result (state.new ≡ after 3 state.old) }
{
    add_next_declaration(alloc, out, k, j)?;
    let (factor, mask, other) = draw_three(state, count);
    out.extend_from_slice(factor_part(alloc, k, j, factor)?.as_bytes())?;
    let given = answer(alloc, count, k, j)?;
    out.extend_from_slice(mask_part(alloc, other, mask, given.as_str())?.as_bytes())?;
    Ok(())
}

/// The front of a function: its module's global times a factor, with the parameter added.
fn factor_part(alloc: Global, k: u32, j: u32, factor: u32) -> Result<String, AllocError>
    ensures { IfOk result (λ s. string_bytes s ≡ factor_part k j factor) }
{
    format!(in alloc; "unsigned f{k}_{j}(unsigned x){{g{k}=g{k}*{factor}u+x; ")
}

/// The rest of a function: the global of another module under a mask, and what is given back.
fn mask_part(alloc: Global, other: u32, mask: u32, given: &str) -> Result<String, AllocError>
    ensures { IfOk result (λ s. string_bytes s ≡ mask_part other mask given.now) }
{
    format!(in alloc; "g{other}=g{other}^{mask}u; return {given};}}\n")
}

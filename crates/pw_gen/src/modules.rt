//! Made modules, and the program of them.

ghost use Rattle.std.specs.Prelude.{◌≡◌, ◌≤◌, ◌+◌, ◌*◌, ◌<◌, ◌^◌, ◌++◌, ℕ, IfOk, OnOk, map, flat_map};
ghost use Rattle.std.specs.List.{range_with_len};
ghost use Rattle.std.specs.String.{string_bytes};
ghost use Rattle.pw_gen.specs.Generator.{after, draws_before, foreign_global, functions_of_a_module, generated, main_text, members, module_file, module_text};

use crate::functions::{FUNCTIONS, add_member, declaration};
use std::alloc::{AllocError, Global};

/// Adds the declaration of a module's global, where it is another module.
fn add_foreign_global(
    alloc: Global,
    out: &mut Vec<u8>,
    k: u32,
    other: u32,
) -> Result<(), AllocError>
    ensures { OnOk result (out.new.items ≡ out.old.items ++ foreign_global k other) }
{
    if other != k {
        out.extend_from_slice(format!(in alloc; "extern unsigned g{other};\n")?.as_bytes())?;
    }
    Ok(())
}

/// Adds the declarations of the other modules' globals.
fn add_foreign_globals(
    alloc: Global,
    out: &mut Vec<u8>,
    count: u32,
    k: u32,
) -> Result<(), AllocError>
    ensures { OnOk result (out.new.items ≡ out.old.items ++ flat_map (foreign_global k) (range_with_len 0 count)) }
{
    for other in 0..count {
        add_foreign_global(alloc, out, k, other)?;
    }
    Ok(())
}

/// Adds the functions of a module, and takes their draws.
fn add_members(
    alloc: Global,
    out: &mut Vec<u8>,
    count: u32,
    k: u32,
    state: &mut u32,
) -> Result<(), AllocError>
    requires some { 0 < count }
    requires small { k < 2 ^ 16 }
    ensures added { OnOk result (out.new.items ≡ out.old.items ++ members count k functions_of_a_module state.old) }
    ensures state { OnOk result (state.new ≡ after (3 * functions_of_a_module) state.old) }
{
    for j in 0..FUNCTIONS {
        add_member(alloc, out, count, k, j, state)?;
    }
    Ok(())
}

/// A module, with its draws taken.
#[tactic(auto, unfolding(crate::specs::Generator::module_text))]
fn module_text(alloc: Global, count: u32, k: u32, state: &mut u32) -> Result<Vec<u8>, AllocError>
    requires some { 0 < count }
    requires small { k < 2 ^ 16 }
    ensures text { (number : ℕ) → state.old ≡ after (draws_before k) number → IfOk result (λ v. v.items ≡ module_text number count k) }
    ensures state { OnOk result (state.new ≡ after (3 * functions_of_a_module) state.old) }
{
    let mut out = Vec::new(alloc);
    out.extend_from_slice(format!(in alloc; "unsigned g{k};\n")?.as_bytes())?;
    add_foreign_globals(alloc, &mut out, count, k)?;
    if k + 1 < count {
        out.extend_from_slice(declaration(alloc, k + 1, 0)?.as_bytes())?;
    }
    add_members(alloc, &mut out, count, k, state)?;
    Ok(out)
}

/// The name of a module's file.
#[tactic(auto, unfolding(crate::specs::Generator::module_file))]
fn module_file(alloc: Global, k: u32) -> Result<String, AllocError>
    ensures { IfOk result (λ s. string_bytes s ≡ module_file k) }
{
    format!(in alloc; "m{k}.i")
}

/// The program of a number: modules `m0.i` to the last of `count`, and `main.i`, each with its text.
///
/// Fails only where memory runs out.
pub fn generate(alloc: Global, number: u32, count: u8) -> Result<Vec<(String, Vec<u8>)>, AllocError>
    requires { 1 ≤ count }
    ensures { IfOk result (λ files. map (λ f. (string_bytes f.0, f.1.items)) files.items ≡ generated number count) }
{
    let modules = u32::from(count);
    let mut state = number;
    let mut files = Vec::new(alloc);
    for k in 0..modules {
        let text = module_text(alloc, modules, k, &mut state)?;
        files.push((module_file(alloc, k)?, text))?;
    }
    files.push((format!(in alloc; "main.i")?, main_text(alloc)?))?;
    Ok(files)
}

/// The text of the program's main.
#[tactic(auto, unfolding(crate::specs::Generator::main_text))]
fn main_text(alloc: Global) -> Result<Vec<u8>, AllocError>
    ensures { IfOk result (λ v. v.items ≡ main_text) }
{
    b"unsigned f0_0(unsigned x); int main(void){unsigned t; unsigned i; t=0u; for(i=0u;i<100u;i++)t=t+f0_0(i); return t&255u;}\n".to_vec(
        alloc,
    )
}

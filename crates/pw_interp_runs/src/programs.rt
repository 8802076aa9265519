//! A program that was linked, as its run takes it.

ghost use Rattle.std.specs.Prelude.{◌≡◌, ◌∷◌, [], IfOk, map};
ghost use Rattle.pw_image.specs.declared.image.Image.{Image};
ghost use Rattle.pw_image.specs.Image.{Contents, IsImageFile};
ghost use Rattle.pw_store_modules.specs.Views.{source};
ghost use Rattle.pw_interp.specs.Programs.{module_of};
ghost use Rattle.pw_build_files.specs.Outcomes.{HoldsImage};
ghost use Rattle.pw_interp_runs.specs.Running.{AreTyped, frame_in, frames_of};

use pw_build_files::phase_typed;
use pw_front_end::FrontEndFault;
use pw_image::{LoadError, Map, read_map};
use pw_store_modules::Module;
use pw_typed::TModule;
use pw_value::Name;
use std::alloc::{AllocError, Global};

/// The typed trees of modules by their names, and the frames that their functions take on the stack.
#[derive(Drop)]
pub struct Program {
    pub modules: Vec<(Name, TModule)>,
    pub frames: Vec<(Name, u32)>,
}

/// The typed tree of a module by its name. A module that is refused, which no build takes, has none.
fn typed_module(alloc: Global, which: &Module) -> Result<(Name, TModule), AllocError>
    ensures { IfOk result (λ m. AreTyped (source which.now ∷ []) (module_of m ∷ [])) }
{
    match phase_typed(alloc, which.text.as_slice()) {
        Ok(tree) => Ok((which.name.copy(alloc)?, tree)),
        Err(FrontEndFault::Refused(_)) | Err(FrontEndFault::NoMemory) => Err(AllocError),
    }
}

/// The typed trees of modules by their names, in their order.
fn typed_modules(alloc: Global, modules: &[Module]) -> Result<Vec<(Name, TModule)>, AllocError>
    ensures { IfOk result (λ typed. AreTyped (map source modules.now) (map module_of typed.items)) }
{
    let mut typed = Vec::new(alloc);
    for which in modules {
        typed.push(typed_module(alloc, which)?)?;
    }
    Ok(typed)
}

/// The frames of the functions in a map, by their full names.
fn frames_of_map(alloc: Global, found: Map) -> Result<Vec<(Name, u32)>, AllocError>
    ensures { IfOk result (λ frames. frames.items ≡ map frame_in found.functions) }
{
    found
        .functions
        .into_vec()
        .into_iter()
        .map(|f| (f.0, f.2))
        .collect(alloc)
}

/// The frames of an image's functions, by their full names.
fn frames_in(alloc: Global, image: &[u8]) -> Result<Vec<(Name, u32)>, AllocError>
    requires { HoldsImage image.now }
    ensures { IfOk result (λ frames. (c : Contents Image) → IsImageFile image.now c → frames.items ≡ frames_of c.value) }
{
    match read_map(alloc, image) {
        Ok(found) => frames_of_map(alloc, found),
        Err(LoadError::NoMemory) => Err(AllocError),
        Err(LoadError::LoadFault { .. }) => unreachable!(),
    }
}

/// The program of modules that were linked to an image.
pub fn program_of(alloc: Global, modules: &[Module], image: &[u8]) -> Result<Program, AllocError>
    requires { HoldsImage image.now }
    ensures typed { IfOk result (λ program. AreTyped (map source modules.now) (map module_of program.modules.items)) }
    ensures frames { IfOk result (λ program. (c : Contents Image) → IsImageFile image.now c → program.frames.items ≡ frames_of c.value) }
{
    Ok(Program {
        modules: typed_modules(alloc, modules)?,
        frames: frames_in(alloc, image)?,
    })
}

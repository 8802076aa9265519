//! The objects of static lifetime, each at its number.

ghost use Rattle.std.specs.Prelude.{◌≡◌, ◌++◌, map, IfOk, OnOk};
ghost use Rattle.pw_typed.specs.Views.{view_module, view_global};
ghost use Rattle.pw_value.specs.Objects.{with_object};
ghost use Rattle.pw_cmean.specs.Worlds as worlds;
ghost use Rattle.pw_interp_world.specs.Views.{view_part, view_program};

use crate::items::put_items;
use pw_interp_state::Objects;
use pw_interp_world::{Part, World, exact_layout};
use pw_typed::TGlobal;
use pw_value::Byte;
use std::alloc::{AllocError, Global};

/// Puts an object of static lifetime behind the others.
#[tactic(auto, using(crate::proofs::ItemLemmas::length_with_items))]
fn add_object(
    alloc: Global,
    world: &World,
    part: Part,
    global: &TGlobal,
    objects: &mut Objects,
) -> Result<(), AllocError>
    ensures { OnOk result (objects.new ≡ with_object (worlds.object_of (view_program world.now.parts.now) (view_part part.entry) (view_global global.now)) objects.old) }
{
    let size = match exact_layout(&part.tree.types, &global.ty.ty)? {
        Some(layout) => layout.size,
        None => 0,
    };
    let mut bytes = Vec::new(alloc);
    bytes.resize(size as usize, Byte::Num(0))?;
    put_items(alloc, world, part.name, &global.items, &mut bytes)?;
    let _number = objects.add(bytes, global.writable)?;
    Ok(())
}

/// Puts the objects of a module behind the others.
fn add_objects(
    alloc: Global,
    world: &World,
    part: Part,
    objects: &mut Objects,
) -> Result<(), AllocError>
    ensures { OnOk result (objects.new ≡ objects.old ++ map (worlds.object_of (view_program world.now.parts.now) (view_part part.entry)) (view_module part.entry.tree.now).globals) }
{
    for global in &part.tree.globals {
        add_object(alloc, world, part, global, objects)?;
    }
    Ok(())
}

/// The objects of static lifetime at the start of a run, each at its number (ISO C90 5.1.2, 6.1.2.4, 6.5.7).
pub fn start_objects(alloc: Global, world: &World) -> Result<Objects, AllocError>
    ensures { IfOk result (λ objects. objects ≡ worlds.start_objects (view_program world.now.parts.now)) }
{
    let mut objects = Objects::new(alloc);
    for part in world.parts {
        add_objects(alloc, world, *part, &mut objects)?;
    }
    Ok(objects)
}

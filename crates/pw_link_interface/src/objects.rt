//! The interfaces of object files.

ghost use Rattle.std.specs.Prelude.{◌≡◌, map, IfOk};
ghost use Rattle.pw_link_interface.specs.Interface.{interface};

use crate::mains::main_of;
use crate::names::{function_names, global_names};
use crate::used::used_names;
use pw_items::Items;
use pw_link_rules::Interface;
use pw_object::Object;
use pw_value::copied_shapes;
use std::alloc::{AllocError, Global};

/// What a module shows to the others.
fn interface_of(alloc: Global, object: &Object) -> Result<Interface, AllocError>
    ensures { IfOk result (λ i. i ≡ interface object.now) }
{
    Ok(Interface {
        module: object.module.copy(alloc)?,
        functions: function_names(alloc, object.functions.as_slice())?,
        globals: global_names(alloc, object.globals.as_slice())?,
        declared: Items::from_vec(copied_shapes(alloc, object.declared.as_slice())?),
        used: used_names(alloc, object)?,
        main: main_of(alloc, object)?,
    })
}

/// What modules show to each other, in their order, by which `check_program` says whether they make a program.
/// It fails for want of memory alone.
pub fn interfaces(alloc: Global, objects: &[&Object]) -> Result<Vec<Interface>, AllocError>
    ensures { IfOk result (λ all. all.items ≡ map (λ o. interface o.now) objects.now) }
{
    let mut all = Vec::new(alloc);
    for object in objects {
        all.push(interface_of(alloc, object)?)?;
    }
    Ok(all)
}

//! The library as a module.

ghost use Rattle.std.specs.Prelude.{◌≡◌, ◌++◌, ◌∷◌, [], length, IfOk, OnOk};
ghost use Rattle.pw_link_rules.specs.Linking.{library, library_declarations};
ghost use Rattle.pw_value.specs.Names.{IsNameLength};
ghost use Rattle.pw_value.specs.ProgramNames.{library_functions};

use crate::interface::Interface;
use pw_items::Items;
use pw_value::program_names::{
    EXIT, EXIT_SHAPE, GETCHAR, GETCHAR_SHAPE, LIBRARY, PUTCHAR, PUTCHAR_SHAPE,
};
use pw_value::{Name, Shape};
use std::alloc::{AllocError, Global};

/// The library's functions.
fn functions(alloc: Global) -> Result<Items<Name>, AllocError>
    ensures { IfOk result (λ names. names ≡ library_functions) }
{
    let mut names = Items::new(alloc);
    names.push(Name::within(alloc, EXIT)?)?;
    names.push(Name::within(alloc, GETCHAR)?)?;
    names.push(Name::within(alloc, PUTCHAR)?)?;
    Ok(names)
}

/// Adds a declaration.
fn declare(
    alloc: Global,
    declared: &mut Items<(Name, Shape)>,
    name: &[u8],
    shape: &[u8],
) -> Result<(), AllocError>
    requires { IsNameLength (length name.now) }
    ensures { OnOk result (declared.new ≡ declared.old ++ (name.now, shape.now) ∷ []) }
{
    let shape = Shape::new(Vec::from_slice(alloc, shape)?);
    declared.push((Name::within(alloc, name)?, shape))
}

/// The library's declarations.
fn declarations(alloc: Global) -> Result<Items<(Name, Shape)>, AllocError>
    ensures { IfOk result (λ declared. declared ≡ library_declarations) }
{
    let mut declared = Items::new(alloc);
    declare(alloc, &mut declared, EXIT, EXIT_SHAPE)?;
    declare(alloc, &mut declared, GETCHAR, GETCHAR_SHAPE)?;
    declare(alloc, &mut declared, PUTCHAR, PUTCHAR_SHAPE)?;
    Ok(declared)
}

/// The library as a module.
pub fn built_in(alloc: Global) -> Result<Interface, AllocError>
    ensures { IfOk result (λ i. i ≡ library) }
{
    Ok(Interface {
        module: Name::within(alloc, LIBRARY)?,
        functions: functions(alloc)?,
        globals: Items::new(alloc),
        declared: declarations(alloc)?,
        used: Items::new(alloc),
        main: None,
    })
}

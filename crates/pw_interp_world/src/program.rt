//! The modules of a program and its functions.

ghost use Rattle.std.specs.Prelude.{◌≡◌, ◌++◌, ◌∷◌, [], false, length, map, IfOk, OnOk};
ghost use Rattle.pw_typed.specs.Views.{view_module, view_function};
ghost use Rattle.pw_types.specs.Shapes.{shape_of};
ghost use Rattle.pw_types.specs.Views.{view_type};
ghost use Rattle.pw_value.specs.Names.{IsNameLength};
ghost use Rattle.pw_cmean.specs.Worlds as worlds;
ghost use Rattle.pw_interp_world.specs.Views.{view_part, view_program, view_callable, view_callables, view_library};

use pw_check_types::{copy_type, plain};
use pw_lower_forms::full_name;
use pw_typed::{TFunction, TModule};
use pw_types::{CType, Types, shape};
use pw_value::program_names::{EXIT, EXIT_SHAPE, GETCHAR, GETCHAR_SHAPE, PUTCHAR, PUTCHAR_SHAPE};
use pw_value::{Name, Shape};
use std::alloc::{AllocError, Global};

/// A module of a program: its name and its typed tree.
#[derive(Clone, Copy)]
pub struct Part<'a> {
    pub name: &'a Name,
    pub tree: &'a TModule,
}

/// The functions that every program has (ISO C90 7.9.7.6, 7.9.7.9, 7.10.4.3).
#[derive(Clone, Copy)]
pub enum LibraryFunction {
    /// `getchar`
    GetChar,
    /// `putchar`
    PutChar,
    /// `exit`
    ExitRun,
}

/// What a call of a function runs: its definition, in its module; or what the library has.
#[derive(Clone, Copy)]
pub enum Body<'a> {
    /// The function's definition, in its module.
    Defined(Part<'a>, &'a TFunction),
    /// A function of the library.
    Library(LibraryFunction),
}

/// A function by its full name, with its shape and its body.
#[derive(Drop)]
pub struct Callable<'a> {
    pub name: Name,
    pub shape: Shape,
    pub body: Body<'a>,
}

/// All functions of a program, those of the library first.
pub fn callables<'a>(alloc: Global, parts: &[Part<'a>]) -> Result<Vec<Callable<'a>>, AllocError>
    ensures { IfOk result (λ v. view_callables v.items ≡ worlds.functions_of (view_program parts.now)) }
{
    let mut all = library(alloc)?;
    for part in parts {
        add_functions(alloc, &mut all, *part)?;
    }
    Ok(all)
}

/// The functions of the library.
fn library<'a>(alloc: Global) -> Result<Vec<Callable<'a>>, AllocError>
    ensures { IfOk result (λ v. view_callables v.items ≡ worlds.library) }
{
    let mut all = Vec::new(alloc);
    all.push(built_in(alloc, EXIT, EXIT_SHAPE, LibraryFunction::ExitRun)?)?;
    all.push(built_in(alloc, GETCHAR, GETCHAR_SHAPE, LibraryFunction::GetChar)?)?;
    all.push(built_in(alloc, PUTCHAR, PUTCHAR_SHAPE, LibraryFunction::PutChar)?)?;
    Ok(all)
}

/// A function of the library.
fn built_in<'a>(
    alloc: Global,
    name: &[u8],
    shape: &[u8],
    body: LibraryFunction,
) -> Result<Callable<'a>, AllocError>
    requires { IsNameLength (length name.now) }
    ensures { IfOk result (λ c. view_callable c ≡ record { name = name.now; shape = shape.now; body = worlds.Library (view_library body) }) }
{
    Ok(Callable {
        name: Name::within(alloc, name)?,
        shape: Shape::new(Vec::from_slice(alloc, shape)?),
        body: Body::Library(body),
    })
}

/// Puts the functions of a module behind the others.
fn add_functions<'a>(
    alloc: Global,
    all: &mut Vec<Callable<'a>>,
    part: Part<'a>,
) -> Result<(), AllocError>
    ensures { OnOk result (view_callables all.new.items ≡ view_callables all.old.items ++ map (worlds.callable (view_part part.entry)) (view_module part.entry.tree.now).functions) }
{
    for f in &part.tree.functions {
        let callable = callable_of(alloc, part, f)?;
        all.push(callable)?;
    }
    Ok(())
}

/// The shape of a type without its own mark.
pub fn plain_shape(alloc: Global, types: &Types, ty: &CType) -> Result<Shape, AllocError>
    ensures { IfOk result (λ shape. shape ≡ shape_of types.now (view_type ty.now) false) }
{
    let unmarked = plain(copy_type(alloc, ty)?);
    shape(alloc, types, &unmarked)
}

/// A function of a module.
fn callable_of<'a>(
    alloc: Global,
    part: Part<'a>,
    f: &'a TFunction,
) -> Result<Callable<'a>, AllocError>
    ensures { IfOk result (λ c. view_callable c ≡ worlds.callable (view_part part.entry) (view_function f.now)) }
{
    Ok(Callable {
        name: full_name(alloc, part.name, &f.name)?,
        shape: plain_shape(alloc, &part.tree.types, &f.ty.ty)?,
        body: Body::Defined(part, f),
    })
}

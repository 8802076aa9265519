//! What modules define, declare and use, each in one list.

ghost use Rattle.std.specs.Prelude.{◌≡◌, ◌++◌, map, OnOk, IfOk, length};
ghost use Rattle.std.specs.List.{flat_map, sum_by};
ghost use Rattle.pw_value.specs.Caps.{capped};
ghost use Rattle.pw_link_rules.specs.Linking.{names_in, defined_in, declared_in, function_count, global_count};
ghost use Rattle.pw_link_rules.specs.Entries.{definition, declaration};

use crate::interface::Interface;
use pw_files::used::add_names;
use pw_value::{Name, Shape};
use std::alloc::{AllocError, Global};

/// A name that a module defines.
#[derive(Clone, Copy)]
pub(crate) struct Defined<'a> {
    pub name: &'a Name,
    pub module: &'a Name,
}

/// A name that a module declares, with its shape there.
#[derive(Clone, Copy)]
pub(crate) struct Declared<'a> {
    pub name: &'a Name,
    pub module: &'a Name,
    pub shape: &'a Shape,
}

/// How many functions the modules define.
pub(crate) fn count_functions(modules: &[Interface]) -> u64
    ensures { result ≡ capped (function_count modules.now) }
{
    let mut count: u64 = 0;
    for each in modules {
        count = count.saturating_add(each.functions.len() as u64);
    }
    count
}

/// How many objects the modules define.
pub(crate) fn count_globals(modules: &[Interface]) -> u64
    ensures { result ≡ capped (global_count modules.now) }
{
    let mut count: u64 = 0;
    for each in modules {
        count = count.saturating_add(each.globals.len() as u64);
    }
    count
}

/// The names that modules define, the library's first.
pub(crate) fn defined_names<'a>(
    alloc: Global,
    built_in: &'a Interface,
    modules: &'a [Interface],
) -> Result<Vec<&'a Name>, AllocError>
    ensures { IfOk result (λ v. map (λ name. name.now) v.items ≡ names_in built_in.now ++ flat_map names_in modules.now) }
{
    let mut names = Vec::new(alloc);
    add_names(&mut names, built_in.functions.as_slice())?;
    add_names(&mut names, built_in.globals.as_slice())?;
    for each in modules {
        add_names(&mut names, each.functions.as_slice())?;
        add_names(&mut names, each.globals.as_slice())?;
    }
    Ok(names)
}

/// The names that modules use.
pub(crate) fn used_names(alloc: Global, modules: &[Interface]) -> Result<Vec<&Name>, AllocError>
    ensures { IfOk result (λ v. map (λ name. name.now) v.items ≡ flat_map (λ i. i.used) modules.now) }
{
    let mut names = Vec::new(alloc);
    for each in modules {
        add_names(&mut names, each.used.as_slice())?;
    }
    Ok(names)
}

/// Adds names that a module defines.
fn add_defined<'a>(
    all: &mut Vec<Defined<'a>>,
    names: &'a [Name],
    home: &'a Name,
) -> Result<(), AllocError>
    ensures { OnOk result (map definition all.new.items ≡ map definition all.old.items ++ map (λ name. (name, home.now)) names.now) }
{
    for name in names {
        all.push(Defined { name, module: home })?;
    }
    Ok(())
}

/// Adds what a module defines.
fn add_definitions<'a>(all: &mut Vec<Defined<'a>>, each: &'a Interface) -> Result<(), AllocError>
    ensures { OnOk result (map definition all.new.items ≡ map definition all.old.items ++ defined_in each.now) }
{
    add_defined(all, each.functions.as_slice(), &each.module)?;
    add_defined(all, each.globals.as_slice(), &each.module)
}

/// What modules define, the library first.
pub(crate) fn definitions<'a>(
    alloc: Global,
    built_in: &'a Interface,
    modules: &'a [Interface],
) -> Result<Vec<Defined<'a>>, AllocError>
    ensures { IfOk result (λ v. map definition v.items ≡ defined_in built_in.now ++ flat_map defined_in modules.now) }
{
    let mut all = Vec::new(alloc);
    add_definitions(&mut all, built_in)?;
    for each in modules {
        add_definitions(&mut all, each)?;
    }
    Ok(all)
}

/// Adds names that a module declares.
fn add_declared<'a>(
    all: &mut Vec<Declared<'a>>,
    declared: &'a [(Name, Shape)],
    home: &'a Name,
) -> Result<(), AllocError>
    ensures { OnOk result (map declaration all.new.items ≡ map declaration all.old.items ++ map (λ d. (d.0, home.now, d.1)) declared.now) }
{
    for (name, shape) in declared {
        all.push(Declared {
            name,
            module: home,
            shape,
        })?;
    }
    Ok(())
}

/// Adds what a module declares.
fn add_declarations<'a>(all: &mut Vec<Declared<'a>>, each: &'a Interface) -> Result<(), AllocError>
    ensures { OnOk result (map declaration all.new.items ≡ map declaration all.old.items ++ declared_in each.now) }
{
    add_declared(all, each.declared.as_slice(), &each.module)
}

/// What modules declare, the library first.
pub(crate) fn declarations<'a>(
    alloc: Global,
    built_in: &'a Interface,
    modules: &'a [Interface],
) -> Result<Vec<Declared<'a>>, AllocError>
    ensures { IfOk result (λ v. map declaration v.items ≡ declared_in built_in.now ++ flat_map declared_in modules.now) }
{
    let mut all = Vec::new(alloc);
    add_declarations(&mut all, built_in)?;
    for each in modules {
        add_declarations(&mut all, each)?;
    }
    Ok(all)
}

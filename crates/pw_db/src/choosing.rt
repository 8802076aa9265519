//! The directives of a module's functions.

ghost use Rattle.std.specs.Prelude.{◌≡◌, ◌≢◌, map, IfOk, IfSome, IfNone, All, Contains};
ghost use Rattle.pw_files.specs.Rising.{IsRising};
ghost use Rattle.pw_db.specs.Database.{IsDatabase, EachTwo, CanBeStored, HasDirectives, empty, say_something};

use crate::database::{Database, Directives, Role, Web};
use pw_items::Items;
use pw_value::Name;
use std::alloc::{AllocError, Global};

impl Web {
    /// Another web of the same.
    pub fn copy(&self, alloc: Global) -> Result<Web, AllocError>
        ensures { IfOk result (λ w. w ≡ self.now) }
    {
        Ok(Web {
            id: self.id,
            global: self.global.copy(alloc)?,
            kind: self.kind,
            reg: self.reg,
            writes: self.writes,
        })
    }
}

/// The same webs again.
fn copy_webs(alloc: Global, webs: &[(Web, Role)]) -> Result<Items<(Web, Role)>, AllocError>
    ensures { IfOk result (λ v. v ≡ webs.now) }
{
    let mut copies = Items::new(alloc);
    for web in webs {
        copies.push((web.0.copy(alloc)?, web.1))?;
    }
    Ok(copies)
}

impl Directives {
    /// No webs, and no registers that are free to use or to be saved.
    pub fn none(alloc: Global) -> Directives
        ensures { result ≡ empty }
    {
        Directives {
            webs: Items::new(alloc),
            free: Items::new(alloc),
            saves: Items::new(alloc),
        }
    }

    /// Whether they hold a web, a register that is free to use, or one to save for others. The analyser gives a database no
    /// directives that hold none of these.
    pub fn say_something(&self) -> bool
        ensures { result ≡ say_something self.now }
    {
        !self.webs.is_empty() || (!self.free.is_empty() || !self.saves.is_empty())
    }

    /// The same directives again.
    pub fn copy(&self, alloc: Global) -> Result<Directives, AllocError>
        ensures { IfOk result (λ d. d ≡ self.now) }
    {
        Ok(Directives {
            webs: copy_webs(alloc, self.webs.as_slice())?,
            free: Items::from_slice(alloc, self.free.as_slice())?,
            saves: Items::from_slice(alloc, self.saves.as_slice())?,
        })
    }
}

/// The directives of a function that a database has, by halves.
fn find<'a>(functions: &'a [(Name, Directives)], name: &Name) -> Option<&'a Directives>
    requires { IsRising (map (λ f. f.0) functions.now) }
    ensures found { IfSome result (λ d. Contains functions.now (name.now, d.now)) }
    ensures none { IfNone result (¬ Contains (map (λ f. f.0) functions.now) name.now) }
{
    match functions.binary_search_by(|function| function.0.cmp(name)) {
        Ok(place) => Some(&functions[place].1),
        Err(_) => None,
    }
}

/// The directives of a function in a database, or none.
fn directives_of(
    alloc: Global,
    functions: &[(Name, Directives)],
    name: &Name,
) -> Result<Directives, AllocError>
    requires { IsRising (map (λ f. f.0) functions.now) }
    ensures { IfOk result (λ d. HasDirectives functions.now (name.now, d)) }
{
    match find(functions, name) {
        Some(directives) => directives.copy(alloc),
        None => Ok(Directives::none(alloc)),
    }
}

/// The functions in their order, each with its directives in the database; they are empty where the
/// database lacks it. Where no name stands twice, their payload can be made.
pub fn of_module(
    alloc: Global,
    db: &Database,
    functions: &[Name],
) -> Result<Vec<(Name, Directives)>, AllocError>
    requires { IsDatabase db.now.functions }
    ensures functions { IfOk result (λ v. map (λ f. f.0) v.items ≡ functions.now) }
    ensures directives { IfOk result (λ v. All (λ f. HasDirectives db.now.functions f) v.items) }
    ensures can_be_stored { IfOk result (λ v. EachTwo (λ f g. f ≢ g) functions.now → CanBeStored v.items) }
{
    let mut all = Vec::new(alloc);
    for name in functions {
        let directives = directives_of(alloc, db.functions.as_slice(), name)?;
        all.push((name.copy(alloc)?, directives))?;
    }
    Ok(all)
}

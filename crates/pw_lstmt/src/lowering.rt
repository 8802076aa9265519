//! A function while it is lowered, one expression after another.

ghost use Rattle.std.specs.Prelude.{◌≡◌, false, true, IfOk, OnErr, OnOk, IsErr};
ghost use Rattle.pw_lexpr.specs.Homes.{view_home};
ghost use Rattle.pw_lower.specs.Codes.{lowered_as};
ghost use Rattle.pw_lower.specs.Expressions.{lower as lowered};
ghost use Rattle.pw_lower.specs.Modules.{entered as entry};
ghost use Rattle.pw_lower.specs.Places.{places_of as places};
ghost use Rattle.pw_typed.specs.Views.{view_expr, view_function};

use crate::functions::entered;
use pw_lexpr::{Home, lower};
use pw_lower::{Code, LocalPlace};
use pw_lower_places::places_of;
use pw_typed::{TExpr, TFunction};
use pw_types::Types;
use pw_value::{Name, NoMemory};
use std::alloc::Global;

/// A function that is being lowered: its module's name, its code so far, the place of each parameter and
/// local, and whether memory was refused, after which every call answers so.
#[derive(Drop)]
pub struct Lowering {
    pub module: Name,
    pub code: Code,
    pub places: Vec<LocalPlace>,
    pub failed: bool,
}

impl Lowering {
    /// The beginning of a function: its first block, and its parameters where they stand.
    pub fn new(
        alloc: Global,
        types: &Types,
        module: &Name,
        f: &TFunction,
    ) -> Result<Lowering, NoMemory>
        ensures module_name { IfOk result (λ l. l.«module» ≡ «module».now) }
        ensures code { IfOk result (λ l. l.code ≡ entry (view_function f.now)) }
        ensures places { IfOk result (λ l. l.places.items ≡ places (view_function f.now)) }
        ensures failed { IfOk result (λ l. l.failed ≡ false) }
    {
        let _ = types;
        let places = places_of(alloc, f)?;
        let code = entered(alloc, f, &places)?;
        Ok(Lowering {
            module: module.copy(alloc)?,
            code,
            places,
            failed: false,
        })
    }
}

/// The temporary of an expression's value; none where its type is void. After want of memory every later
/// call answers that.
pub fn lower_expr(
    alloc: Global,
    types: &Types,
    e: &TExpr,
    into: &mut Lowering,
) -> Result<Option<u32>, NoMemory>
    ensures lowered { IfOk result (λ t. lowered_as t into.new.code
        ≡ lowered (record { name = into.old.«module»; records = types.now; places = into.old.places.items }) (view_expr e.now) into.old.code) }
    ensures kept { OnOk result (into.new ≡ record into.old { code = into.new.code }) }
    ensures failed { OnErr result (into.new.failed ≡ true) }
    ensures still { into.old.failed ≡ true → IsErr result }
{
    if into.failed {
        return Err(NoMemory);
    }
    let home = Home {
        name: &into.module,
        types,
        places: &into.places,
    };
    let lowered = lower(alloc, home, e, &mut into.code);
    into.failed = lowered.is_err();
    lowered
}

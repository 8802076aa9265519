//! The object of one module: the one that was kept, or a new one.

ghost use Rattle.std.specs.Prelude.{◌≡◌, ◌+◌, ◌↔◌, IfOk, IfSome, IsTrue, OnErr, OnOk, if◌then◌else◌};
ghost use Rattle.pw_flow.specs.FlowGraph.{named_in};
ghost use Rattle.pw_flow.specs.ValidFlow.{IsValid};
ghost use Rattle.pw_object.specs.Object.{IsObject};
ghost use Rattle.pw_phase_two.specs.Origins.{IsOriginOf};
ghost use Rattle.pw_summarise.specs.Summarises.{IsOrdered};
ghost use Rattle.pw_phase_two.specs.Phases.{AreDirectivesOf, IsObjectOf};
ghost use Rattle.pw_build_objects.specs.Programs.{IsObjectFrom};
ghost use Rattle.pw_build_objects.specs.Choosing.{HasOrigin, IsKept};

use crate::steps::Steps;
use pw_db::Directives;
use pw_db_file::laws::one_list_is_stored;
use pw_flow::FlowModule;
use pw_flowfile::laws::flow_graphs_and_files_are_one_to_one;
use pw_object::Object;
use pw_phase_two::{Interface, Origin, object_of, origin_of};
use pw_value::Name;
use std::alloc::{AllocError, Global};
use std::sync::ledger::Ledger;

/// The object of a lawful module under the directives of its functions, with what it declares and uses and with its origin; an
/// object that is made counts as one step.
fn new_object<L: Ledger>(
    alloc: Global,
    flow: FlowModule,
    interface: Interface,
    directives: &[(Name, Directives)],
    origin: Origin,
    steps: &mut Steps<L>,
) -> Result<Object, AllocError>
    requires lawful { IsValid flow }
    requires declared { IsOrdered (λ d. d.0) flow.declared interface.declared }
    requires used { IsOrdered (λ name. name) (named_in flow) interface.used }
    requires directives { AreDirectivesOf flow directives.now }
    requires origin { IsOriginOf flow directives.now origin }
    ensures object { IfOk result (λ o. IsObjectOf flow directives.now o) }
    ensures lawful { IfOk result (λ o. IsObject o) }
    ensures counted { OnOk result (steps.new ≡ steps.old + 1) }
    ensures uncounted { OnErr result (steps.new ≡ steps.old) }
{
    let object = object_of(alloc, flow, interface, directives, origin)?;
    steps.step();
    Ok(object)
}

/// Whether bytes are the same.
fn are_same(one: &[u8], other: &[u8]) -> bool
    ensures { IsTrue result ↔ (one.now ≡ other.now) }
{
    one == other
}

/// Whether an object was made of this: whether it stands in it.
fn is_made_of(origin: &Origin, old: &Object) -> bool
    ensures { IsTrue result ↔ HasOrigin origin.now old.now }
{
    are_same(old.flow.as_slice(), &origin.flow)
        && are_same(old.directives.as_slice(), &origin.directives)
}

/// What was kept of a module, where it stays: where the module's origin stands in it.
fn taken(origin: &Origin, old: Option<Object>) -> Option<Object>
    ensures { IsKept origin.now old result }
{
    let Some(object) = old else {
        return None;
    };
    if is_made_of(origin, &object) {
        Some(object)
    } else {
        None
    }
}

/// The object of a module, and whether it is made anew.
#[derive(Drop)]
pub struct Made {
    pub object: Object,
    pub fresh: bool,
}

/// The object of a module under directives: the one that was kept where it stays, else a new one. The module's origin is
/// made once, to be compared and to stand in the new object; what of the flow graph stands in the object, and what the module
/// declares and uses, go over into it.
pub fn object_from<L: Ledger>(
    alloc: Global,
    flow: FlowModule,
    interface: Interface,
    directives: &[(Name, Directives)],
    old: Option<Object>,
    steps: &mut Steps<L>,
) -> Result<Made, AllocError>
    requires lawful { IsValid flow }
    requires declared { IsOrdered (λ d. d.0) flow.declared interface.declared }
    requires used { IsOrdered (λ name. name) (named_in flow) interface.used }
    requires directives { AreDirectivesOf flow directives.now }
    requires kept { IfSome old IsObject }
    ensures object { IfOk result (λ made. IsObjectFrom flow directives.now old made.object made.fresh) }
    ensures lawful { IfOk result (λ made. IsObject made.object) }
    ensures counted { IfOk result (λ made. steps.new ≡ steps.old + (if made.fresh then 1 else 0)) }
    ensures uncounted { OnErr result (steps.new ≡ steps.old) }
{
    flow_graphs_and_files_are_one_to_one();
    one_list_is_stored();
    let origin = origin_of(alloc, &flow, directives)?;
    match taken(&origin, old) {
        Some(object) => Ok(Made {
            object,
            fresh: false,
        }),
        None => Ok(Made {
            object: new_object(alloc, flow, interface, directives, origin, steps)?,
            fresh: true,
        }),
    }
}

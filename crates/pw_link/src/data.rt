//! The global objects of a linked program, and where they stand.

ghost use Rattle.std.specs.Prelude.{◌≡◌, ◌+◌, ◌≤◌, map, IfOk};
ghost use Rattle.std.specs.List.{flat_map, sum_by};
ghost use Rattle.pw_value.specs.Caps.{capped};
ghost use Rattle.pw_value.specs.Limits.{memory_size};
ghost use Rattle.pw_link.specs.Layout.{standing_from};
ghost use Rattle.pw_flow.specs.ValidFlow.{global_room};
ghost use Rattle.pw_link.specs.Views.{standing_view};

use pw_flow::{FlowGlobal, add_globals};
use pw_link_interface::Object;
use pw_value::slot_room;
use std::alloc::{AllocError, Global};

/// An object at its offset from the start of the data.
#[derive(Clone, Copy)]
pub(crate) struct Standing<'a> {
    pub offset: u32,
    pub global: &'a FlowGlobal,
}

/// What an object takes of the data.
fn global_room(global: &FlowGlobal) -> u64
    ensures { result ≡ global_room global.now }
{
    slot_room(global.size)
}

/// The objects of the modules.
pub(crate) fn globals_of<'a>(
    alloc: Global,
    order: &[&'a Object],
) -> Result<Vec<&'a FlowGlobal>, AllocError>
    ensures { IfOk result (λ all. map (λ g. g.now) all.items ≡ flat_map (λ o. o.globals) (map (λ o. o.now) order.now)) }
{
    let mut all = Vec::new(alloc);
    for object in order {
        add_globals(&mut all, object.globals.as_slice())?;
    }
    Ok(all)
}

/// How many bytes objects take, as far as the number goes.
pub(crate) fn count_bytes(globals: &[&FlowGlobal]) -> u64
    ensures { result ≡ capped (sum_by global_room (map (λ g. g.now) globals.now)) }
{
    let mut count: u64 = 0;
    for each in globals {
        count = count.saturating_add(global_room(each));
    }
    count
}

/// The objects at their offsets.
#[tactic(auto, using(crate::proofs::Growing::standing_from_push))]
pub(crate) fn at_offsets<'a>(
    alloc: Global,
    globals: &[&'a FlowGlobal],
) -> Result<Vec<Standing<'a>>, AllocError>
    requires { sum_by global_room (map (λ g. g.now) globals.now) ≤ memory_size }
    ensures { IfOk result (λ stood. map standing_view stood.items ≡ standing_from 0 (map (λ g. g.now) globals.now)) }
{
    let mut stood = Vec::new(alloc);
    let mut offset: u32 = 0;
    for global in globals {
        stood.push(Standing { offset, global })?;
        offset += global_room(global) as u32;
    }
    Ok(stood)
}

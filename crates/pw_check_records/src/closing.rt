//! Definitions of structures and unions by their members (C90 6.5.2.1, 5.2.4.1).

ghost use Rattle.std.specs.Prelude.{◌≡◌};
ghost use Rattle.pw_check_state.specs.Follows.{Leads};
ghost use Rattle.pw_check_state.specs.StateViews.{view_state};
ghost use Rattle.pw_check_records.specs.Parts.{fault_of_record, told_limit};
ghost use Rattle.pw_check_records.specs.Views.{view_member_list};
ghost use Rattle.pw_check_rules.specs.Leaves as spec;
ghost use Rattle.pw_types.specs.Views.{view_qtype};

use crate::members::MemberList;
use pw_check_state::{State, fault};
use pw_check_types::plain;
use pw_check_walk::{CheckFault, CheckKind, Which};
use pw_types::{CType, QType, RecordFault, RecordKind, are_object_types, record_content};
use std::alloc::Global;

// A limit that a structure or union passes, at a token.
fn record_fault(refused: RecordFault, token: usize) -> CheckFault
    ensures { result ≡ fault_of_record refused token }
{
    match refused {
        RecordFault::TooLarge(size) => limit_fault(Which::ObjectSize, size, token),
        RecordFault::ShapeTooLong(length) => limit_fault(Which::ShapeLength, length, token),
        RecordFault::TooDeep(depth) => limit_fault(Which::TypeDepth, depth, token),
        RecordFault::NoMemory => fault(CheckKind::NoMemory, token),
    }
}

// A count that passes a limit, at a token.
fn limit_fault(limit: Which, count: u64, token: usize) -> CheckFault
    ensures { result ≡ told_limit limit count token }
{
    fault(CheckKind::Limit(limit, count), token)
}

/// The definition of a structure or union by its members; its own limits stand at the token. Members without a size no
/// rule lets come: they answer want of memory.
pub fn closing_rule(
    alloc: Global,
    state: &mut State,
    kind: RecordKind,
    token: usize,
    number: u32,
    members: MemberList,
) -> Result<QType, CheckFault>
    ensures { Leads view_qtype (spec.closing_rule kind token number (view_member_list members.entry)) (view_state state.old) result (view_state state.new) }
{
    let members = members.into_members();
    let types = state.records();
    if !are_object_types(types, &members) {
        return Err(fault(CheckKind::NoMemory, token));
    }
    match record_content(alloc, types, kind, members) {
        Ok(content) => {
            state.define_record(number, kind, content)?;
            Ok(plain(CType::Record(number)))
        }
        Err(refused) => Err(record_fault(refused, token)),
    }
}

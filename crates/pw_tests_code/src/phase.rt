//! Flow files under directives, compiled.

ghost use Rattle.pw_flow.specs.ValidFlow.{IsValid};
ghost use Rattle.pw_db.specs.Database.{IsDatabase};

use crate::codes::push_object;
use pw_db::{Database, VERSION};
use pw_db_file::read_payload;
use pw_flow::FlowModule;
use pw_object::Object;
use pw_phase_two::{directives_for, phase_two};
use pw_rows::Text;
use std::alloc::{AllocError, Global};

/// The object of a lawful module, with its directives in a database.
fn compiled(alloc: Global, flow: &FlowModule, db: &Database) -> Result<Object, AllocError>
    requires lawful { IsValid flow.now }
    requires database { IsDatabase db.now.functions }
{
    let directives = directives_for(alloc, flow, db)?;
    phase_two(alloc, flow, &directives)
}

/// Adds the code of a lawful module's functions.
fn push_code(text: &mut Text, flow: &FlowModule, db: &Database)
    requires lawful { IsValid flow.now }
    requires database { IsDatabase db.now.functions }
{
    match compiled(text.alloc(), flow, db) {
        Ok(object) => push_object(text, &object),
        Err(AllocError) => text.cut(),
    }
}

/// Adds the code of a lawful module's functions under the directives of a payload.
fn push_under(text: &mut Text, flow: &FlowModule, payload: &[u8])
    requires lawful { IsValid flow.now }
{
    match read_payload(text.alloc(), payload) {
        Ok(functions) => push_code(
            text,
            flow,
            &Database {
                version: VERSION,
                functions,
            },
        ),
        Err(_) => text.push(b"no files"),
    }
}

/// Adds the code of a flow file's functions under the directives of a payload.
fn push_file(text: &mut Text, flow: &[u8], payload: &[u8]) {
    match pw_flowfile::read(text.alloc(), flow) {
        Ok(flow) => push_under(text, &flow, payload),
        Err(_) => text.push(b"no files"),
    }
}

/// Adds the code of a row's flow file under the row's directives.
pub fn push_compiled(text: &mut Text, row: &str) {
    let (flow, payload) = row.split_once(' ').unwrap_or((row, ""));
    let (flow, payload) = (text.spelled(flow), text.spelled(payload));
    push_file(text, &flow, &payload);
}

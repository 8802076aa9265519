//! What an object was made of.

ghost use Rattle.std.specs.Prelude.{IfOk};
ghost use Rattle.pw_flow.specs.ValidFlow.{IsValid};
ghost use Rattle.pw_flowfile.specs.FlowFile.{IsFlowFile};
ghost use Rattle.pw_db.specs.Database.{IsDatabase};
ghost use Rattle.pw_db_file.specs.Spelling.{IsPayload};
ghost use Rattle.pw_debug_frames.specs.Frames.{IsMade};

use pw_db::{Database, VERSION};
use pw_db_file::read_payload;
use pw_flow::FlowModule;
use pw_object::Object;
use pw_value::FileError;
use std::alloc::{AllocError, Global};

/// The flow graph that an object was made of.
pub(crate) fn flow_of(alloc: Global, object: &Object) -> Result<FlowModule, AllocError>
    requires { IsMade object.now }
    ensures file { IfOk result (λ flow. IsFlowFile object.now.flow flow) }
    ensures lawful { IfOk result (λ flow. IsValid flow) }
{
    match pw_flowfile::read(alloc, object.flow.as_slice()) {
        Ok(flow) => Ok(flow),
        Err(FileError::NoMemory) => Err(AllocError),
        Err(FileError::FileFault { .. }) => unreachable!(),
    }
}

/// The directives that an object was made of: those that say something, as a database.
pub(crate) fn stored_of(alloc: Global, object: &Object) -> Result<Database, AllocError>
    requires { IsMade object.now }
    ensures payload { IfOk result (λ db. IsPayload object.now.directives db.functions) }
    ensures lawful { IfOk result (λ db. IsDatabase db.functions) }
{
    match read_payload(alloc, object.directives.as_slice()) {
        Ok(functions) => Ok(Database {
            version: VERSION,
            functions,
        }),
        Err(FileError::NoMemory) => Err(AllocError),
        Err(FileError::FileFault { .. }) => unreachable!(),
    }
}

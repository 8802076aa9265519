//! What an object is made of.

ghost use Rattle.std.specs.Prelude.{IfOk};
ghost use Rattle.pw_flow.specs.ValidFlow.{IsValid};
ghost use Rattle.pw_phase_two.specs.Origins.{IsOriginOf};
ghost use Rattle.pw_phase_two.specs.Phases.{AreDirectivesOf};

use pw_db::Directives;
use pw_db_file::payload;
use pw_flow::FlowModule;
use pw_value::Name;
use std::alloc::{AllocError, Global};

/// What an object was made of, as it stands in the object's file: the file of its flow graph, and the payload of the
/// directives of its functions.
#[derive(Drop)]
pub struct Origin {
    pub flow: Vec<u8>,
    pub directives: Vec<u8>,
}

/// The origin of the object of a lawful module under the directives of its functions.
pub fn origin_of(
    alloc: Global,
    flow: &FlowModule,
    directives: &[(Name, Directives)],
) -> Result<Origin, AllocError>
    requires lawful { IsValid flow.now }
    requires directives { AreDirectivesOf flow.now directives.now }
    ensures { IfOk result (λ origin. IsOriginOf flow.now directives.now origin) }
{
    let file = pw_flowfile::write(alloc, flow)?;
    let stored = payload(alloc, directives)?;
    Ok(Origin {
        flow: file,
        directives: stored,
    })
}

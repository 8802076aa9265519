//! Where an expression or a statement stands.

use crate::world::World;
use pw_interp_world::Part;
use pw_typed::Local;

/// Where an expression or a statement stands: the world; the module, and the function's locals; and the number of the
/// object that each local has, where it is in scope.
#[derive(Drop)]
pub struct Env<'a> {
    pub world: &'a World<'a>,
    pub home: Part<'a>,
    pub locals: &'a [Local],
    pub numbers: Vec<Option<u128>>,
}

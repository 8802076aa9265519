//! The names that are known while a module is checked, with their places, a switch's cases, and what names stand
//! for.
#![tactic(auto)]

pub mod cases;
pub mod entity;
pub mod linked;
pub mod names;
pub mod scoped;

pub use cases::CaseList;
pub use entity::{Entity, HiddenObject, LinkedName, SwitchState};
pub use linked::LinkedNames;
pub use names::NameList;
pub use scoped::VisibleNames;

//! The checker's state and what all its rules share: operands, what is known while a module is checked, and the form in
//! which code follows a rule.
#![tactic(auto)]

mod bodies;
mod globals;
mod names;
pub mod operand;
pub mod phrase;
pub mod phrases;
mod places;
pub mod state;
mod trees;
pub mod values;

pub use operand::Operand;
pub use phrase::{Bindings, Declared, Derivation, Gathered, Parameter, Specified, Spot};
pub use phrases::{Phrases, whole_rule};
pub use pw_check_names::{
    CaseList, Entity, HiddenObject, LinkedName, LinkedNames, NameList, SwitchState,
};
pub use pw_check_walk::{Finding, fault, typing};
pub use state::{BodyState, MadeState, ScopeState, State, TypeState};
pub use trees::{first_of_declaration, first_of_list};
pub use values::{boxed, value_operand, value_rule};

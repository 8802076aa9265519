//! The checker's judgements on operands, and the conversions of operands (C90 6.2, 6.3).
#![tactic(auto)]

pub mod assignments;
pub mod binaries;
pub mod casts;
pub mod choices;
pub mod conversions;
pub mod lvalues;
pub mod meetings;
pub mod targets;

pub use assignments::{fits_compound, fits_sum, is_assignable};
pub use binaries::{fits_binary, fits_order};
pub use casts::{fits_cast, mixes_pointer};
pub use choices::{choice_type, chosen_pointer, fits_choice, same_record};
pub use conversions::{cast_to, common_kind, convert, promote, promotion};
pub use lvalues::{can_step, is_modifiable};
pub use meetings::{
    both_integral, pointer_and_null, pointer_and_number, pointer_and_void, pointers_agree,
    pointers_meet, points_into_objects,
};
pub use targets::{Target, copy_target, target_of, target_type};

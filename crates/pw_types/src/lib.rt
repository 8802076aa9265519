//! The types of the C profile.
#![tactic(auto)]

pub mod contents;
pub mod ctype;
pub mod depths;
pub mod kind;
pub mod kinds;
pub mod layouts;
pub mod record;
pub mod shapes;
pub mod tree;
pub mod types;

pub use contents::{RecordFault, are_object_types, record_content};
pub use ctype::{CType, QType, Signature};
pub use depths::depth;
pub use kind::{IntKind, convert, promote, usual};
pub use kinds::{is_array, is_function, is_integral, is_pointer, is_record, is_scalar, is_void};
pub use layouts::{is_object_type, layout, oversize, round_up, size};
pub use record::{Content, Layout, Member, RecordKind, RecordType};
pub use shapes::shape;
pub use tree::{BinaryOperator, LogicOperator, StepOperator, UnaryOperator, step_operator};
pub use types::Types;

//! The typed trees of C: what checking makes of a module's text, and how large they are.
#![tactic(auto)]

pub mod rooms;
pub mod spines;
pub mod tree;

pub use pw_types::{BinaryOperator, LogicOperator, StepOperator, UnaryOperator};
pub use rooms::{NODE_ROOM, START_ROOM, expr_nodes, numbers_of_rooms, room, stmt_nodes};
pub use spines::{first_operand, spine};
pub use tree::{
    Arm, Case, Declared, Initialiser, Local, Symbol, TExpr, TForm, TFunction, TGlobal, TItem,
    TModule, TStmt, TStmtForm,
};

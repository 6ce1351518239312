//! An architecture's instructions as a table of forms: how they are written and read, and laws of both.
#![tactic(auto)]

mod form;
mod kind;

pub use form::{Form, Hole, Labels, Piece, Table};
pub use kind::{Kind, Operand};

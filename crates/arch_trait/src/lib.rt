//! What an architecture is, and how the code of a thread is made, once for every architecture.
#![tactic(auto)]

mod access;
mod arch;
mod cells;
mod code;
mod link;
mod numbered;
mod operand;
mod places;
mod push;
mod reading;
mod regs;
mod shape;
mod step;
mod thread_codes;
mod way;

pub use access::{AskedAccess, DependentAccess, PlainAccess};
pub use arch::{Arch, Instrs, MAX_INSTRS, MAX_INSTRUCTION_TEXT, MAX_STEP_INSTRS};
pub use cells::{read_cell, register_named};
pub use code::{Code, TooManyRegisters, compile_into, compile_thread};
pub use link::{Link, link_of};
pub use numbered::Numbered;
pub use operand::{MAX_IMMEDIATE, immediate, read_label_alone};
pub use places::{MAX_PLACES, Places};
pub use push::{push_digit, push_label, push_number};
pub use reading::{InstrError, Named, Operands, Raw};
pub use regs::{Links, MAX_REGISTERS, Regs};
pub use shape::shape_of;
pub use step::{MAX_STEPS, Shape, Step};
pub use thread_codes::ThreadCodes;

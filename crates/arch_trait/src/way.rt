use crate::regs::Regs;

/// How far the code of a thread has come: its registers, the register of the last access if that is
/// a load, and how many branches there were.
#[derive(Drop)]
pub(crate) struct Way {
    pub(crate) regs: Regs,
    pub(crate) last: Option<u8>,
    pub(crate) label: u8,
}

use relax_edges::Value;

/// What a register holds: a value, and the loads that it depends on. Bit `k` of the mask names
/// load number `k` of the thread, from 0.
#[derive(Clone, Copy)]
pub struct Held {
    pub value: Value,
    pub mask: u64,
}

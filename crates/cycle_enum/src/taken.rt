/// What a walk may rely on of the cycles on which its test says yes.
#[derive(Clone, Copy)]
pub enum Taken {
    /// Nothing: the test may take any cycles.
    Any,
    /// Edges of two threads lead to another location (`is_spread`), and at most so many edges lead to another thread.
    SpreadOver(u8),
}

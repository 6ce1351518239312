/// What is written of the logs that were summed.
#[derive(Clone, Copy)]
pub enum SumForm {
    /// Their sum, which is itself a log.
    Log,
    /// Their table: a line for each test, in the order of the sum, with what is observed of it.
    Table,
}

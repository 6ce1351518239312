/// How a listing ended.
#[derive(Clone, Copy)]
pub enum ListingEnd {
    /// All files and the line on their number were written.
    Done,
    /// The shelf failed at a file. Those before it were written, and nothing to the sink.
    ShelfFault,
    /// All files were written, and the sink failed at the line on their number.
    OutFault,
}

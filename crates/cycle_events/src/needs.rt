/// A write that is neither the first nor the last of its location, and that an external edge
/// enters: only an observer can show its position in the coherence order.
#[derive(Clone, Copy, Debug, thiserror::Error)]
#[error("location {location} needs an observer, for its write at event {event}")]
pub struct NeedsObserver {
    /// The location of the write, from 0.
    pub location: u8,
    /// The number of the write among the events, from 0.
    pub event: u8,
}

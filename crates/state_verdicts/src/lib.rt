//! What a state of a log says of a test: whether an interleaving ends in it, or only relaxed memory shows it, or it is incoherent, or it
//! can't be. The one execution that the state fixes is rebuilt and judged; nothing is searched.
#![tactic(auto)]

mod decided;
mod judged;
mod loads;
mod places;
mod registers;
mod verdict;

pub use decided::verdict_of;
pub use verdict::Verdict;

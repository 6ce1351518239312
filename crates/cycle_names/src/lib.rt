//! The name of a cycle, the cycle that has a name, and the families of cycles.
#![tactic(auto)]

mod family;
mod fit;
mod laws;
mod link;
mod name;
mod read;
mod slot;
mod words;

pub use family::{FAMILIES, Family};
pub use laws::{families_apart, names_are_names, names_decide, names_read_back};
pub use name::{
    MAX_CYCLE_NAME, MAX_NAME_LINE, family_of, name_and_family, name_and_words, name_of,
};
pub use read::{NotAName, cycle_of, edges_of};

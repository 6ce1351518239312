//! The edge that a text spells, the edges of a text, a list of them that says when it has too many, and lists of relaxations.
#![tactic(auto)]

mod edge;
mod list;
mod read;
mod relax;
mod relax_error;
mod relax_items;
mod relax_list;
mod relax_runs;
mod relax_search;
mod relax_words;

pub use edge::{UnknownEdge, read_edge, read_edge_bytes};
pub use list::EdgeList;
pub use read::{Separators, read_edges};
pub use relax::{Relax, Relaxes};
pub use relax_error::{RelaxError, RelaxKind};
pub use relax_list::read_relaxes;

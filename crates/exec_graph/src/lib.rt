//! The graph of an execution, as a text for Graphviz: its accesses, the initial writes that some read reads, the relations between
//! them, and the edges of a cycle that stand.
#![tactic(auto)]

mod arrows;
mod drawn;
mod graph;
mod law;
mod points;
mod strokes;
mod ties;
mod words;

pub use graph::{DrawError, Picture, answer_word, write_graph, write_no_graph};
pub use law::{drawn_edges, drawn_relations};

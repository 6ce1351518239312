mod condition;
mod cuts;
mod header;
mod initial;
mod items;
mod joined;
mod labels;
mod lines;
mod rows;
mod table;
mod terms;
mod test;
mod text;
mod thread;
mod whole;

pub use test::ReadTest;
pub use whole::{arch_of, read_test};

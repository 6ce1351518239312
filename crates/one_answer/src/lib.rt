//! One answer: two calls of `run` with the same arguments on the same devices, in which no device fails, end alike.
#![tactic(auto)]

mod alike;

pub use alike::one_answer;

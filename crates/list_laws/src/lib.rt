//! Definitions and laws of plain lists that several crates cite: numbers in order, filters, counts over prefixes, positions.
#![tactic(auto)]

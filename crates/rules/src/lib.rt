// What gates make of ring elements: entries and words, and plain evaluation.
#![tactic(auto)]

pub mod gates;
pub mod plain;

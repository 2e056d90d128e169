// The steps that every walk over a list takes, whether its words stand in a slice or as bytes: one number compressed, one item expanded.

#![tactic(auto)]

pub mod coding;
pub mod item;

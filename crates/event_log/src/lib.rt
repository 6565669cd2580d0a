//! The log that a parser leaves: token columns in, records out.
#![tactic(auto)]

pub mod event;
pub mod item;
pub mod marker;
pub mod parser;
pub mod records;
pub mod theory;

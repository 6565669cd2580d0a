//! The reading of a token column, and the calls that go through it.
#![tactic(auto)]

pub mod check;
pub mod reading;
#[cfg(test)]
mod tests;

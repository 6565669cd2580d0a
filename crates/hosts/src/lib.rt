//! Hosts: what lies in expressions, patterns and attributes, for each token place.
#![tactic(auto)]

mod answers;
pub mod fill;
pub mod host;
pub mod plain;
pub mod raw;
pub mod run;
#[cfg(test)]
mod tests;

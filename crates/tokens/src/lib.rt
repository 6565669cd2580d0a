//! Tokens: their kinds, and the lent columns that hold them.
#![tactic(auto)]

pub mod composite;
pub mod input;
pub mod rows;
pub mod sets;
pub mod syntax_kind;
#[cfg(test)]
mod tests;
pub mod token_set;

//! Where a log is told to: the sinks that take its items, and the walk that tells them.
#![tactic(auto)]

pub mod lent;
pub mod listing;
pub mod sink;
pub mod table;
pub mod walk;

pub use event_log::item::Item;

//! Why a run of the benchmark ends early.

use refusals::Refusal;
use std::alloc::AllocError;
use std::io;

#[derive(Drop)]
pub enum Failure {
    /// the records are refused
    Refused(Refusal),
    /// there is no memory, or the system fails
    Broken(anyhow::Error),
}

impl From<Refusal> for Failure {
    fn from(refusal: Refusal) -> Failure {
        Failure::Refused(refusal)
    }
}

impl From<AllocError> for Failure {
    fn from(error: AllocError) -> Failure {
        Failure::Broken(error.into())
    }
}

impl From<io::Error> for Failure {
    fn from(error: io::Error) -> Failure {
        Failure::Broken(error.into())
    }
}

//! Why the program does not print what a file holds.

use refusals::Refusal;
use std::alloc::AllocError;
use std::io;

#[derive(Drop)]
pub enum Failure {
    /// what the file holds is refused
    Refused(Refusal),
    /// there are no words, or no file, to read
    Unread(io::Error),
    /// there is no memory for the text, or it cannot be written
    Unprinted(anyhow::Error),
}

impl From<Refusal> for Failure {
    fn from(refusal: Refusal) -> Failure {
        Failure::Refused(refusal)
    }
}

impl From<AllocError> for Failure {
    fn from(error: AllocError) -> Failure {
        Failure::Unprinted(error.into())
    }
}

/// An error in reading is told as `Unread` where it comes up.
impl From<io::Error> for Failure {
    fn from(error: io::Error) -> Failure {
        Failure::Unprinted(error.into())
    }
}

//! Why a call gave up. Every layer refuses by these.
#![tactic(auto)]

ghost use Rattle.std.specs.Prelude.{◌≡◌, Some};
ghost use Rattle.refusals.specs.Refusals.{told, number_of, place_of, layer_of, text};

use std::error::Error;
use std::fmt;

#[cfg(test)]
mod tests;

/// The layer that a refusal arose in.
#[derive(Clone, Copy, PartialEq, Eq, Debug)]
pub enum Layer {
    Input,
    Grammar,
    Log,
    Sink,
    File,
}

/// Why a call gave up.
#[derive(Clone, Copy, PartialEq, Eq, Debug)]
pub enum Refusal {
    /// More tokens than a reading takes.
    TooManyTokens { layer: Layer },
    /// A column of another length than the kinds, or too long a log.
    ColumnLength,
    /// A kind that no token has.
    WrongKind { place: usize },
    /// A contextual kind that the token cannot have.
    WrongContextualKind { place: usize },
    /// An edition that there is not.
    WrongEdition { place: usize },
    /// A row that breaks a law of islands.
    UnlawfulRow { place: usize },
    /// A record is due, and the log has no room for it.
    LogFull { place: usize },
    /// Fewer marks than records.
    MarksShort,
    /// The sink has no room for an item that the record at this place tells.
    SinkFull { place: usize },
    /// A file that ends before its tokens do.
    FileShort,
    /// A file with a bit set, or a byte left over, behind its tokens.
    FileLong,
    /// A column with no place for all tokens of the file.
    ColumnShort,
}

impl Refusal {
    pub fn number(&self) -> u8
        ensures { result ≡ number_of self.now }
    {
        let (number, _, _) = self.told();
        number
    }

    /// 0 where none is named.
    pub fn place(&self) -> usize
        ensures { result ≡ place_of self.now }
    {
        let (_, place, _) = self.told();
        place
    }

    /// The layer that it arose in.
    pub fn layer(&self) -> Layer
        ensures { result ≡ layer_of self.now }
    {
        let (_, _, layer) = self.told();
        layer
    }

    /// Its number, its place and its layer. Each number stands here alone.
    fn told(&self) -> (u8, usize, Layer)
        ensures { result ≡ told self.now }
    {
        match *self {
            Refusal::TooManyTokens { layer } => (1, 0, layer),
            Refusal::ColumnLength => (2, 0, Layer::Input),
            Refusal::WrongKind { place } => (3, place, Layer::Input),
            Refusal::WrongContextualKind { place } => (4, place, Layer::Input),
            Refusal::WrongEdition { place } => (5, place, Layer::Input),
            Refusal::UnlawfulRow { place } => (6, place, Layer::Input),
            Refusal::LogFull { place } => (8, place, Layer::Log),
            Refusal::MarksShort => (9, 0, Layer::Log),
            Refusal::SinkFull { place } => (10, place, Layer::Sink),
            Refusal::FileShort => (11, 0, Layer::File),
            Refusal::FileLong => (12, 0, Layer::File),
            Refusal::ColumnShort => (13, 0, Layer::File),
        }
    }
}

/// The line that a program prints of it.
impl fmt::Display for Refusal {
    ghost output = { λ r. Some (text r) };

    fn fmt<W: fmt::Write>(&self, f: &mut fmt::Formatter<W>) -> fmt::Result {
        let number = self.number();
        let place = self.place();
        write!(f, "refused {number} {place}")
    }
}

impl Error for Refusal {}

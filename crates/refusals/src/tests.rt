//! The refusals.

use crate::{Layer, Refusal};
use std::test::Fail;

#[test]
fn refusals(rt: HostRuntime) {
    let layer = Layer::Input;
    let table = [
        (Refusal::TooManyTokens { layer }, 1, 0, layer),
        (
            Refusal::TooManyTokens { layer: Layer::File },
            1,
            0,
            Layer::File,
        ),
        (Refusal::ColumnLength, 2, 0, Layer::Input),
        (Refusal::WrongKind { place: 7 }, 3, 7, Layer::Input),
        (
            Refusal::WrongContextualKind { place: 7 },
            4,
            7,
            Layer::Input,
        ),
        (Refusal::WrongEdition { place: 7 }, 5, 7, Layer::Input),
        (Refusal::UnlawfulRow { place: 7 }, 6, 7, Layer::Input),
        (Refusal::LogFull { place: 7 }, 8, 7, Layer::Log),
        (Refusal::MarksShort, 9, 0, Layer::Log),
        (Refusal::SinkFull { place: 7 }, 10, 7, Layer::Sink),
        (Refusal::FileShort, 11, 0, Layer::File),
        (Refusal::FileLong, 12, 0, Layer::File),
        (Refusal::ColumnShort, 13, 0, Layer::File),
    ];
    for (refusal, number, place, layer) in table {
        assert_eq!(rt; refusal.number(), number);
        assert_eq!(rt; refusal.place(), place);
        assert_eq!(rt; refusal.layer(), layer);
    }
}

#[test]
fn printed(rt: HostRuntime) -> Result<(), Fail> {
    let refusal = Refusal::SinkFull { place: 65535 };
    let line = format!(in rt.alloc(); "{refusal}")?;
    assert_eq!(rt; line.as_str(), "refused 10 65535");
    Ok(())
}

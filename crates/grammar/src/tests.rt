//! What is opened and what is refused, and tokens that are skipped.

use crate::reading::Reading;
use event_log::event::Record;
use event_log::parser::Parser;
use event_log::records::{Log, Taken};
use refusals::{Layer, Refusal};
use std::process::Abort;
use std::test::Fail;
use tokens::input::Input;
use tokens::rows::{Answer, Row};
use tokens::syntax_kind::{DOLLAR, DOT, EOF, IDENT, SEMICOLON, SHEBANG, STRUCT_KW, TOMBSTONE};

/// Opens these tokens, or says why not.
fn open<'a>(
    reading: &mut Reading<'a>,
    input: Input<'a>,
    records: &'a mut [Record],
) -> Result<(), Refusal> {
    match reading.open(input, records) {
        Ok(()) => Ok(()),
        Err(unopened) => Err(unopened.refusal),
    }
}

/// What opening columns of these lengths comes to.
fn open_lengths(
    rt: &impl Abort,
    kinds: usize,
    contextual: usize,
    joint: usize,
    editions: usize,
    records: &mut [Record],
) -> Result<(), Refusal> {
    assert!(rt; kinds <= 4097 && contextual <= 4097 && editions <= 4097 && joint <= 65);
    let input = Input {
        kinds: &[DOT; 4097][..kinds],
        contextual: &[EOF; 4097][..contextual],
        joint: &[0; 65][..joint],
        editions: &[0; 4097][..editions],
    };
    open(&mut Reading::new(), input, records)
}

#[test]
fn lengths(rt: HostRuntime) {
    let many = Err(Refusal::TooManyTokens {
        layer: Layer::Input,
    });
    let uneven = Err(Refusal::ColumnLength);
    let table = [
        (0, 0, 0, 0, Ok(())),
        (64, 64, 1, 64, Ok(())),
        (65, 65, 2, 65, Ok(())),
        (4096, 4096, 64, 4096, Ok(())),
        (4097, 4097, 65, 4097, many),
        (4097, 0, 0, 0, many),
        (65, 64, 2, 65, uneven),
        (65, 66, 2, 65, uneven),
        (65, 65, 1, 65, uneven),
        (65, 65, 3, 65, uneven),
        (65, 65, 2, 64, uneven),
        (65, 65, 2, 66, uneven),
    ];
    for (kinds, contextual, joint, editions, expected) in table {
        assert_eq!(rt;
            open_lengths(&rt, kinds, contextual, joint, editions, &mut []),
            expected
        );
    }
    assert_eq!(rt;
        open_lengths(&rt, 1, 1, 1, 1, &mut [Record::Finish; 65535]),
        Ok(())
    );
    assert_eq!(rt;
        open_lengths(&rt, 1, 1, 1, 1, &mut [Record::Finish; 65536]),
        uneven
    );
}

/// What opening these three tokens comes to.
fn open_three(kinds: [u16; 3], contextual: [u16; 3], editions: [u8; 3]) -> Result<(), Refusal> {
    let input = Input {
        kinds: &kinds,
        contextual: &contextual,
        joint: &[0],
        editions: &editions,
    };
    open(&mut Reading::new(), input, &mut [])
}

/// Each check goes over all tokens before the next one, so wrong entries of a later column make no difference.
#[test]
fn columns(rt: HostRuntime) {
    let idents = [IDENT; 3];
    let none = [EOF; 3];
    let wrong = [TOMBSTONE; 3];
    let kinds = [
        ([TOMBSTONE, IDENT, IDENT], 0),
        ([IDENT, IDENT, TOMBSTONE], 2),
        ([EOF, IDENT, IDENT], 0),
        ([IDENT, IDENT, EOF], 2),
        ([SHEBANG + 1, IDENT, IDENT], 0),
        ([IDENT, IDENT, SHEBANG + 1], 2),
        ([IDENT, EOF, EOF], 1),
    ];
    for (kinds, place) in kinds {
        let refused = Err(Refusal::WrongKind { place });
        assert_eq!(rt; open_three(kinds, none, [0; 3]), refused);
        assert_eq!(rt; open_three(kinds, wrong, [4; 3]), refused);
    }
    let contextual = [
        (idents, [TOMBSTONE, EOF, EOF], 0),
        (idents, [EOF, EOF, TOMBSTONE], 2),
        (idents, [SHEBANG + 1, EOF, EOF], 0),
        (idents, [EOF, EOF, SHEBANG + 1], 2),
        ([IDENT, DOT, IDENT], [DOLLAR; 3], 1),
    ];
    for (kinds, contextual, place) in contextual {
        let refused = Err(Refusal::WrongContextualKind { place });
        assert_eq!(rt; open_three(kinds, contextual, [0; 3]), refused);
        assert_eq!(rt; open_three(kinds, contextual, [4; 3]), refused);
    }
    for (editions, place) in [([4, 0, 0], 0), ([0, 0, 4], 2), ([3, 255, 4], 1)] {
        assert_eq!(rt;
            open_three(idents, none, editions),
            Err(Refusal::WrongEdition { place })
        );
    }
    assert_eq!(rt;
        open_three(idents, [EOF, DOLLAR, SHEBANG], [0, 3, 1]),
        Ok(())
    );
    assert_eq!(rt; open_three([DOLLAR, IDENT, SHEBANG], none, [0; 3]), Ok(()));
}

const NONE: Result<Taken, Refusal> = Ok(Taken {
    tokens: 0,
    clean: true,
});

const ONE: Result<Taken, Refusal> = Ok(Taken {
    tokens: 1,
    clean: true,
});

/// `struct S;`
const KINDS: [u16; 3] = [STRUCT_KW, IDENT, SEMICOLON];

const UNIT: Input<'static> = Input {
    kinds: &KINDS,
    contextual: &[EOF; 3],
    joint: &[0],
    editions: &[3; 3],
};

fn token(kind: u16) -> Record {
    Record::Token { kind, width: 1 }
}

/// The reading has taken raw tokens of these kinds, and has made a record of each.
fn has_taken(rt: &impl Abort, reading: &Reading, kinds: &[u16]) {
    assert_eq!(rt; reading.place(), kinds.len());
    assert_eq!(rt; reading.records().len(), kinds.len());
    for (record, kind) in reading.records().iter().zip(kinds) {
        assert_eq!(rt; *record, token(*kind));
    }
}

#[test]
fn opened_log_is_blank(rt: HostRuntime) -> Result<(), Fail> {
    let mut records = [Record::Finish; 3];
    open(&mut Reading::new(), UNIT, &mut records)?;
    assert_eq!(rt; records, [Record::BLANK; 3]);
    Ok(())
}

#[test]
fn skips(rt: HostRuntime) -> Result<(), Fail> {
    let mut records = [Record::Finish; 4];
    let mut reading = Reading::new();
    assert_eq!(rt; reading.skip(), NONE);
    open(&mut reading, UNIT, &mut records)?;
    for i in 0..3 {
        has_taken(&rt, &reading, &KINDS[..i]);
        assert_eq!(rt; reading.skip(), ONE);
    }
    assert_eq!(rt; reading.skip(), NONE);
    has_taken(&rt, &reading, &KINDS);
    Ok(())
}

/// What one parser leaves, another goes on with.
#[test]
fn paused(rt: HostRuntime) {
    let mut records = [Record::Finish; 4];
    let mut parser = Parser::resume(Log::new(UNIT, &mut records));
    assert_eq!(rt; parser.bump_any(), Ok(()));
    let log = parser.pause();
    assert_eq!(rt; log.place(), 1);
    assert_eq!(rt; log.recorded(), &[token(KINDS[0])][..]);
    let mut parser = Parser::resume(log);
    assert_eq!(rt; parser.current(), KINDS[1]);
    assert_eq!(rt; parser.bump_any(), Ok(()));
    assert_eq!(rt; parser.recorded(), &[token(KINDS[0]), token(KINDS[1])][..]);
}

#[test]
fn full_logs(rt: HostRuntime) -> Result<(), Fail> {
    let mut none: [Record; 0] = [];
    let mut two = [Record::Finish; 2];
    let mut reading = Reading::new();
    open(&mut reading, UNIT, &mut none)?;
    assert_eq!(rt; reading.skip(), Err(Refusal::LogFull { place: 0 }));
    has_taken(&rt, &reading, &[]);
    open(&mut reading, UNIT, &mut two)?;
    assert_eq!(rt; reading.skip(), ONE);
    assert_eq!(rt; reading.skip(), ONE);
    assert_eq!(rt; reading.skip(), Err(Refusal::LogFull { place: 2 }));
    has_taken(&rt, &reading, &KINDS[..2]);
    Ok(())
}

/// A refused opening leaves the reading and the log as they were. An accepted one starts again, with all records blank.
#[test]
fn reopening(rt: HostRuntime) -> Result<(), Fail> {
    let dot = Input {
        kinds: &[DOT],
        contextual: &[EOF],
        joint: &[0],
        editions: &[0],
    };
    // Its kind is wrong too, which the lengths come before.
    let uneven = Input {
        kinds: &[EOF],
        editions: &[],
        ..dot
    };
    let mut first = [Record::Finish; 2];
    let mut second = [Record::Finish; 2];
    let mut reading = Reading::new();
    open(&mut reading, UNIT, &mut first)?;
    assert_eq!(rt; reading.skip(), ONE);
    let records = match reading.open(uneven, &mut second) {
        Ok(()) => return Err(Fail::new("opened")),
        Err(unopened) => {
            assert_eq!(rt; unopened.refusal, Refusal::ColumnLength);
            unopened.records
        }
    };
    assert_eq!(rt; &*records, &[Record::Finish; 2][..]);
    has_taken(&rt, &reading, &KINDS[..1]);
    assert_eq!(rt; reading.skip(), ONE);
    has_taken(&rt, &reading, &KINDS[..2]);
    open(&mut reading, dot, records)?;
    has_taken(&rt, &reading, &[]);
    assert_eq!(rt; reading.skip(), ONE);
    has_taken(&rt, &reading, &[DOT]);
    assert_eq!(rt; second, [token(DOT), Record::BLANK]);
    Ok(())
}

/// A row with this answer to the first hook, and a fault alone to the others.
fn row(expr: Answer) -> Row {
    Row {
        expr,
        block_expr: Answer::BARE_FAULT,
        literal: Answer::BARE_FAULT,
        expr_block_contents: Answer::BARE_FAULT,
        meta: Answer::BARE_FAULT,
        pattern: Answer::BARE_FAULT,
        pattern_single: Answer::BARE_FAULT,
    }
}

/// What opening two tokens with these rows comes to.
fn open_rows(rows: &[Row]) -> Result<(), Refusal> {
    let input = Input {
        kinds: &[DOT, DOT],
        contextual: &[EOF, EOF],
        joint: &[0],
        editions: &[0, 0],
    };
    match Reading::new().open_with_rows(input, rows, &mut [Record::Finish; 3]) {
        Ok(()) => Ok(()),
        Err(unopened) => Err(unopened.refusal),
    }
}

#[test]
fn rows(rt: HostRuntime) {
    let fine = row(Answer::BARE_FAULT);
    // nothing at all needs a fault, but for a literal
    let faultless = row(Answer::NOTHING);
    assert_eq!(rt; open_rows(&[fine, fine]), Ok(()));
    assert_eq!(rt; open_rows(&[fine]), Err(Refusal::ColumnLength));
    assert_eq!(rt; open_rows(&[fine; 3]), Err(Refusal::ColumnLength));
    assert_eq!(rt;
        open_rows(&[fine, faultless]),
        Err(Refusal::UnlawfulRow { place: 1 })
    );
    assert_eq!(rt;
        open_rows(&[faultless; 2]),
        Err(Refusal::UnlawfulRow { place: 0 })
    );
}

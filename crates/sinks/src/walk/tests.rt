//! What records and readings tell, worked by hand.

use super::*;
use crate::listing::Listing;
use refusals::Layer;
use std::process::Abort;
use std::test::Fail;
use tokens::input::Input;
use tokens::syntax_kind::{EOF, TOMBSTONE};

const TOKEN: Record = Record::Token { kind: 3, width: 1 };

const FINISH: Record = Record::Finish;

fn start(kind: u16) -> Record {
    Record::Start {
        kind,
        forward: None,
    }
}

/// A start that is preceded by the one so many records further on.
fn preceded(kind: u16, by: u16) -> Record {
    Record::Start {
        kind,
        forward: Some(by),
    }
}

/// The number, the layer and the place of a refusal.
type Parts = (u8, Layer, usize);

fn parts(r: Result<(), Refusal>) -> Result<(), Parts> {
    match r {
        Ok(()) => Ok(()),
        Err(refusal) => Err((refusal.number(), refusal.layer(), refusal.place())),
    }
}

fn full(at: usize) -> Result<(), Parts> {
    Err((10, Layer::Sink, at))
}

/// What comes of telling records, 16 at most, to this buffer.
fn told(
    rt: &impl Abort,
    records: &[Record],
    buffer: &mut [u8],
    answer: Result<(), Parts>,
    lines: &[u8],
) -> Result<(), Fail> {
    let mut marks = [7; 16];
    let mut listing = Listing::new(buffer);
    assert!(rt; records.len() <= 16);
    marks[..records.len()].fill(0);
    assert_eq!(rt; parts(tell(records, &mut marks, &mut listing)), answer);
    assert_eq!(rt; listing.bytes(), lines);
    Ok(())
}

/// The same by `process`, which clears the marks itself.
fn processed(
    rt: &impl Abort,
    records: &[Record],
    buffer: &mut [u8],
    answer: Result<(), Parts>,
    lines: &[u8],
) {
    let mut marks = [7; 16];
    let mut listing = Listing::new(buffer);
    assert_eq!(rt; parts(process(records, &mut marks, &mut listing)), answer);
    assert_eq!(rt; listing.bytes(), lines);
}

fn tells(rt: &impl Abort, records: &[Record], lines: &[u8]) -> Result<(), Fail> {
    processed(rt, records, &mut [b'.'; 64], Ok(()), lines);
    told(rt, records, &mut [b'.'; 64], Ok(()), lines)
}

#[test]
fn single_records(rt: HostRuntime) -> Result<(), Fail> {
    let error = Record::Error {
        number: 4,
        kind: 153,
    };
    tells(&rt, &[], b"")?;
    tells(&rt, &[TOKEN, error], b"= 3 1\n! 4 153\n")?;
    tells(&rt, &[start(7), TOKEN, FINISH], b"+ 7\n= 3 1\n-\n")?;
    // an abandoned node in front of another
    tells(&rt, &[Record::BLANK, start(7), FINISH], b"+ 7\n-\n")
}

#[test]
fn chains(rt: HostRuntime) -> Result<(), Fail> {
    tells(
        &rt,
        &[preceded(7, 3), TOKEN, FINISH, start(8), TOKEN, FINISH],
        b"+ 8\n+ 7\n= 3 1\n-\n= 3 1\n-\n",
    )?;
    let three = [
        preceded(7, 2),
        FINISH,
        preceded(8, 2),
        FINISH,
        start(9),
        FINISH,
    ];
    tells(&rt, &three, b"+ 9\n+ 8\n+ 7\n-\n-\n-\n")?;
    let five = [
        preceded(7, 2),
        FINISH,
        preceded(8, 2),
        FINISH,
        preceded(9, 1),
        preceded(10, 3),
        FINISH,
        FINISH,
        start(11),
        FINISH,
    ];
    tells(&rt, &five, b"+ 11\n+ 10\n+ 9\n+ 8\n+ 7\n-\n-\n-\n-\n-\n")?;
    // the middle one was abandoned
    tells(
        &rt,
        &[
            preceded(7, 2),
            FINISH,
            preceded(TOMBSTONE, 2),
            TOKEN,
            start(9),
            FINISH,
        ],
        b"+ 9\n+ 7\n-\n= 3 1\n-\n",
    )
}

/// An offset of 0, to a token, to a finish and past the end: each ends the chain.
#[test]
fn chain_ends(rt: HostRuntime) -> Result<(), Fail> {
    for by in [0, 1, 2, 3, 65535] {
        tells(&rt, &[preceded(7, by), TOKEN, FINISH], b"+ 7\n= 3 1\n-\n")?;
    }
    Ok(())
}

/// A buffer that ends within a line keeps the lines before it, and the refusal names the record that tells it.
#[test]
fn full_at_records(rt: HostRuntime) -> Result<(), Fail> {
    let records = [preceded(7, 3), TOKEN, FINISH, start(8), TOKEN, FINISH];
    let lines = b"+ 8\n+ 7\n= 3 1\n-\n= 3 1\n-\n";
    for (at, from, to) in [
        (0, 0, 4),
        (0, 4, 8),
        (1, 8, 14),
        (2, 14, 16),
        (4, 16, 22),
        (5, 22, 24),
    ] {
        assert!(rt; from <= lines.len());
        for room in from..to {
            let mut buffer = [b'.'; 24];
            assert!(rt; room <= buffer.len());
            processed(
                &rt,
                &records,
                &mut buffer[0..room],
                full(at),
                &lines[0..from],
            );
            let mut buffer = [b'.'; 24];
            told(
                &rt,
                &records,
                &mut buffer[0..room],
                full(at),
                &lines[0..from],
            )?;
        }
    }
    Ok(())
}

/// What a reading tells after `skip_all`.
const LINES: &[u8] = b"= 3 1\n= 10 1\n= 153 1\n";

/// Reads three tokens, and skips each.
fn skip_all<'a>(reading: &mut Reading<'a>, records: &'a mut [Record]) -> Result<(), Fail> {
    let input = Input {
        kinds: &[3, 10, 153],
        contextual: &[EOF, EOF, EOF],
        joint: &[0],
        editions: &[3, 3, 3],
    };
    if let Err(unopened) = reading.open(input, records) {
        return Err(Fail::from(unopened.refusal));
    }
    for _ in 0..3 {
        reading.skip()?;
    }
    Ok(())
}

/// What comes of a walk to this buffer, with these marks.
fn walked(
    rt: &impl Abort,
    reading: &Reading,
    marks: &mut [u8],
    buffer: &mut [u8],
    answer: Result<(), Parts>,
    lines: &[u8],
) {
    let mut listing = Listing::new(buffer);
    assert_eq!(rt; parts(walk(reading, marks, &mut listing)), answer);
    assert_eq!(rt; listing.bytes(), lines);
}

#[test]
fn skipped_tokens(rt: HostRuntime) -> Result<(), Fail> {
    let mut records = [Record::BLANK; 3];
    let mut reading = Reading::new();
    skip_all(&mut reading, &mut records)?;
    let mut marks = [7; 5];
    walked(&rt, &reading, &mut marks, &mut [b'.'; 21], Ok(()), LINES);
    assert_eq!(rt; marks, [0, 0, 0, 7, 7]);
    Ok(())
}

#[test]
fn walked_twice(rt: HostRuntime) -> Result<(), Fail> {
    let mut records = [Record::BLANK; 3];
    let mut reading = Reading::new();
    skip_all(&mut reading, &mut records)?;
    let mut buffer = [b'.'; 42];
    let mut listing = Listing::new(&mut buffer);
    for _ in 0..2 {
        walk(&reading, &mut [7; 3], &mut listing)?;
    }
    assert_eq!(rt;
        listing.bytes(),
        b"= 3 1\n= 10 1\n= 153 1\n= 3 1\n= 10 1\n= 153 1\n".as_slice()
    );
    Ok(())
}

/// A mark is missing: nothing is told, and no mark is touched.
#[test]
fn short_marks(rt: HostRuntime) -> Result<(), Fail> {
    let mut records = [Record::BLANK; 3];
    let mut reading = Reading::new();
    skip_all(&mut reading, &mut records)?;
    let mut marks = [7; 2];
    let mut buffer = [b'.'; 21];
    walked(
        &rt,
        &reading,
        &mut marks,
        &mut buffer,
        Err((9, Layer::Log, 0)),
        b"",
    );
    assert_eq!(rt; marks, [7; 2]);
    Ok(())
}

/// A refusal by the sink leaves the marks zero too.
#[test]
fn full_at_tokens(rt: HostRuntime) -> Result<(), Fail> {
    let mut records = [Record::BLANK; 3];
    let mut reading = Reading::new();
    skip_all(&mut reading, &mut records)?;
    for (at, from, to) in [(0, 0, 6), (1, 6, 13), (2, 13, 21)] {
        assert!(rt; from <= LINES.len());
        for room in from..to {
            let mut marks = [7; 3];
            let mut buffer = [b'.'; 21];
            assert!(rt; room <= buffer.len());
            walked(
                &rt,
                &reading,
                &mut marks,
                &mut buffer[0..room],
                full(at),
                &LINES[0..from],
            );
            assert_eq!(rt; marks, [0; 3]);
        }
    }
    Ok(())
}

/// Without a record nothing is told, no mark is needed and none is touched.
#[test]
fn no_records(rt: HostRuntime) -> Result<(), Fail> {
    let mut reading = Reading::new();
    walked(&rt, &reading, &mut [], &mut [], Ok(()), b"");
    reading.skip()?;
    let mut marks = [7; 2];
    walked(&rt, &reading, &mut marks, &mut [], Ok(()), b"");
    assert_eq!(rt; marks, [7; 2]);
    Ok(())
}

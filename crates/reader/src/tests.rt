//! Files worked by hand from the format, and the longest file; and a tree.

use crate::list::list;
use crate::tree::tree;
use event_log::item::Item;
use refusals::{Layer, Refusal};
use sinks::listing::Listing;
use sinks::sink::Sink;
use sinks::table::NodeTable;
use sinks::table::entry::Entry;
use std::process::Abort;
use std::test::Fail;
use tokens::syntax_kind::{COLON2, IDENT, PATH, TOMBSTONE};

/// SEMICOLON of 2015, COMMA of 2018 and L_PAREN of 2024.
const THREE: [u8; 10] = [0, 3, 3, 1, 0, 0x80, 0x24, 0x14, 0x05, 0x80];

/// A file is answered so, and these lines are told to a listing with so much room.
fn lists(rt: &impl Abort, bytes: &[u8], room: usize, answer: Result<(), Refusal>, lines: &[u8]) {
    let mut buffer = [b'.'; 32];
    assert!(rt; room <= 32);
    let mut listing = Listing::new(&mut buffer[0..room]);
    assert_eq!(rt; list(bytes, &mut listing), answer);
    assert_eq!(rt; listing.bytes(), lines);
}

#[test]
fn listed(rt: HostRuntime) {
    lists(&rt, &[0, 0], 0, Ok(()), b"");
    lists(&rt, &[0, 1, 3, 1, 0x40], 6, Ok(()), b"= 3 1\n");
    lists(&rt, &THREE, 18, Ok(()), b"= 3 1\n= 4 1\n= 5 1\n");
}

#[test]
fn refused(rt: HostRuntime) {
    // The last of the tokens has the kind 0, and the middle one the contextual kind 2.
    let kind = [0, 3, 3, 1, 0, 0x80, 0x24, 0, 0x05, 0x80];
    let contextual = [0, 3, 3, 1, 0, 0x80, 0x44, 0x14, 0x05, 0x80];
    let files: [(&[u8], Refusal); 6] = [
        (&[], Refusal::FileShort),
        (&[0], Refusal::FileShort),
        (&[0, 0, 0], Refusal::FileLong),
        (&[0; 2434], Refusal::FileLong),
        (&kind, Refusal::WrongKind { place: 2 }),
        (&contextual, Refusal::WrongContextualKind { place: 1 }),
    ];
    for (bytes, refusal) in files {
        lists(&rt, bytes, 32, Err(refusal), b"");
    }
}

/// The record that does not fit is named, and those before it are told.
#[test]
fn short_listings(rt: HostRuntime) {
    let told: [(usize, usize, &[u8]); 4] = [
        (0, 0, b""),
        (5, 0, b""),
        (6, 1, b"= 3 1\n"),
        (17, 2, b"= 3 1\n= 4 1\n"),
    ];
    for (room, place, lines) in told {
        lists(&rt, &THREE, room, Err(Refusal::SinkFull { place }), lines);
    }
}

/// Makes a bit 1; a byte's highest comes first.
fn set(bytes: &mut [u8], at: usize) {
    if let Some(byte) = bytes.get_mut(at / 8) {
        *byte |= 0x80 >> (at % 8);
    }
}

/// Packs so many semicolons behind the count, into zero bytes.
fn pack(bytes: &mut [u8], count: u16) {
    for i in 0..count {
        let start = 16 + 19 * i as usize;
        // The kind 3, and the contextual kind 1.
        set(bytes, start + 6);
        set(bytes, start + 7);
        set(bytes, start + 15);
    }
}

#[test]
fn longest(rt: HostRuntime) {
    let mut bytes = [0; 2434];
    bytes[0] = 4;
    pack(&mut bytes, 1024);
    let mut buffer = [b'.'; 6145];
    let mut listing = Listing::new(&mut buffer);
    assert_eq!(rt; list(&bytes, &mut listing), Ok(()));
    assert_eq!(rt; listing.bytes().len(), 6144);
    for line in listing.bytes().chunks(6) {
        assert_eq!(rt; line, b"= 3 1\n".as_slice());
    }
}

#[test]
fn too_long(rt: HostRuntime) {
    let mut bytes = [0; 2437];
    bytes[0] = 4;
    bytes[1] = 1;
    pack(&mut bytes, 1025);
    let refusal = Refusal::TooManyTokens { layer: Layer::File };
    lists(&rt, &bytes, 32, Err(refusal), b"");
    lists(&rt, &[0; 2435], 32, Err(refusal), b"");
}

#[test]
fn trees(rt: HostRuntime) -> Result<(), Fail> {
    let items = [
        Item::Enter { kind: PATH },
        Item::Enter { kind: PATH },
        Item::Token {
            kind: IDENT,
            width: 1,
        },
        Item::Leave,
        Item::Token {
            kind: COLON2,
            width: 2,
        },
        Item::Error {
            number: 0,
            kind: IDENT,
        },
        Item::Leave,
        Item::Error {
            number: 7,
            kind: TOMBSTONE,
        },
        // no node is open, and the first number that is no kind
        Item::Leave,
        Item::Token {
            kind: 333,
            width: 0,
        },
    ];
    let mut memory = [Entry::NONE; 10];
    let mut table = NodeTable::new(&mut memory);
    for item in items {
        table.put(item)?;
    }
    let lines =
        "PATH\n    PATH\n        IDENT\n    COLON2 2\n    error 0: expected IDENT\nerror 7\n? 0\n";
    let text = tree(rt.alloc(), table.entries())?;
    assert_eq!(rt; text.as_str(), lines);
    Ok(())
}

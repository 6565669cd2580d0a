//! Lines by hand: each kind of item at small and at largest numbers, in buffers that fit and that do not.

use super::Listing;
use crate::sink::{Full, Sink};
use event_log::item::Item;
use std::process::Abort;
use std::test::Fail;

/// All that a listing over this buffer shows, once it was told one item.
fn told(rt: &impl Abort, item: Item, buffer: &mut [u8], answer: Result<(), Full>, line: &[u8]) {
    let mut listing = Listing::new(buffer);
    assert_eq!(rt; listing.put(item), answer);
    assert_eq!(rt; listing.bytes(), line);
}

/// The item's line fills a buffer of its length.
fn fills(rt: &impl Abort, item: Item, line: &[u8]) {
    let mut buffer = [b'.'; 16];
    assert!(rt; line.len() <= 16);
    told(rt, item, &mut buffer[0..line.len()], Ok(()), line);
}

/// A buffer that is a byte too short stays as it was.
fn lacks(rt: &impl Abort, item: Item, line: &[u8]) {
    let mut buffer = [b'.'; 16];
    assert!(rt; 0 < line.len() && line.len() <= 16);
    told(rt, item, &mut buffer[0..line.len() - 1], Err(Full), b"");
    assert_eq!(rt; &buffer, b"................");
}

fn lists(rt: &impl Abort, item: Item, line: &[u8]) {
    fills(rt, item, line);
    lacks(rt, item, line);
}

fn enter(kind: u16) -> Item {
    Item::Enter { kind }
}

fn token(kind: u16, width: u8) -> Item {
    Item::Token { kind, width }
}

fn error(number: u8, kind: u16) -> Item {
    Item::Error { number, kind }
}

#[test]
fn lines(rt: HostRuntime) {
    lists(&rt, Item::Leave, b"-\n");
    lists(&rt, enter(0), b"+ 0\n");
    lists(&rt, enter(9), b"+ 9\n");
    lists(&rt, enter(10), b"+ 10\n");
    lists(&rt, enter(999), b"+ 999\n");
    lists(&rt, enter(65535), b"+ 65535\n");
    lists(&rt, token(3, 1), b"= 3 1\n");
    lists(&rt, token(10, 0), b"= 10 0\n");
    lists(&rt, token(65535, 255), b"= 65535 255\n");
    lists(&rt, error(0, 0), b"! 0 0\n");
    lists(&rt, error(199, 9), b"! 199 9\n");
    lists(&rt, error(255, 65535), b"! 255 65535\n");
}

/// A refusal in the middle leaves what was told, and a shorter item still fits.
#[test]
fn several(rt: HostRuntime) -> Result<(), Fail> {
    let mut buffer = [b'.'; 16];
    let mut listing = Listing::new(&mut buffer);
    listing.put(enter(263))?;
    listing.put(token(10, 2))?;
    assert_eq!(rt; listing.put(enter(0)), Err(Full));
    assert_eq!(rt; listing.bytes(), b"+ 263\n= 10 2\n".as_slice());
    listing.put(Item::Leave)?;
    assert_eq!(rt; listing.bytes(), b"+ 263\n= 10 2\n-\n".as_slice());
    assert_eq!(rt; &buffer[0..16], b"+ 263\n= 10 2\n-\n.".as_slice());
    Ok(())
}

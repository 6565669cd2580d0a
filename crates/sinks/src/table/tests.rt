//! Tables by hand: nodes within nodes, a leave with none open, and memory that is too short.

use super::NodeTable;
use super::entry::Entry;
use crate::sink::{Full, Sink};
use event_log::item::Item;
use std::test::Fail;

const ENTER: Item = Item::Enter { kind: 263 };

const TOKEN: Item = Item::Token { kind: 3, width: 1 };

const ERROR: Item = Item::Error { number: 2, kind: 0 };

/// Items with the numbers of the enters around them, by hand.
const TOLD: [(Item, usize); 12] = [
    (ENTER, 0),
    (TOKEN, 1),
    (ENTER, 1),
    (ERROR, 3),
    (Item::Leave, 3),
    (ENTER, 1),
    (ENTER, 6),
    (Item::Leave, 7),
    (Item::Leave, 6),
    (Item::Leave, 1),
    (Item::Leave, 0),
    (TOKEN, 0),
];

#[test]
fn nodes(rt: HostRuntime) -> Result<(), Fail> {
    let mut memory = [Entry::NONE; 12];
    let mut table = NodeTable::new(&mut memory);
    for (item, _) in TOLD {
        table.put(item)?;
    }
    assert_eq!(rt; table.put(TOKEN), Err(Full));
    assert_eq!(rt; table.entries().len(), 12);
    for (entry, (item, node)) in table.entries().iter().zip(TOLD) {
        assert_eq!(rt; *entry, Entry { item, node });
    }
    Ok(())
}

/// Memory behind the entries stays as it was, also where there is none left.
#[test]
fn memory(rt: HostRuntime) -> Result<(), Fail> {
    let mark = Entry {
        item: ERROR,
        node: 9,
    };
    let mut memory = [mark; 3];
    let mut table = NodeTable::new(&mut memory[0..2]);
    assert_eq!(rt; table.entries(), [].as_slice());
    table.put(TOKEN)?;
    table.put(ENTER)?;
    assert_eq!(rt; table.put(Item::Leave), Err(Full));
    assert_eq!(rt; table.entries().len(), 2);
    assert_eq!(rt;
        memory,
        [
            Entry {
                item: TOKEN,
                node: 0,
            },
            Entry {
                item: ENTER,
                node: 0,
            },
            mark,
        ]
    );
    Ok(())
}

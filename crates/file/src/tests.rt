//! Files worked by hand from the format.

use super::*;
use std::process::Abort;

/// Two tokens: kind 5, contextual kind 0, joint, edition 3; kind 255, contextual kind 1, not joint, edition 1.
const TWO: [u8; 7] = [0, 2, 0x05, 0x00, 0xff, 0xe0, 0x24];

/// Reads the file into these columns.
fn read(
    bytes: &[u8],
    kinds: &mut [u16],
    contextual: &mut [u16],
    joint: &mut [u64],
    editions: &mut [u8],
) -> Result<usize, Refusal> {
    read_file(
        bytes,
        Columns {
            kinds,
            contextual,
            joint,
            editions,
        },
    )
}

/// The file is refused so, and the columns, which have room for two tokens, stay as they are.
fn refused(rt: &impl Abort, bytes: &[u8], refusal: Refusal) {
    let mut k = [7; 2];
    let mut c = [7; 2];
    let mut j = [7; 1];
    let mut e = [7; 2];
    assert_eq!(rt; read(bytes, &mut k, &mut c, &mut j, &mut e), Err(refusal));
    assert_eq!(rt; (k, c, j, e), ([7; 2], [7; 2], [7; 1], [7; 2]));
}

#[test]
fn short_files(rt: HostRuntime) {
    // The last has 4096 tokens, none of which are there.
    let files: [&[u8]; 5] = [&[], &[0], &[0, 1], &[0, 1, 3, 1], &[0x10, 0]];
    for bytes in files {
        refused(&rt, bytes, Refusal::FileShort);
    }
}

#[test]
fn too_many_tokens(rt: HostRuntime) {
    refused(
        &rt,
        &[0x10, 1],
        Refusal::TooManyTokens { layer: Layer::File },
    );
}

#[test]
fn long_files(rt: HostRuntime) {
    for spare in [1, 2, 4, 8, 16] {
        refused(&rt, &[0, 1, 3, 1, 0x40 + spare], Refusal::FileLong);
    }
    refused(&rt, &[0, 0, 0], Refusal::FileLong);
    refused(&rt, &[0, 1, 3, 1, 0x40, 0], Refusal::FileLong);
}

#[test]
fn short_columns(rt: HostRuntime) {
    let mut k = [7; 2];
    let mut c = [7; 2];
    let mut j = [7; 1];
    let mut e = [7; 2];
    let short = Err(Refusal::ColumnShort);
    assert_eq!(rt; read(&TWO, &mut [7; 1], &mut c, &mut j, &mut e), short);
    assert_eq!(rt; read(&TWO, &mut k, &mut [7; 1], &mut j, &mut e), short);
    assert_eq!(rt; read(&TWO, &mut k, &mut c, &mut [], &mut e), short);
    assert_eq!(rt; read(&TWO, &mut k, &mut c, &mut j, &mut [7; 1]), short);
    assert_eq!(rt; (k, c, j, e), ([7; 2], [7; 2], [7; 1], [7; 2]));
    let spare = [0, 1, 3, 1, 0x41];
    assert_eq!(rt;
        read(&spare, &mut [], &mut [], &mut [], &mut []),
        Err(Refusal::FileLong)
    );
}

/// What stands past the tokens and their joint words stays, and the joint bits past the tokens are 0.
#[test]
fn tokens(rt: HostRuntime) {
    let mut k = [7; 3];
    let mut c = [7; 3];
    let mut j = [7; 2];
    let mut e = [7; 3];
    assert_eq!(rt; read(&[0, 0], &mut k, &mut c, &mut j, &mut e), Ok(0));
    assert_eq!(rt; (k, c, j, e), ([7; 3], [7; 3], [7; 2], [7; 3]));
    assert_eq!(rt;
        read(&[0, 1, 3, 1, 0x40], &mut k, &mut c, &mut j, &mut e),
        Ok(1)
    );
    assert_eq!(rt; (k, c, j, e), ([3, 7, 7], [1, 7, 7], [0, 7], [2, 7, 7]));
    assert_eq!(rt; read(&TWO, &mut k, &mut c, &mut j, &mut e), Ok(2));
    assert_eq!(rt; (k, c, j, e), ([5, 255, 7], [0, 1, 7], [1, 7], [3, 1, 7]));
}

/// 65 tokens, of which the first, the last of the first word and the one of the second are joint.
#[test]
fn second_word(rt: HostRuntime) {
    let mut bytes = [0; 157];
    bytes[1] = 65;
    bytes[4] = 0x80;
    bytes[153] = 0x04;
    bytes[156] = 0x80;
    let mut joint = [u64::MAX; 3];
    assert_eq!(rt;
        read(&bytes, &mut [7; 65], &mut [7; 65], &mut joint, &mut [7; 65]),
        Ok(65)
    );
    assert_eq!(rt; joint, [0x8000_0000_0000_0001, 1, u64::MAX]);
}

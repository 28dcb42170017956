// Each byte of a journal changed, and each of its fronts.
ghost use Rattle.std.specs.Prelude.{◌<◌};

use crate::journal::{NONE, Read, damaged, is_read_as};
use std::alloc::Global;

// A plan of 16 bytes and three records of 13: the gates stand at 29, 42 and 55, and the last, closed one at 68.
const THREE: [u8; 69] = [
    1, 80, 76, 88, 74, 82, 78, 76, 49, 0, 0, 0, 16, // the master gate, the magic and the length
    65, 58, 32, 123, 32, 68, 114, 105, 118, 101, 40, 51, 41, 59, 32, 125, // the text
    1, 0, 10, 1, 0, 0, 0, 1, 2, 0, 1, 65, 6, // and each record
    1, 0, 10, 1, 0, 0, 0, 1, 2, 0, 1, 65, 6, //
    1, 0, 10, 1, 0, 0, 0, 1, 2, 0, 1, 65, 6, //
    0,
];

const ALL: Read = Ok(3);

// What the three records are read as with the byte 0, 1 or 255 at a place.
fn changed(place: u64, byte: u8) -> Read {
    match (place, byte) {
        // the master gate, the magic and the version, of which no byte is 0, 1 or 255, and the length, 0, 0, 0, 16
        (0, 0) => NONE,
        (0, _) => ALL,
        (1..=8, _) => damaged(place),
        (9..=11, 0) => ALL,
        (9..=11, _) => damaged(9),
        // a text of no byte, then a record with the gate `A`; of one byte, then with the gate `:`; of 255 bytes
        (12, 0) => damaged(14),
        (12, 1) => damaged(15),
        (12, _) => damaged(9),
        // the text
        (13..=28, _) => ALL,
        (29..=41, _) => changed_record(0, 29, place - 29, byte),
        (42..=54, _) => changed_record(1, 42, place - 42, byte),
        (55..=67, _) => changed_record(2, 55, place - 55, byte),
        // the closed gate; behind an open one no length stands
        (_, 0) => ALL,
        (_, _) => damaged(69),
    }
}

// The same of a byte of the record that stands behind so many others, with its gate at this place.
fn changed_record(before: usize, gate: u64, offset: u64, byte: u8) -> Read
    requires { gate < 100 }
{
    let no_entry = damaged(gate + 3);
    match (offset, byte) {
        // its gate
        (0, 0) => Ok(before),
        (0, _) => ALL,
        // its length, 0 and 10: one of 266 or more bytes, and one of 255, is past the end; of none or one is no entry
        (1, 0) => ALL,
        (1, _) => damaged(gate + 1),
        (2, 255) => damaged(gate + 1),
        (2, _) => no_entry,
        // its thread, 1
        (3, 1) => ALL,
        (3, _) => no_entry,
        // its line, 0, 0, 0, 1
        (4..=6, _) => ALL,
        (7, 0) => no_entry,
        (7, _) => ALL,
        // its kind, 2: a report of `A` would go on, and there are no others
        (8, _) => no_entry,
        // the length of its path, 0 and 1
        (9, 0) => ALL,
        (9, _) => no_entry,
        (10, 1) => ALL,
        (10, _) => no_entry,
        // its path, `A`
        (11, _) => no_entry,
        // its handle, 6
        (_, 1) => ALL,
        (_, _) => no_entry,
    }
}

/// How many journals hold with the byte 0, 1 or 255 in each place.
pub(crate) fn held(rt: &impl Print, alloc: Global) -> anyhow::Result<u64> {
    let mut held = 0_u64;
    for place in 0..THREE.len() {
        for byte in [0, 1, 255] {
            let mut bytes = THREE;
            bytes[place] = byte;
            let row = format!(in alloc; "the byte {byte} at place {place}")?;
            let expected = changed(place as u64, byte);
            if is_read_as(rt, alloc, row.as_str(), &bytes, expected)? {
                held = held.saturating_add(1);
            }
        }
    }
    Ok(held)
}

// What a front of so many bytes is read as: the file ends within the heading, with the text, before the gate behind the first
// record, and so on.
fn front(count: usize) -> Read {
    match count {
        0..=12 => NONE,
        13..=29 => damaged(9),
        30..=42 => damaged(30),
        43..=55 => damaged(43),
        56..=68 => damaged(56),
        _ => ALL,
    }
}

/// How many fronts of a journal hold, from none of its bytes to all.
pub(crate) fn fronts_held(rt: &impl Print, alloc: Global) -> anyhow::Result<u64> {
    let mut held = 0_u64;
    for count in 0..=THREE.len() {
        let row = format!(in alloc; "a front of {count} bytes")?;
        if is_read_as(rt, alloc, row.as_str(), &THREE[..count], front(count))? {
            held = held.saturating_add(1);
        }
    }
    Ok(held)
}

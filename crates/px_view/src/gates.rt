// Where the records of a journal begin: a gate, two bytes for the length of what follows, and the next gate behind it.

/// The place of the length of the plan's text.
const LENGTH_AT: usize = 9;

/// The place of the plan's text.
const TEXT_AT: usize = 13;

/// The bytes of a record before its entry.
const BEFORE_ENTRY: usize = 3;

/// The most records.
const RECORDS: usize = 100_000;

// The number that so many bytes at a place spell, the highest first.
fn number_at(bytes: &[u8], at: usize, width: usize) -> Option<usize> {
    let mut number: usize = 0;
    for byte in bytes.get(at..at.saturating_add(width))? {
        number = number.saturating_mul(256).saturating_add(*byte as usize);
    }
    Some(number)
}

// The gate behind the record whose gate this is; None where it is closed or the record has no length.
fn next_gate(bytes: &[u8], gate: usize) -> Option<usize> {
    if *bytes.get(gate)? == 0 {
        return None;
    }
    let length = number_at(bytes, gate.saturating_add(1), 2)?;
    Some(gate.saturating_add(BEFORE_ENTRY).saturating_add(length))
}

/// The last gate before a place that the records of a journal lead to, or its first one.
pub fn last_gate(bytes: &[u8], end: usize) -> usize {
    let text = number_at(bytes, LENGTH_AT, 4).unwrap_or(0);
    let mut gate = TEXT_AT.saturating_add(text);
    for _ in 0..RECORDS {
        match next_gate(bytes, gate) {
            Some(next) if next < end => gate = next,
            _ => return gate,
        }
    }
    gate
}

// Bytes that are no text, which are no rows, as those are text.
use crate::compiled::nodes_of;
use std::alloc::Global;

// Bytes that are no UTF-8, and what is answered to them.
const NO_TEXTS: [(&[u8], &str); 3] = [
    (b"\x80", "refused: not text at byte 0"),
    (b"A: {\xff }", "refused: not text at byte 4"),
    (b"A: { }\xc3", "refused: not text at byte 6"),
];

/// How many of these are refused as they have to be; the others are told.
pub(crate) fn held(rt: &impl Print, alloc: Global) -> anyhow::Result<u64> {
    let mut held = 0_u64;
    for (bytes, wanted) in NO_TEXTS {
        let answer = nodes_of(alloc, bytes)?;
        if answer.as_str() == wanted {
            held = held.saturating_add(1);
        } else {
            println!(rt; "{answer} instead of {wanted}")?;
        }
    }
    Ok(held)
}

// The content of a file, where it is too long for a row or is no text.
use crate::bytes::bytes_of;
use anyhow::bail;
use std::alloc::Global;

/// The bytes that are spelled so: what stands between « and » is a text with how many times it comes, or is bytes in
/// hexadecimal, and all else stands for itself.
pub(crate) fn made(alloc: Global, spelled: &str) -> anyhow::Result<Vec<u8>> {
    let mut bytes = Vec::new(alloc);
    let mut rest = spelled;
    for _ in 0..spelled.len() {
        let Some((front, behind)) = rest.split_once('«') else {
            break;
        };
        let Some((piece, behind)) = behind.split_once('»') else {
            bail!("no end of a piece: {behind}");
        };
        bytes.extend_from_slice(front.as_bytes())?;
        push_piece(alloc, piece, &mut bytes)?;
        rest = behind;
    }
    bytes.extend_from_slice(rest.as_bytes())?;
    Ok(bytes)
}

// The bytes of `COUNT times TEXT` or of `bytes BYTES`.
fn push_piece(alloc: Global, piece: &str, bytes: &mut Vec<u8>) -> anyhow::Result<()> {
    if let Some(spelled) = piece.strip_prefix("bytes ") {
        let listed = bytes_of(alloc, spelled)?;
        bytes.extend_from_slice(&listed)?;
        return Ok(());
    }
    let Some((count, text)) = piece.split_once(" times ") else {
        bail!("no piece: {piece}");
    };
    for _ in 0..count.parse::<u32>()? {
        bytes.extend_from_slice(text.as_bytes())?;
    }
    Ok(())
}

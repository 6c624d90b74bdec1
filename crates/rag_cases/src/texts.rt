// What the texts of rows say: as they stand, with bytes written in base 16, or many times.
use std::alloc::AllocError;

// The number that a digit of base 16 stands for.
fn digit_of(byte: u8) -> Option<u8> {
    match byte {
        b'0'..=b'9' => Some(byte - b'0'),
        b'A'..=b'F' => Some(byte - b'A' + 10),
        _ => None,
    }
}

// The byte that the first two digits write, and what comes behind them.
fn coded_byte(part: &[u8]) -> Option<(u8, &[u8])> {
    let (high, rest) = part.split_first()?;
    let (low, rest) = rest.split_first()?;
    let (high, low) = (digit_of(*high)?, digit_of(*low)?);
    Some((high.wrapping_mul(16) | low, rest))
}

/// Whether two digits stand behind each `%`.
pub(crate) fn is_coded(text: &[u8]) -> bool {
    text.split(|byte| *byte == b'%')
        .skip(1)
        .all(|part| coded_byte(part).is_some())
}

/// Adds a text in which `%` and two digits stand for a byte.
pub(crate) fn push_coded(into: &mut Vec<u8>, text: &[u8]) -> Result<(), AllocError> {
    let mut is_first = true;
    for part in text.split(|byte| *byte == b'%') {
        match coded_byte(part) {
            Some((byte, rest)) if !is_first => {
                into.push(byte)?;
                into.extend_from_slice(rest)?;
            }
            _ => into.extend_from_slice(part)?,
        }
        is_first = false;
    }
    Ok(())
}

/// The number that digits write.
pub(crate) fn number_in(digits: &[u8]) -> Option<u32> {
    str::from_utf8(digits).ok()?.parse::<u32>().ok()
}

// The number before the first blank, and the text behind it.
fn split_often(text: &[u8]) -> (Option<u32>, &[u8]) {
    let at = text
        .iter()
        .position(|byte| *byte == b' ')
        .unwrap_or(text.len());
    let (digits, rest) = text.split_at(at);
    (number_in(digits), rest.strip_prefix(b" ").unwrap_or(rest))
}

/// Whether a number stands before the first blank.
pub(crate) fn is_often(text: &[u8]) -> bool {
    split_often(text).0.is_some()
}

/// Adds a text as often as the number before it says.
pub(crate) fn push_often(into: &mut Vec<u8>, text: &[u8]) -> Result<(), AllocError> {
    let (times, part) = split_often(text);
    for _ in 0..times.unwrap_or(0) {
        into.extend_from_slice(part)?;
    }
    Ok(())
}

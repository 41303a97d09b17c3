//! The notation of sources: bytes that don't stand in a line, and pieces that are repeated.
use word_base::NoMemory;

/// Puts the bytes that a text writes behind. It says whether what stands between two backticks is in its form.
pub(crate) fn push_bytes(bytes: &mut Vec<u8>, text: &str) -> Result<bool, NoMemory> {
    let mut is_plain = true;
    for part in text.split('`') {
        if is_plain {
            bytes.extend_from_slice(part.as_bytes())?;
        } else if !push_marked(bytes, part)? {
            return Ok(false);
        }
        is_plain = !is_plain;
    }
    Ok(true)
}

// Puts the bytes behind that stand for what is between two backticks. It says whether that is in its form.
fn push_marked(bytes: &mut Vec<u8>, mark: &str) -> Result<bool, NoMemory> {
    match mark.split_once(' ') {
        Some((count, piece)) => push_repeated(bytes, count, piece),
        None => push_byte(bytes, mark.as_bytes()),
    }
}

fn push_repeated(bytes: &mut Vec<u8>, count: &str, piece: &str) -> Result<bool, NoMemory> {
    let Ok(count) = count.parse::<u32>() else {
        return Ok(false);
    };
    for _ in 0..count {
        bytes.extend_from_slice(piece.as_bytes())?;
    }
    Ok(true)
}

fn push_byte(bytes: &mut Vec<u8>, digits: &[u8]) -> Result<bool, NoMemory> {
    let [high, low] = digits else {
        return Ok(false);
    };
    match (digit(*high), digit(*low)) {
        (Some(high), Some(low)) => bytes.push(high << 4 | low)?,
        _ => return Ok(false),
    }
    Ok(true)
}

// The value of a hexadecimal digit.
fn digit(byte: u8) -> Option<u8> {
    match byte {
        b'0'..=b'9' => Some(byte - b'0'),
        b'a'..=b'f' => Some(byte - b'a' + 10),
        _ => None,
    }
}

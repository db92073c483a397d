//! Records of a message and what its hash is: lines `LEN = ..`, `MSG = ..` and `MD = ..`, the last of which ends a record.
use anyhow::anyhow;
use std::alloc::{AllocError, Global};

// The bytes that pairs of digits write, 0 to 9 and a to f: `hex` alone would take capitals too, and refuse a last digit that has no
// second, which counts for nothing here.
fn unhex(heap: Global, text: &str) -> anyhow::Result<Vec<u8>> {
    let mut bytes = Vec::new(heap);
    for pair in text.as_bytes().chunks_exact(2) {
        let mut byte = [0u8];
        if pair.iter().any(|b| b.is_ascii_uppercase())
            || hex::decode_to_slice(pair, &mut byte).is_err()
        {
            return Err(anyhow!("a digit that is not hexadecimal"));
        }
        bytes.push(byte[0])?;
    }
    Ok(bytes)
}

// `len` bytes, those of `piece` over and over.
fn repeated(heap: Global, piece: &[u8], len: usize) -> Result<Vec<u8>, AllocError> {
    piece.iter().copied().cycle().take(len).collect(heap)
}

// Whether a vector passes, and its damaged twin does not.
fn passes<F>(mut message: Vec<u8>, expected: &[u8], gives: F) -> Result<bool, AllocError>
where
    F: Fn(&[u8], &[u8]) -> Result<bool, AllocError>,
    requires { F.IsAlwaysCallable gives }
{
    if !gives(&message, expected)? {
        return Ok(false);
    }
    let middle = message.len() / 2;
    match message.get_mut(middle) {
        Some(byte) => *byte ^= 1,
        None => message.push(0)?,
    }
    Ok(!gives(&message, expected)?)
}

/// How many vectors a text holds, all of which pass: `gives` says whether the hash of a message is what is expected.
pub fn passed<F>(heap: Global, text: &str, gives: F) -> anyhow::Result<u32>
where
    F: Fn(&[u8], &[u8]) -> Result<bool, AllocError>,
    requires { F.IsAlwaysCallable gives }
{
    let mut count = 0u32;
    let mut len = 0usize;
    let mut piece = Vec::new(heap);
    for line in text.lines() {
        match line.split_once(" = ") {
            Some(("LEN", value)) => len = value.parse::<usize>()?,
            Some(("MSG", value)) => piece = unhex(heap, value)?,
            Some(("MD", value)) => {
                let expected = unhex(heap, value)?;
                let message = repeated(heap, &piece, len)?;
                if !passes(message, &expected, &gives)? {
                    return Err(anyhow!("a vector fails"));
                }
                count = count.saturating_add(1);
            }
            _ => {}
        }
    }
    Ok(count)
}

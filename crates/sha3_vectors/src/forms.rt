//! Whether each form of a hash, of a message in one piece and in parts, gives what is expected.
use std::alloc::{AllocError, Global};

/// Whether each form of SHA3-256 gives `expected`.
pub fn sha3_gives(message: &[u8], expected: &[u8]) -> bool {
    if sha3::sha3_256(message).as_slice() != expected {
        return false;
    }
    let [label, rest @ ..] = message else {
        return true;
    };
    let (head, tail) = rest.split_at(rest.len() / 3);
    let gives = |head: &[u8], tail: &[u8]| -> bool {
        sha3::sha3_256_parts(*label, head, tail).as_slice() == expected
    };
    gives(head, tail) && gives(rest, &[]) && gives(&[], rest)
}

/// Whether each form of SHAKE128 gives `expected`.
pub fn shake_gives(heap: Global, message: &[u8], expected: &[u8]) -> Result<bool, AllocError> {
    let mut out = vec![in heap; 0u8; expected.len()]?;
    sha3::shake128(message, &mut out);
    if out.as_slice() != expected {
        return Ok(false);
    }
    let [label, rest @ ..] = message else {
        return Ok(true);
    };
    out.fill(0);
    sha3::shake128_labelled(*label, rest, &mut out);
    Ok(out.as_slice() == expected)
}

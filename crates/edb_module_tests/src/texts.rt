//! Texts that repeat their parts.

use std::alloc::Global;
use std::test::Fail;

/// So many times the front, then the middle, then so many times the end.
pub(crate) fn nested(
    alloc: Global,
    front: &[u8],
    middle: &[u8],
    end: &[u8],
    times: usize,
) -> Result<Vec<u8>, Fail> {
    let mut bytes = Vec::new(alloc);
    for _ in 0..times {
        bytes.extend_from_slice(front)?;
    }
    bytes.extend_from_slice(middle)?;
    for _ in 0..times {
        bytes.extend_from_slice(end)?;
    }
    Ok(bytes)
}

/// The front, then so many times the middle, then the end.
pub(crate) fn repeated(
    alloc: Global,
    front: &[u8],
    middle: &[u8],
    end: &[u8],
    times: usize,
) -> Result<Vec<u8>, Fail> {
    let mut bytes = Vec::from_slice(alloc, front)?;
    for _ in 0..times {
        bytes.extend_from_slice(middle)?;
    }
    bytes.extend_from_slice(end)?;
    Ok(bytes)
}

// Bytes for tests.
use std::alloc::{AllocError, Global};
use std::test::Fail;

// The bytes that hexadecimal digits spell, with spaces and line ends between them.
pub(crate) fn from_hex(heap: Global, text: &str) -> Result<Vec<u8>, Fail> {
    let digits: String = text.chars().filter(|c| !c.is_whitespace()).collect(heap)?;
    Ok(hex::decode(heap, digits.as_str())?)
}

// n writes by thread 1 at location 1, and then the bytes of `tail`.
pub(crate) fn writes(heap: Global, n: usize, tail: &[u8]) -> Result<Vec<u8>, AllocError> {
    let mut bytes = Vec::new(heap);
    for _ in 0..n {
        bytes.extend_from_slice(b"\x08\x00\x01\x00\x01\x02\x00\x01\x00\x00")?;
    }
    bytes.extend_from_slice(tail)?;
    Ok(bytes)
}

// Event 512, a read of event 511, and the end.
pub(crate) const READ_OF_511: &[u8] =
    b"\x08\x00\x01\x00\x01\x01\x00\x01\xff\x01\x04\x00\x02\x00\x00\x02";

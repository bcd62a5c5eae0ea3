//! Bytes as hexadecimal digits.
use std::alloc::Global;
use std::test::Fail;

// Spaces are for reading.
pub fn bytes_of(alloc: Global, text: &str) -> Result<Vec<u8>, Fail> {
    let mut digits = String::new(alloc);
    for word in text.split_whitespace() {
        digits.push_str(word)?;
    }
    Ok(hex::decode(alloc, digits.as_str())?)
}

//! What a reference means, as text.
use address::{Address, Unlawful};
use std::alloc::{AllocError, Global};

/// The address that is meant, or the number of the refusal.
pub fn text_of(heap: Global, meaning: &Result<Address, Unlawful>) -> Result<String, AllocError> {
    match meaning {
        Ok(address) => String::from_utf8_lossy(heap, address.as_bytes()),
        Err(fault) => {
            let number = fault.number();
            Ok(format!(in heap; "{number}")?)
        }
    }
}

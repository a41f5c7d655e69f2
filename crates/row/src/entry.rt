//! What the memory of a row holds.

/// A key and the plain record of a value.
#[derive(Clone, Copy)]
pub struct Entry<P> {
    pub key: u64,
    pub value: P,
}

//! An order's number with the hash key of its name.

/// Number of an order, and the hash key of its current name.
#[derive(Clone, Copy)]
pub(crate) struct IdKey {
    pub(crate) hash_key: u64,
    pub(crate) number: u64,
}

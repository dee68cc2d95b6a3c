//! What stands for an item beside its words.

/// An item's key, and how many words its value has. An absent item has no width.
#[derive(Clone, Copy, Debug)]
pub(crate) struct ItemHead {
    pub key: u64,
    pub table: u32,
    pub width: Option<u8>,
}

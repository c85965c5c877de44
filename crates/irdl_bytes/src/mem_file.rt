//! One file in memory.
use sqlite_items::Items;

/// A file of [`MemFiles`](crate::MemFiles), as its contracts see it.
#[derive(Drop)]
pub struct MemFile {
    pub name: Items<u8>,
    pub bytes: Items<u8>,
}

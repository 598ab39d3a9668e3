//! Where a file stands in the bytes of a `MemoryFiles`.

/// The bytes of the name, from `name` to `bytes`, are followed by those of the content, up to `end`.
#[derive(Debug, Clone, Copy)]
pub struct Place {
    pub name: usize,
    pub bytes: usize,
    pub end: usize,
}

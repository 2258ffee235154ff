//! Where the expanded text continues after a replacement.

/// A replacement in the expanded text: its start offset, its end offset, and the number of bytes of the original text
/// left at the alias.
#[derive(Clone, Copy)]
pub struct Mark {
    pub scanned: usize,
    pub past: usize,
    pub left: usize,
}

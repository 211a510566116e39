//! How a struct lies in memory.

/// How far a struct is filled, and what its place is a multiple of.
#[derive(Drop)]
pub struct Layout {
    len: usize,
    pub align: usize,
}

impl Layout {
    /// One of no members.
    pub fn new() -> Layout {
        Layout { len: 0, align: 1 }
    }

    /// Where a member comes to lie of this size, and whose place is a multiple of so many bytes.
    pub fn put(&mut self, (size, align): (usize, usize)) -> usize {
        let offset = rounded(self.len, align);
        self.len = offset.saturating_add(size);
        self.align = self.align.max(align);
        offset
    }

    /// How many bytes it takes.
    pub fn size(&self) -> usize {
        rounded(self.len, self.align)
    }
}

// The least multiple that is no less.
fn rounded(len: usize, align: usize) -> usize {
    let most = len.saturating_add(align.saturating_sub(1));
    most.checked_div(align).unwrap_or(0).saturating_mul(align)
}

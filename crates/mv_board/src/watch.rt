//! What a caller waits for.

/// What a caller waits for: that its event control block is complete, that its element is released, or that a latch request that
/// it made is granted or gone.
#[derive(Clone, Copy, Debug, PartialEq, Eq)]
pub enum Watch {
    /// The block of this number.
    Ecb(u32),
    /// The element of this number.
    Element(u32),
    /// The latch, and the request number that the obtain's reply gave.
    Latch { latch: u32, id: u32 },
}

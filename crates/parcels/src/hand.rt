//! Hands.

/// What a worker carries between the parts of a volume: a batch of block numbers, perhaps none.
#[derive(Drop)]
pub enum Hand<B> {
    Empty,
    /// Free blocks of a volume, on their way to its stock.
    Fresh { volume: u32, batch: B },
    /// Blocks of a volume that files have left, on their way to the free ones.
    Dead { volume: u32, batch: B },
}

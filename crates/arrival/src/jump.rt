// A jump.

// A jump to a block, by an item or from the entry, and how many blocks the way to it has not entered.
#[derive(Clone, Copy)]
pub struct Jump {
    pub item: usize,
    pub entry: bool,
    pub block: usize,
    pub left: usize,
}

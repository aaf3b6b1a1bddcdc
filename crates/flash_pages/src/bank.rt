/// Some blocks in a row, as the first and their number.
#[derive(Clone, Copy, Debug, PartialEq, Eq)]
pub struct Bank {
    pub first: u32,
    pub blocks: u32,
}

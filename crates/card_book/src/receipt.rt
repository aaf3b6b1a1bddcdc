/// What a commit that was made returns.
#[derive(Clone, Copy, Debug, PartialEq, Eq)]
pub struct Receipt {
    /// The place of its record among those of the section, counted from 1.
    pub number: u64,
}

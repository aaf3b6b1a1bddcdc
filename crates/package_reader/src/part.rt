/// What comes next in a package.
#[derive(Clone, Copy, Debug, PartialEq, Eq)]
pub enum Part {
    /// The tag and length of a TLV.
    Head {
        /// The tag's bytes as one number.
        tag: u32,
        /// The bytes of the value.
        length: u32,
        /// Where the head begins, in bytes from the beginning of the package.
        place: u32,
    },
    /// So many bytes of the value of a primitive TLV, as far as they came.
    Bytes(u32),
    /// The innermost constructed TLV has ended.
    Close,
    /// More bytes have to come first.
    More,
    /// No TLV stands here, and none will, whatever comes.
    Bad {
        /// Where it would begin, in bytes from the beginning of the package.
        place: u32,
    },
}

/// Which lines a script may have.
#[derive(Clone, Copy, Debug, PartialEq, Eq)]
pub enum LineSet {
    /// All that the script language has.
    All,
    /// Commands at port 1 alone.
    PortOne,
}

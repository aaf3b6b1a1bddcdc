use file_rows::Kind;

/// A file of a template, unless a package says otherwise.
#[derive(Clone, Copy, Debug, PartialEq, Eq)]
pub struct Row {
    /// Its position in the template. The first file has position 2.
    pub position: u8,
    /// The last identifier of its path.
    pub id: u16,
    pub kind: Kind,
    /// The bytes of a record, 0 where there are no records.
    pub record_len: u8,
    /// The bytes of the body.
    pub size: u16,
    /// The short file identifier, 1 to 30, or 0 where there is none.
    pub sfi: u8,
    /// The record of its access rule in the EF ARR: 2F06 for a file directly under the MF and for
    /// the MF, 6F06 elsewhere.
    pub rule: u8,
}

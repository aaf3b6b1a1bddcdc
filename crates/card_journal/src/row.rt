/// The body of an open row, and the place behind the row.
#[derive(Debug, Drop)]
pub struct Row {
    pub bytes: Vec<u8>,
    pub next: u32,
}

// What memory is reserved in a tree.
#[derive(Clone, Copy, Debug)]
pub enum Room {
    Nothing,
    // For a new file of this size in a directory, or as the MF.
    Add { directory: Option<u32>, size: u16 },
    // For a file to grow to this size.
    Size { node: u32, size: u16 },
}

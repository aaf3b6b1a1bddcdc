ghost use Rattle.std.specs.Prelude.{◌≡◌, IfOk};

use crate::{FileHead, NoMemory};
use plain_lists::LongList;

/// A file: its head and its body. A file that holds files has an empty body.
#[derive(Debug, Drop)]
pub struct FileRow {
    pub head: FileHead,
    pub body: LongList<u8>,
}

impl FileRow {
    /// A copy of the file, on the allocator of its body.
    pub fn copy(&self) -> Result<Self, NoMemory>
        ensures { IfOk result (λ row. row ≡ self.now) }
    {
        let body = Vec::from_slice(self.body.allocator(), self.body.as_slice())?;
        Ok(FileRow {
            head: self.head.copy(),
            body: LongList::from(body),
        })
    }
}

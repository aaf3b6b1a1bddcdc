// Files of the tests as lines of a table.
use file_rows::{FileHead, FileRow, Kind, Life, Name, NoMemory, Path, Rule};
use plain_lists::LongList;
use std::alloc::Global;
use std::process::Abort;

// A file: its path, kind, record length, size, SFI, the row of its rule, and the name of an
// application, or what the body of another file begins with.
#[derive(Clone, Copy)]
pub struct Entry(
    pub &'static [u16],
    pub Kind,
    pub u8,
    pub u16,
    pub u8,
    pub u8,
    pub &'static [u8],
);

pub fn path(rt: &impl Abort, ids: &[u16]) -> Path {
    assert!(rt; ids.len() <= 4);
    Path::from_slice(ids)
}

impl Entry {
    // An active file, whose rule is in the EF ARR 2F06 for the files of the MF, else in 6F06.
    pub fn head(&self, rt: &impl Abort) -> FileHead {
        let Entry(ids, kind, record_len, size, sfi, rule, text) = *self;
        let name = if kind.is_application() { text } else { &[] };
        assert!(rt; name.len() <= 16);
        FileHead {
            path: path(rt, ids),
            kind,
            life: Life::Active,
            sfi,
            name: Name::from_slice(name),
            rule: Some(Rule {
                file: if ids.len() <= 1 { 0x2F06 } else { 0x6F06 },
                row: rule,
            }),
            record_len,
            size,
        }
    }

    // Its body goes on with FF.
    pub fn row(&self, rt: &impl Abort, alloc: Global) -> Result<FileRow, NoMemory> {
        let bytes = if self.1.is_application() { &[] } else { self.6 };
        let mut body = Vec::from_slice(alloc, bytes)?;
        body.resize(usize::from(self.3), 0xFF)?;
        Ok(FileRow {
            head: self.head(rt),
            body: LongList::from(body),
        })
    }
}

ghost use Rattle.std.specs.Prelude.{◌≡◌};
ghost use Rattle.file_rows.specs.Path.{own_id, parent_of};

use plain_lists::ShortList;

/// The identifiers from the MF down to a file; the MF itself has none. At most four (ETSI TS 102
/// 221).
pub type Path = ShortList<u16, 4>;

/// The file identifier of the MF (ETSI TS 102 221).
pub const MASTER_FILE_ID: u16 = 0x3F00;

/// The file identifier that stands for the channel's application (ETSI TS 102 221).
pub const CURRENT_APPLICATION_ID: u16 = 0x7FFF;

/// The file identifier of the file at a path: the last one of the path, and `3F00` for the MF.
pub fn own_id(path: &Path) -> u16
    ensures { result ≡ own_id path.now }
{
    path.as_slice().last().copied().unwrap_or(MASTER_FILE_ID)
}

/// The path of the directory that holds the file at a path; nothing holds the MF. It takes no
/// memory.
pub fn parent_of(path: &Path) -> Option<Path>
    ensures { result ≡ parent_of path.now }
{
    let (_, directory) = path.as_slice().split_last()?;
    Some(Path::from_slice(directory))
}

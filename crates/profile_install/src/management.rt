//! The steps of a file management element.
ghost use Rattle.std.specs.Prelude.{◌≡◌, ◌+◌, ◌*◌, Some, Ok};
ghost use Rattle.profile_install.specs.ElementResult.{ComesTo};
ghost use Rattle.profile_install.specs.Management.{at_new, fresh_standing, gone_to};
ghost use Rattle.profile_install.specs.Management.{path_below_master, selected, skip_at};
ghost use Rattle.profile_install.specs.Management.{standing_at_place, standing_at_row};
ghost use Rattle.profile_install.specs.Management.{with_content_step, with_file_made, with_step};

use crate::draft::skip_count;
use crate::{Draft, DraftFiles, ElementFault, OpenFile, StepFault};
use fcp_codec::Fcp;
use file_rows::{FileHead, FileRow, Path, parent_of};

/// Where the steps of a file management element have gone.
#[derive(Drop)]
pub struct Standing {
    /// The directory in which the next file is made.
    pub directory: Path,
    /// The current EF, into which content goes.
    pub file: Option<OpenFile>,
}

/// What is made after a step, and where it has gone.
#[derive(Drop)]
pub struct Managed {
    pub draft: Draft,
    pub standing: Standing,
}

fn id_of(high: u8, low: u8) -> u16
    ensures { result ≡ high * 256 + low }
{
    u16::from(high) * 256 + u16::from(low)
}

// A path below the MF.
fn path_below_master(value: &[u8]) -> Result<Path, ElementFault>
    ensures { result ≡ path_below_master value.now }
{
    match value {
        [] => Ok(Path::new()),
        [a, b] => Ok(Path::from_slice(&[id_of(*a, *b)])),
        [a, b, c, d] => Ok(Path::from_slice(&[id_of(*a, *b), id_of(*c, *d)])),
        [a, b, c, d, e, f] => {
            let ids = [id_of(*a, *b), id_of(*c, *d), id_of(*e, *f)];
            Ok(Path::from_slice(&ids))
        }
        [a, b, c, d, e, f, g, h] => {
            let ids = [id_of(*a, *b), id_of(*c, *d), id_of(*e, *f), id_of(*g, *h)];
            Ok(Path::from_slice(&ids))
        }
        _ if value.len() % 2 == 1 => Err(ElementFault::Malformed),
        _ => Err(ElementFault::BadParameter),
    }
}

fn standing_at_row(path: Path, index: usize, row: &FileRow) -> Standing
    ensures { standing_at_row path index (Some row.now) ≡ Ok result }
{
    if row.head.kind.holds_files() {
        return Standing {
            directory: path,
            file: None,
        };
    }
    Standing {
        directory: parent_of(&path).unwrap_or(Path::new()),
        file: Some(OpenFile { index, place: 0 }),
    }
}

fn standing_at_place(rows: &[FileRow], path: Path, index: usize) -> Result<Standing, ElementFault>
    ensures { result ≡ standing_at_place rows.now path (Some index) }
{
    match rows.get(index) {
        Some(row) => Ok(standing_at_row(path, index, row)),
        None => Err(ElementFault::BadParameter),
    }
}

// The place of a file that is there.
fn gone_to(files: &DraftFiles, path: Path) -> Result<Standing, ElementFault>
    ensures { result ≡ gone_to files.now path }
{
    match files.place_of(path.as_slice()) {
        Some(index) => standing_at_place(files.as_slice(), path, index),
        None => Err(ElementFault::BadParameter),
    }
}

impl Standing {
    /// At the MF, with no EF.
    pub fn new() -> Standing
        ensures { result ≡ fresh_standing }
    {
        Standing {
            directory: Path::new(),
            file: None,
        }
    }

    // `80` goes to a directory that is there, or to an EF.
    fn selected(draft: &Draft, value: &[u8]) -> Result<Standing, ElementFault>
        ensures { result ≡ selected draft.now value.now }
    {
        let path = path_below_master(value)?;
        gone_to(&draft.rows, path)
    }

    /// A step with a value: `80` goes to the file at a path below the MF, `82` skips in the current
    /// EF, `83` is content for it.
    ///
    /// `Malformed`: another step, a path of an odd length, or a number of no or more than two
    /// bytes. `BadParameter`: a path of more than four identifiers, or of no file; no current EF;
    /// content past its end.
    pub fn with_step(self, draft: Draft, tag: u32, value: &[u8]) -> Result<Managed, ElementFault>
        ensures { result ≡ with_step draft self tag value.now }
    {
        match tag {
            0x80 => {
                let standing = Standing::selected(&draft, value)?;
                Ok(Managed { draft, standing })
            }
            0x82 => {
                let count = skip_count(value)?;
                self.skip_at(draft, count)
            }
            0x83 => self.with_content_step(draft, value),
            _ => Err(ElementFault::Malformed),
        }
    }

    fn skip_at(self, draft: Draft, count: u16) -> Result<Managed, ElementFault>
        ensures { result ≡ skip_at draft self self.file count }
    {
        let Standing { directory, file } = self;
        let Some(file) = file else {
            return Err(ElementFault::BadParameter);
        };
        let standing = Standing {
            directory,
            file: Some(file.skip(count)),
        };
        Ok(Managed { draft, standing })
    }

    fn with_content_step(self, draft: Draft, value: &[u8]) -> Result<Managed, ElementFault>
        ensures { result ≡ with_content_step draft self value.now self.file }
    {
        let Standing { directory, file } = self;
        let Some(file) = file else {
            return Err(ElementFault::BadParameter);
        };
        let done = draft.fill(file, value)?;
        let standing = Standing {
            directory,
            file: Some(done.file),
        };
        Ok(Managed {
            draft: done.draft,
            standing,
        })
    }
}

fn at_new(draft: Draft, directory: Path, head: FileHead) -> Managed
    ensures { result ≡ at_new draft directory head }
{
    let standing = if head.kind.holds_files() {
        Standing {
            directory: head.path,
            file: None,
        }
    } else {
        Standing {
            directory,
            file: Some(draft.last_file()),
        }
    };
    Managed { draft, standing }
}

/// `62` makes a file in a directory, as CREATE FILE does without access rules (ETSI TS 102 222). An
/// EF is then the current one; in a directory the next file is made.
///
/// `BadParameter`: a field that is malformed or stands there again, or a file that can't be.
/// `NoRoom`: it exceeds the quota.
pub(crate) fn with_file_made(
    draft: Draft,
    directory: Path,
    fcp: Option<Fcp>,
) -> Result<Managed, StepFault>
    ensures { ComesTo result (with_file_made draft directory fcp) }
{
    let Some(fcp) = fcp else {
        return Err(StepFault::Refused(ElementFault::BadParameter));
    };
    let head = draft.head_made(&directory, &fcp)?;
    let draft = draft.with_new_file(&head)?;
    Ok(at_new(draft, directory, head))
}

// Whether a content is one that a card may hold.
ghost use Rattle.std.specs.Prelude.{◌≡◌, ◌⊎◌, ◌≤◌, ◌↔◌, [], length, IsTrue};
ghost use Rattle.file_rows.specs.Content.{ArePins, AreFiles, IsEmpty, IsFileSystem, IsValid};
ghost use Rattle.file_rows.specs.Content.{heads_of, use_of};

use crate::files::are_files;
use crate::pins::are_pins;
use crate::{Content, FileRow, QUOTA};

// Whether the files take no more than the quota. It counts no further than that.
fn fit_quota(rows: &[FileRow]) -> bool
    ensures { IsTrue result ↔ (use_of rows.now ≤ QUOTA) }
{
    let mut left = QUOTA as usize;
    for row in rows {
        if left < 32 || row.body.len() > left - 32 {
            return false;
        }
        left -= row.body.len() + 32;
    }
    true
}

impl Content {
    // Whether it has no files and no PINs.
    fn is_empty(&self) -> bool
        ensures { IsTrue result ↔ IsEmpty self.now }
    {
        self.rows.len() == 0 && self.pins.len() == 0
    }

    // Whether it has files, and they and the PINs are those of a card.
    fn is_file_system(&self) -> bool
        ensures { IsTrue result ↔ IsFileSystem self.now }
    {
        let rows = self.rows.as_slice();
        are_files(rows) && are_pins(self.pins.as_slice(), rows)
    }

    /// Whether a card may hold it: its files within the quota, at most 32 PINs, each file and PIN
    /// of the form that ETSI TS 102 221 gives it, and no two of one path, SFI, name, number or key
    /// where there may be one. It takes no memory, and its time grows with the square of the number
    /// of files.
    pub fn is_valid(&self) -> bool
        ensures { IsTrue result ↔ IsValid self.now }
    {
        fit_quota(self.rows.as_slice())
            && self.pins.len() <= 32
            && (self.is_empty() || self.is_file_system())
    }
}

#[cfg(test)]
mod tests;

// Whether rows are the files of a card.
ghost use Rattle.std.specs.Prelude.{◌≡◌, ◌≢◌, ℕ, ◌↔◌, List, length, take, drop, Any, IsTrue};
ghost use Rattle.std.specs.List.{AllByRecursion};
ghost use Rattle.plain_lists.specs.EachTwo.{EachTwo};
ghost use Rattle.file_rows.specs.Apart.{AreFilesApart};
ghost use Rattle.file_rows.specs.Content.{AreFiles, AreTree, StandInEarlier, heads_of};
ghost use Rattle.file_rows.specs.FileHead.{Holds, IsFile, ShareName, ShareSfi};
ghost use Rattle.file_rows.specs.Path.{IsIn};

use crate::form::is_in;
use crate::{FileHead, FileRow, Kind};

impl FileHead {
    /// Whether a file stands in this one.
    pub fn holds(&self, file: &FileHead) -> bool
        ensures { IsTrue result ↔ Holds self.now file.now }
    {
        self.kind.holds_files() && is_in(self.path.as_slice(), file.path.as_slice())
    }

    /// Whether two files can stand in one content: they differ in path, in SFI where they have one
    /// and stand in one directory, and in name where they have one.
    pub fn is_apart(&self, other: &FileHead) -> bool
        ensures { IsTrue result ↔ AreFilesApart self.now other.now }
    {
        self.path != other.path && !share_sfi(self, other) && !share_name(self, other)
    }
}

// Whether one of the files is the directory of a file.
pub fn has_directory(file: &FileHead, earlier: &[FileRow]) -> bool
    ensures { IsTrue result ↔ Any (λ directory. Holds directory file.now) (heads_of earlier.now) }
{
    for row in earlier {
        if row.head.holds(file) {
            return true;
        }
    }
    false
}

// Whether each file but the first stands in an earlier one.
fn stand_in_earlier(rows: &[FileRow]) -> bool
    ensures { IsTrue result
        ↔ StandInEarlier (heads_of (take 1 rows.now)) (heads_of (drop 1 rows.now)) }
{
    for index in 1..rows.len() {
        if !has_directory(&rows[index].head, &rows[..index]) {
            return false;
        }
    }
    true
}

pub fn is_root(head: &FileHead) -> bool
    ensures { IsTrue result ↔ (head.now.kind ≡ Kind.Master) }
{
    head.kind == Kind::Master
}

fn have_no_root(rows: &[FileRow]) -> bool
    ensures { IsTrue result ↔ AllByRecursion (λ row. row.head.kind ≢ Kind.Master) rows.now }
{
    for row in rows {
        if is_root(&row.head) {
            return false;
        }
    }
    true
}

fn are_tree(rows: &[FileRow]) -> bool
    ensures { IsTrue result ↔ AreTree (heads_of rows.now) }
{
    match rows {
        [first, rest @ ..] => {
            is_root(&first.head) && have_no_root(rest) && stand_in_earlier(rows)
        }
        [] => false,
    }
}

// Whether each file has the form of its kind, and a body of its size.
fn are_formed(rows: &[FileRow]) -> bool
    ensures { IsTrue result
        ↔ AllByRecursion (λ row. IsFile row.head × (length row.body ≡ row.head.size)) rows.now }
{
    for row in rows {
        if !row.head.is_file() || row.body.len() != usize::from(row.head.size) {
            return false;
        }
    }
    true
}

fn share_directory(one: &[u16], other: &[u16]) -> bool
    ensures { IsTrue result ↔ ((path : List ℕ) × IsIn path one.now × IsIn path other.now) }
{
    match one {
        [directory @ .., _] => is_in(directory, other),
        [] => false,
    }
}

fn share_sfi(one: &FileHead, other: &FileHead) -> bool
    ensures { IsTrue result ↔ ShareSfi one.now other.now }
{
    one.sfi != 0
        && one.sfi == other.sfi
        && share_directory(one.path.as_slice(), other.path.as_slice())
}

fn share_name(one: &FileHead, other: &FileHead) -> bool
    ensures { IsTrue result ↔ ShareName one.now other.now }
{
    !one.name.is_empty() && one.name == other.name
}

fn is_apart_from(file: &FileHead, later: &[FileRow]) -> bool
    ensures { IsTrue result ↔ AllByRecursion (λ row. AreFilesApart file.now row.head) later.now }
{
    for row in later {
        if !file.is_apart(&row.head) {
            return false;
        }
    }
    true
}

fn are_apart(rows: &[FileRow]) -> bool
    ensures { IsTrue result ↔ EachTwo (λ one other. AreFilesApart one.head other.head) rows.now }
{
    for (index, row) in rows.iter().enumerate() {
        if !is_apart_from(&row.head, &rows[index + 1..]) {
            return false;
        }
    }
    true
}

pub fn are_files(rows: &[FileRow]) -> bool
    ensures { IsTrue result ↔ AreFiles rows.now }
{
    are_tree(rows) && are_formed(rows) && are_apart(rows)
}

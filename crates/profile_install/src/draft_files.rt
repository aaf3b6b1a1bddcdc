//! The files that a package has made, found by path, by SFI and by name.
ghost use Rattle.std.specs.Prelude.{◌≡◌, ℕ, ◌+◌, ◌≤◌, ◌==◌, ◌&&◌, ◌||◌, [], ◌∷◌, ◌++◌};
ghost use Rattle.std.specs.Prelude.{if◌then◌else◌, IfOk, IsSomeAnd, List, None, Some, is_some};
ghost use Rattle.std.specs.Prelude.{length, position, slice_get, slice_set};
ghost use Rattle.std.specs.BTreeMap.{get_by};
ghost use Rattle.std.specs.BTreeSet.{contains_by};
ghost use Rattle.std.specs.Option.{option_or};
ghost use Rattle.std.specs.Str.{bytes_eq};
ghost use Rattle.file_rows.specs.Change.{with_body, written};
ghost use Rattle.file_rows.specs.Content.{file_at};
ghost use Rattle.file_rows.specs.FileHead.{is_application};
ghost use Rattle.file_rows.specs.Find.{is_name_used};
ghost use Rattle.file_rows.specs.Path.{is_in, same_path};
ghost use Rattle.file_rows.specs.declared.row.FileRow.{FileRow};
ghost use Rattle.profile_install.specs.FileKeys.{to_name, to_path, to_sfi};
ghost use Rattle.profile_install.specs.Draft.{with_sfi};

use arrayvec::ArrayVec;
use file_rows::{FileHead, FileRow, Name, NoMemory, Path, parent_of};
use plain_lists::LongList;
use std::alloc::Global;
use std::collections::{BTreeMap, BTreeSet};
use std::marker::Model;
use std::mem;

// A path, with one identifier more than a file's may have.
type PathKey = ArrayVec<u16, 5>;

// A name, with one byte more than an application's may have.
type NameKey = ArrayVec<u8, 17>;

/// Files in the order in which they were made. Each look-up compares with about as many files as
/// the logarithm of their number. Contracts see the list of the files.
#[derive(Drop)]
pub struct DraftFiles {
    rows: LongList<FileRow>,
    // The place of the first file of each path.
    places: BTreeMap<PathKey, usize>,
    // The SFIs of the files in each directory.
    sfis: BTreeSet<(PathKey, u8)>,
    // The names of the applications.
    names: BTreeSet<NameKey>,
}

impl Model for DraftFiles {
    ghost use Rattle.std.specs.Prelude.{List};
    ghost use Rattle.file_rows.specs.declared.row.FileRow.{FileRow};

    ghost Value = { List FileRow };

    ghost view = { λ files. files.rows };

    ghost use Rattle.profile_install.specs.DraftFiles.{AreFound};

    ghost invariant = { AreFound };
}

fn path_key(path: &[u16]) -> PathKey
    requires { length path.now ≤ 5 }
    ensures { result.items ≡ path.now }
{
    let mut key = ArrayVec::new();
    let _fits = key.try_extend_from_slice(path);
    key
}

fn name_key(name: &[u8]) -> NameKey
    requires { length name.now ≤ 17 }
    ensures { result.items ≡ name.now }
{
    let mut key = ArrayVec::new();
    let _fits = key.try_extend_from_slice(name);
    key
}

// The places with that of one file more.
fn with_place(
    places: BTreeMap<PathKey, usize>,
    path: &Path,
    place: usize,
) -> Result<BTreeMap<PathKey, usize>, NoMemory>
    ensures { IfOk result (λ more. (other : List ℕ) → get_by (to_path other) more
        ≡ option_or (get_by (to_path other) places)
        (if same_path path.now other then Some place else None)) }
{
    let mut places = places;
    let key = path_key(path.as_slice());
    if places.contains_key(&key) {
        return Ok(places);
    }
    places.insert(key, place)?;
    Ok(places)
}

// The SFIs with that of one file more, which stands in a directory.
fn with_sfi_in(
    sfis: BTreeSet<(PathKey, u8)>,
    directory: &Path,
    sfi: u8,
) -> Result<BTreeSet<(PathKey, u8)>, NoMemory>
    ensures { IfOk result (λ more. (other : List ℕ) (number : ℕ) → contains_by (to_sfi other number)
        more ≡ (contains_by (to_sfi other number) sfis
        || (bytes_eq directory.now other && (sfi == number)))) }
{
    let mut sfis = sfis;
    sfis.insert((path_key(directory.as_slice()), sfi))?;
    Ok(sfis)
}

// The SFIs with that of one file more.
fn with_sfi_of(
    sfis: BTreeSet<(PathKey, u8)>,
    head: &FileHead,
) -> Result<BTreeSet<(PathKey, u8)>, NoMemory>
    ensures { IfOk result (λ more. (other : List ℕ) (number : ℕ) → contains_by (to_sfi other number)
        more ≡ (contains_by (to_sfi other number) sfis
        || (is_in other head.now.path && (head.now.sfi == number)))) }
{
    match parent_of(&head.path) {
        Some(directory) => with_sfi_in(sfis, &directory, head.sfi),
        None => Ok(sfis),
    }
}

// The names with one more.
fn with_name(names: BTreeSet<NameKey>, name: &Name) -> Result<BTreeSet<NameKey>, NoMemory>
    ensures { IfOk result (λ more. (other : List ℕ) → contains_by (to_name other) more
        ≡ (contains_by (to_name other) names || bytes_eq name.now other)) }
{
    let mut names = names;
    names.insert(name_key(name.as_slice()))?;
    Ok(names)
}

// The names with that of one file more, where it is an application.
fn with_name_of(names: BTreeSet<NameKey>, head: &FileHead) -> Result<BTreeSet<NameKey>, NoMemory>
    ensures { IfOk result (λ more. (name : List ℕ) → contains_by (to_name name) more
        ≡ (contains_by (to_name name) names
        || (is_application head.now.kind && bytes_eq head.now.name name))) }
{
    if head.kind.is_application() {
        with_name(names, &head.name)
    } else {
        Ok(names)
    }
}

// The body of a file, with these bytes from a place on.
fn written(body: &mut LongList<u8>, place: usize, bytes: &[u8])
    requires { place + length bytes.now ≤ length body.old }
    ensures { body.new ≡ written place bytes.now body.old }
{
    let alloc = body.allocator();
    let mut its = Vec::from(mem::replace(body, LongList::new(alloc)));
    its[place..place + bytes.len()].copy_from_slice(bytes);
    *body = LongList::from(its);
}

// A file among others gets content.
fn write_row(rows: &mut [FileRow], index: usize, place: usize, bytes: &[u8])
    requires { IsSomeAnd (slice_get rows.old index)
        (λ row. place + length bytes.now ≤ length row.body) }
    ensures { IsSomeAnd (slice_get rows.old index)
        (λ row. rows.new ≡ slice_set rows.old index (with_body (written place bytes.now) row)) }
{
    written(&mut rows[index].body, place, bytes);
}

// Files of which one gets content.
fn with_content(
    rows: LongList<FileRow>,
    index: usize,
    place: usize,
    bytes: &[u8],
) -> LongList<FileRow>
    requires { IsSomeAnd (slice_get rows index)
        (λ row. place + length bytes.now ≤ length row.body) }
    ensures { IsSomeAnd (slice_get rows index)
        (λ row. result ≡ slice_set rows index (with_body (written place bytes.now) row)) }
{
    let mut its = Vec::from(rows);
    write_row(its.as_mut_slice(), index, place, bytes);
    LongList::from(its)
}

impl DraftFiles {
    /// No files. It takes no memory.
    pub fn new(alloc: Global) -> DraftFiles
        ensures { result ≡ [] }
    {
        DraftFiles {
            rows: LongList::new(alloc),
            places: BTreeMap::new(alloc),
            sfis: BTreeSet::new(alloc),
            names: BTreeSet::new(alloc),
        }
    }

    /// The files, in the order in which they were made.
    pub fn as_slice(&self) -> &[FileRow]
        ensures { result.now ≡ self.now }
    {
        self.rows.as_slice()
    }

    /// The number of files.
    pub fn len(&self) -> usize
        ensures { result ≡ length self.now }
    {
        self.rows.len()
    }

    /// The files as a list.
    pub fn into_rows(self) -> LongList<FileRow>
        ensures { result ≡ self }
    {
        self.rows
    }

    /// What gives the memory for more files. A `Global` has nothing to tell apart.
    pub fn allocator(&self) -> Global {
        self.rows.allocator()
    }

    /// One file more.
    pub fn with_file(self, row: FileRow) -> Result<DraftFiles, NoMemory>
        ensures { IfOk result (λ files. files ≡ self ++ row ∷ []) }
    {
        let DraftFiles {
            rows,
            places,
            sfis,
            names,
        } = self;
        let places = with_place(places, &row.head.path, rows.len())?;
        let sfis = with_sfi_of(sfis, &row.head)?;
        let names = with_name_of(names, &row.head)?;
        let mut rows = rows;
        rows.push(row)?;
        Ok(DraftFiles {
            rows,
            places,
            sfis,
            names,
        })
    }

    /// Which of the files, counted from 0, has this path. The path has five identifiers at most.
    pub fn place_of(&self, path: &[u16]) -> Option<usize>
        requires { length path.now ≤ 5 }
        ensures { result ≡ position
            (λ (row : FileRow). same_path row.head.path path.now) self.now }
    {
        self.places.get(&path_key(path)).copied()
    }

    /// Whether a file has this path, of five identifiers at most.
    pub fn has_path(&self, path: &[u16]) -> bool
        requires { length path.now ≤ 5 }
        ensures { result ≡ is_some (file_at path.now self.now) }
    {
        self.place_of(path).is_some()
    }

    /// Whether a file in this directory has this SFI, or, for 0, none.
    pub fn has_sfi(&self, directory: &Path, sfi: u8) -> bool
        ensures { result ≡ is_some (with_sfi directory.now sfi self.now) }
    {
        self.sfis.contains(&(path_key(directory.as_slice()), sfi))
    }

    /// Whether an application has exactly this name, of 17 bytes at most.
    pub fn has_name(&self, name: &[u8]) -> bool
        requires { length name.now ≤ 17 }
        ensures { result ≡ is_name_used self.now name.now }
    {
        self.names.contains(&name_key(name))
    }

    /// A file gets content, from a place in it on. It takes no memory.
    pub fn write(&mut self, index: usize, place: usize, bytes: &[u8])
        requires { IsSomeAnd (slice_get self.old index)
            (λ row. place + length bytes.now ≤ length row.body) }
        ensures { IsSomeAnd (slice_get self.old index) (λ row. self.new
            ≡ slice_set self.old index (with_body (written place bytes.now) row)) }
    {
        let alloc = self.rows.allocator();
        let rows = mem::replace(&mut self.rows, LongList::new(alloc));
        self.rows = with_content(rows, index, place, bytes);
    }
}

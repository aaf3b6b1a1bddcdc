// The file of a path among others.
ghost use Rattle.std.specs.Prelude.{◌≡◌, ◌<◌, None, Some, IfNone, IfSome, IsSomeAnd, length};
ghost use Rattle.std.specs.Prelude.{slice_get};
ghost use Rattle.file_rows.specs.Content.{file_at};
ghost use Rattle.file_rows.specs.Path.{same_path};

use file_rows::{FileRow, Path};

fn is_at(row: &FileRow, path: &Path) -> bool
    ensures { result ≡ same_path row.now.head.path path.now }
{
    row.head.path.as_slice() == path.as_slice()
}

// The place of the file of that path, counted from 0.
pub fn row_of(rows: &[FileRow], path: &Path) -> Option<usize>
    ensures found { IfSome result (λ place.
        IsSomeAnd (slice_get rows.now place) (λ row. row.head.path ≡ path.now)) }
    ensures none { IfNone result (file_at path.now rows.now ≡ None) }
{
    for (place, row) in rows.iter().enumerate() {
        if is_at(row, path) {
            return Some(place);
        }
    }
    None
}

pub fn row_in(rows: &[FileRow], place: usize) -> &FileRow
    requires { place < length rows.now }
    ensures { slice_get rows.now place ≡ Some result.now }
{
    &rows[place]
}

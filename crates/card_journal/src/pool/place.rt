// Where the body of a file stands among those of the others.
ghost use Rattle.std.specs.Prelude.{◌≡◌, ◌≢◌, ◌<◌, ◌^◌, IfNone, IfSome, IsTrue, ◌↔◌};
ghost use Rattle.std.specs.List.{AllByRecursion};
ghost use Rattle.file_rows.specs.Path.{same_path};
ghost use Rattle.card_journal.specs.Pool.{IsPlaceOf};
ghost use Rattle.record_codec.specs.Pooled.{pooled_size};

use file_rows::{FileHead, Path};

// A file's place among the others, counted from 0, and where its body begins.
#[derive(Clone, Copy, Debug)]
pub struct Place {
    pub index: usize,
    pub start: usize,
}

// Whether a file has the path.
pub fn is_at(head: &FileHead, path: &Path) -> bool
    ensures test { result ≡ same_path head.now.path path.now }
    ensures same { IsTrue result ↔ (head.now.path ≡ path.now) }
{
    head.path.as_slice() == path.as_slice()
}

// The place of the file of a path.
pub fn place_of(heads: &[FileHead], path: &Path) -> Option<Place>
    requires { pooled_size heads.now < 2 ^ 64 }
    ensures found { IfSome result (λ place. IsPlaceOf path.now heads.now place.index place.start) }
    ensures none { IfNone result (AllByRecursion (λ head. head.path ≢ path.now) heads.now) }
{
    let mut start = 0;
    for (index, head) in heads.iter().enumerate() {
        if is_at(head, path) {
            return Some(Place { index, start });
        }
        start += usize::from(head.size);
    }
    None
}

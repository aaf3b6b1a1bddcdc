ghost use Rattle.std.specs.Prelude.{◌≡◌, ◌≤◌, length, take, drop};
ghost use Rattle.std.specs.List.{AllByRecursion, flat_map};
ghost use Rattle.record_codec.specs.Fields.{list};
ghost use Rattle.record_codec.specs.Pooled.{files_pooled, pooled_rows};
ghost use Rattle.record_codec.specs.Sizes.{HasFileSizes, IsList};
ghost use Rattle.record_codec.specs.Spelling.{file};
ghost use Rattle.record_codec.specs.Window.{Puts};

use crate::put::put_cut_file;
use crate::window::{Place, put_number2};
use file_rows::FileHead;

/// Files as their heads and one list of bytes, in which the bodies stand one behind another.
#[derive(Debug, Drop)]
pub struct PooledFiles<'a> {
    pub heads: &'a [FileHead],
    pub bytes: &'a [u8],
}

fn rest_from(bytes: &[u8], start: usize) -> &[u8]
    requires { start ≤ length bytes.now }
    ensures { result.now ≡ drop start bytes.now }
{
    &bytes[start..]
}

fn put_cut_files(heads: &[FileHead], bytes: &[u8], place: &mut Place, out: &mut [u8])
    requires { AllByRecursion (λ row. length row.body ≡ row.head.size)
        (pooled_rows heads.now bytes.now) }
    ensures puts { Puts (flat_map file (pooled_rows heads.now bytes.now))
        place.old out.old place.new out.new }
    ensures sizes { AllByRecursion HasFileSizes (pooled_rows heads.now bytes.now) }
{
    let mut start = 0;
    for head in heads {
        put_cut_file(head, rest_from(bytes, start), place, out);
        start += usize::from(head.size);
    }
}

// Puts the list of the files that these stand for.
pub(crate) fn put_pooled_list(files: &PooledFiles<'_>, place: &mut Place, out: &mut [u8])
    requires few { length (files_pooled files.now) ≤ 65535 }
    requires bodies { AllByRecursion
        (λ row. length row.body ≡ row.head.size) (files_pooled files.now) }
    ensures puts { Puts (list file (files_pooled files.now)) place.old out.old place.new out.new }
    ensures sizes { IsList 65535 HasFileSizes (files_pooled files.now) }
{
    put_number2(files.heads.len() as u16, place, out);
    put_cut_files(files.heads, files.bytes, place, out);
}

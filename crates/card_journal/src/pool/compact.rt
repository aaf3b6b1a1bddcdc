// The bodies of the files that stay, moved together.
ghost use Rattle.std.specs.Prelude.{◌≡◌, ◌≤◌, ◌<◌, ◌^◌, ◌+◌, if◌then◌else◌, not, filter, length};
ghost use Rattle.std.specs.Prelude.{vec_capacity};
ghost use Rattle.std.specs.List.{copy_within, flat_map};
ghost use Rattle.file_rows.specs.Path.{stands_below};
ghost use Rattle.record_codec.specs.Pooled.{pooled_rows, pooled_size};

use file_rows::{FileHead, Path, PinRow};

// Whether a file stands below the top one, or is it.
fn is_below(path: &Path, top: &Path) -> bool
    ensures { result ≡ stands_below top.now path.now }
{
    path.as_slice().starts_with(top.as_slice())
}

// Moves a body down, if it stays, and returns where the next one is to stand.
fn keep_body(stays: bool, size: usize, from: usize, to: usize, bodies: &mut Vec<u8>) -> usize
    requires below { to ≤ from }
    requires within { from + size ≤ length bodies.old.items }
    ensures bodies { bodies.new.items
        ≡ (if stays then copy_within bodies.old.items from (from + size) to
        else bodies.old.items) }
    ensures room { vec_capacity bodies.new ≡ vec_capacity bodies.old }
    ensures next { result ≡ (if stays then to + size else to) }
{
    if stays {
        bodies.copy_within(from..from + size, to);
        to + size
    } else {
        to
    }
}

// Leaves out the bodies of the files below the top one, and its own.
fn keep_bodies(heads: &[FileHead], top: &Path, bodies: &mut Vec<u8>)
    requires { pooled_size heads.now ≡ length bodies.old.items }
    ensures left { bodies.new.items ≡ flat_map (λ row. row.body)
        (filter (λ row. not (stands_below top.now row.head.path))
        (pooled_rows heads.now bodies.old.items)) }
    ensures room { vec_capacity bodies.new ≡ vec_capacity bodies.old }
{
    let mut from = 0;
    let mut to = 0;
    for head in heads {
        let size = usize::from(head.size);
        let stays = !is_below(&head.path, top);
        to = keep_body(stays, size, from, to, bodies);
        from += size;
    }
    bodies.truncate(to);
}

fn drop_heads(top: &Path, heads: &mut Vec<FileHead>)
    ensures left { heads.new.items
        ≡ filter (λ head. not (stands_below top.now head.path)) heads.old.items }
    ensures room { vec_capacity heads.new ≡ vec_capacity heads.old }
{
    heads.retain(|head| !is_below(&head.path, top));
}

// Takes away the PINs at home in a file or below it.
pub fn drop_pins(top: &Path, pins: &mut Vec<PinRow>)
    ensures left { pins.new.items
        ≡ filter (λ pin. not (stands_below top.now pin.home)) pins.old.items }
    ensures room { vec_capacity pins.new ≡ vec_capacity pins.old }
{
    pins.retain(|pin| !is_below(&pin.home, top));
}

// Takes away a file and all below it.
pub fn drop_rows(top: &Path, heads: &mut Vec<FileHead>, bodies: &mut Vec<u8>)
    requires { pooled_size heads.old.items ≡ length bodies.old.items }
    ensures left { pooled_rows heads.new.items bodies.new.items
        ≡ filter (λ row. not (stands_below top.now row.head.path))
        (pooled_rows heads.old.items bodies.old.items) }
    ensures full { pooled_size heads.new.items ≡ length bodies.new.items }
    ensures heads { vec_capacity heads.new ≡ vec_capacity heads.old }
    ensures bodies { vec_capacity bodies.new ≡ vec_capacity bodies.old }
{
    keep_bodies(heads, top, bodies);
    drop_heads(top, heads);
}

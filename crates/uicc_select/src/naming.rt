ghost use Rattle.std.specs.Prelude.{◌≡◌, ◌+◌, ◌*◌, ◌%◌, ◌≤◌, ◌==◌, length};
ghost use Rattle.uicc_select.specs.Target.{id_in, ids_in, is_selection_method, name_in, path_in};
ghost use Rattle.uicc_select.specs.Target.{target_of};

use file_rows::{Name, Path};

/// What a SELECT names (ETSI TS 102 221, "Selection methods").
#[derive(Debug, Drop)]
pub enum Target {
    /// A file by its identifier, near the current directory.
    Id(u16),
    /// A directory in the current one, by its identifier.
    Directory(u16),
    /// The directory in which the current one stands.
    Parent,
    /// An application by the first bytes of its name.
    Named(Name),
    /// A file by its path from the MF.
    FromMaster(Path),
    /// A file by its path from the current directory.
    FromCurrent(Path),
}

// Whether this P1 is one of the selection methods.
pub(crate) fn is_selection_method(p1: u8) -> bool
    ensures { result ≡ is_selection_method p1 }
{
    matches!(p1, 0x00 | 0x01 | 0x03 | 0x04 | 0x08 | 0x09)
}

fn id_in(body: &[u8]) -> Option<u16>
    ensures { result ≡ id_in body.now }
{
    match body {
        [high, low] => Some(u16::from_be_bytes([*high, *low])),
        _ => None,
    }
}

fn name_in(body: &[u8]) -> Option<Name>
    ensures { result ≡ name_in body.now }
{
    if body.len() < 5 || body.len() > 16 {
        return None;
    }
    Some(Name::from_slice(body))
}

fn ids_in(body: &[u8]) -> Path
    requires { length body.now ≤ 8 }
    ensures { result ≡ ids_in body.now }
{
    let mut path = Path::new();
    let mut rest = body;
    while let [high, low, more @ ..] = rest {
        path.push(u16::from_be_bytes([*high, *low]));
        rest = more;
    }
    path
}

fn path_in(body: &[u8]) -> Option<Path>
    ensures { result ≡ path_in body.now }
{
    if body.len() % 2 != 0 || body.len() < 2 || body.len() > 8 {
        return None;
    }
    Some(ids_in(body))
}

// What the body names under this P1, where its length goes with it.
pub(crate) fn target_of(p1: u8, body: &[u8]) -> Option<Target>
    ensures { result ≡ target_of p1 body.now }
{
    match p1 {
        0x00 => Some(Target::Id(id_in(body)?)),
        0x01 => Some(Target::Directory(id_in(body)?)),
        0x03 if body.is_empty() => Some(Target::Parent),
        0x04 => Some(Target::Named(name_in(body)?)),
        0x08 => Some(Target::FromMaster(path_in(body)?)),
        0x09 => Some(Target::FromCurrent(path_in(body)?)),
        _ => None,
    }
}

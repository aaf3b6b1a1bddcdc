// Whether PINs are those of a card with these files.
ghost use Rattle.std.specs.Prelude.{◌≡◌, ◌≢◌, ◌⊎◌, ◌↔◌, IsTrue, IfSome};
ghost use Rattle.std.specs.List.{AllByRecursion};
ghost use Rattle.plain_lists.specs.EachTwo.{EachTwo};
ghost use Rattle.file_rows.specs.Apart.{ArePinsApart};
ghost use Rattle.file_rows.specs.Content.{ArePins, IsAtHome, heads_of};
ghost use Rattle.file_rows.specs.FileHead.{holds_files};
ghost use Rattle.file_rows.specs.Path.{master};
ghost use Rattle.file_rows.specs.PinRow.{AreTries, IsGlobalKey, IsLocalKey, IsPin, ShareKey};

use crate::{FileHead, FileRow, Path, PinRow, Puk};

fn is_global_key(key: u8) -> bool
    ensures { IsTrue result ↔ IsGlobalKey key }
{
    matches!(key, 1..=8 | 10..=14 | 17)
}

fn is_local_key(key: u8) -> bool
    ensures { IsTrue result ↔ IsLocalKey key }
{
    matches!(key, 129..=136)
}

// Whether the key reference is one of the PIN's home.
fn is_key_at_home(pin: &PinRow) -> bool
    ensures { IsTrue result ↔ ((IsGlobalKey pin.now.key × (pin.now.home ≡ master))
        ⊎ (IsLocalKey pin.now.key × (pin.now.home ≢ master))) }
{
    if pin.home.is_empty() {
        is_global_key(pin.key)
    } else {
        is_local_key(pin.key)
    }
}

fn are_tries(max: u8, left: u8) -> bool
    ensures { IsTrue result ↔ AreTries max left }
{
    matches!(max, 1..=15) && left <= max
}

fn are_puk_tries(puk: &Option<Puk>) -> bool
    ensures { IsTrue result ↔ IfSome puk.now (λ puk. AreTries puk.max puk.left) }
{
    match puk {
        Some(puk) => are_tries(puk.max, puk.left),
        None => true,
    }
}

impl PinRow {
    /// Whether a content may have this PIN: its number is 1 to 32, its key is global in the MF and
    /// local elsewhere, and its tries, and those of its PUK, are 1 to 15 with no more left.
    pub fn is_pin(&self) -> bool
        ensures { IsTrue result ↔ IsPin self.now }
    {
        matches!(self.number, 1..=32)
            && is_key_at_home(self)
            && are_tries(self.max, self.left)
            && are_puk_tries(&self.puk)
    }
}

fn is_home(head: &FileHead, home: &Path) -> bool
    ensures { IsTrue result ↔ (IsTrue (holds_files head.now.kind) × (head.now.path ≡ home.now)) }
{
    head.kind.holds_files() && head.path == *home
}

// Whether the PIN's home is a directory of the card.
fn is_at_home(pin: &PinRow, rows: &[FileRow]) -> bool
    ensures { IsTrue result ↔ IsAtHome (heads_of rows.now) pin.now }
{
    for row in rows {
        if is_home(&row.head, &pin.home) {
            return true;
        }
    }
    false
}

// Whether the PIN has the form of one, and its home on the card.
fn is_formed(pin: &PinRow, rows: &[FileRow]) -> bool
    ensures { IsTrue result ↔ (IsPin pin.now × IsAtHome (heads_of rows.now) pin.now) }
{
    pin.is_pin() && is_at_home(pin, rows)
}

fn are_formed(pins: &[PinRow], rows: &[FileRow]) -> bool
    ensures { IsTrue result
        ↔ AllByRecursion (λ pin. IsPin pin × IsAtHome (heads_of rows.now) pin) pins.now }
{
    for pin in pins {
        if !is_formed(pin, rows) {
            return false;
        }
    }
    true
}

fn share_key(one: &PinRow, other: &PinRow) -> bool
    ensures { IsTrue result ↔ ShareKey one.now other.now }
{
    one.key == other.key && one.home == other.home
}

fn is_apart(one: &PinRow, other: &PinRow) -> bool
    ensures { IsTrue result ↔ ArePinsApart one.now other.now }
{
    one.number != other.number && !share_key(one, other)
}

fn is_apart_from(pin: &PinRow, later: &[PinRow]) -> bool
    ensures { IsTrue result ↔ AllByRecursion (ArePinsApart pin.now) later.now }
{
    for other in later {
        if !is_apart(pin, other) {
            return false;
        }
    }
    true
}

fn are_apart(pins: &[PinRow]) -> bool
    ensures { IsTrue result ↔ EachTwo ArePinsApart pins.now }
{
    for (index, pin) in pins.iter().enumerate() {
        if !is_apart_from(pin, &pins[index + 1..]) {
            return false;
        }
    }
    true
}

pub fn are_pins(pins: &[PinRow], rows: &[FileRow]) -> bool
    ensures { IsTrue result ↔ ArePins (heads_of rows.now) pins.now }
{
    are_formed(pins, rows) && are_apart(pins)
}

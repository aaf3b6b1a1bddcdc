// What the access rules of a card allow (ETSI TS 102 221, access rules referenced in EF ARR). A
// question goes to the directories from the file's own upwards, and reads one record once. It
// takes no memory.
ghost use Rattle.std.specs.Prelude.{◌≡◌, ◌≤◌, [], length, map, option_copied};
ghost use Rattle.file_rows.specs.Content.{AreFiles};
ghost use Rattle.plain_lists.specs.FirstOf.{first_of};
ghost use Rattle.access_rules.specs.May.{arr_of, enclosing, linear_in, record_at, record_named};
ghost use Rattle.access_rules.specs.May.{rule_directory};
ghost use Rattle.access_rules.specs.Met.{allowed, key_directory};
ghost use Rattle.file_rows.specs.PinRow.{is_verified};
ghost use Rattle.uicc_tree.specs.Files.{Gives, IsLive, file_of, path_of, rows_of};

use access_rules::{Mode, met_keys, record_allows};
use file_rows::{FileHead, Kind, PinRow, Rule};
use plain_lists::ShortList;
use uicc_tree::Tree;

// The linear file with that identifier in a directory.
fn find_linear(tree: &Tree, directory: &[u16], id: u16) -> Option<u32>
    requires { length directory.now ≤ 4 }
    ensures { Gives tree.now result (linear_in (rows_of tree.now) id directory.now) }
{
    let mut path: ShortList<u16, 5> = ShortList::from_slice(directory);
    path.push(id);
    let node = tree.find(path.as_slice())?;
    if tree.head(node).kind != Kind::Linear {
        return None;
    }
    Some(node)
}

// The linear file with that identifier in the nearest directory that has one, from this one
// upwards.
fn find_nearest(tree: &Tree, directory: &[u16], id: u16) -> Option<u32>
    requires { length directory.now ≤ 4 }
    ensures { Gives tree.now result
        (first_of (map (linear_in (rows_of tree.now) id) (enclosing directory.now))) }
{
    if let Some(node) = find_linear(tree, directory, id) {
        return Some(node);
    }
    let (_, above) = directory.split_last()?;
    find_nearest(tree, above, id)
}

// The directory that holds the file at a path; for the MF the MF.
fn rule_directory(path: &[u16]) -> &[u16]
    ensures { result.now ≡ rule_directory path.now }
{
    match path.split_last() {
        Some((_, above)) => above,
        None => path,
    }
}

// The directory from which the keys of a file's rule are looked for.
fn key_directory(head: &FileHead) -> &[u16]
    ensures { result.now ≡ key_directory (record { head = head.now; body = [] }) }
{
    if head.kind.holds_files() {
        head.path.as_slice()
    } else {
        rule_directory(head.path.as_slice())
    }
}

// The bytes of a record by its number, counted from 1.
fn record_at(tree: &Tree, node: u32, number: u8) -> Option<&[u8]>
    requires { IsLive tree.now node }
    ensures { option_copied result ≡ record_at (file_of tree.now node) number }
{
    let size = usize::from(tree.head(node).record_len);
    let start = usize::from(number.checked_sub(1)?) * size;
    tree.bytes(node).get(start..start + size)
}

// The record that a rule of the file at a path names.
fn record_named<'a>(tree: &'a Tree, path: &[u16], rule: Rule) -> Option<&'a [u8]>
    requires { length path.now ≤ 4 }
    ensures { option_copied result ≡ record_named (rows_of tree.now) path.now rule }
{
    let node = find_nearest(tree, rule_directory(path), rule.file)?;
    record_at(tree, node, rule.row)
}

// Whether the file of a node may be used in a mode where these PINs are verified.
pub(crate) fn allows(tree: &Tree, pins: &[PinRow], node: u32, mode: Mode, verified: u32) -> bool
    requires live { IsLive tree.now node }
    requires files { AreFiles (rows_of tree.now) }
    ensures { result
        ≡ allowed (record { rows = rows_of tree.now; pins = pins.now }) (is_verified verified)
        (path_of tree.now node) mode }
{
    let head = tree.head(node);
    let Some(rule) = head.rule else {
        return false;
    };
    let Some(bytes) = record_named(tree, head.path.as_slice(), rule) else {
        return false;
    };
    record_allows(bytes, mode, &met_keys(pins, key_directory(head), verified))
}

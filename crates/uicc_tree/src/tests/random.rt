//! A thousand random changes, made to a tree and to a plain content side by side.
ghost use Rattle.std.specs.Prelude.{◌<◌};

use super::entry::{Entry, path};
use super::sides::{is_found, made, step};
use crate::Tree;
use file_rows::{Change, Content, Kind, Life, Piece};
use std::process::Abort;
use std::test::Fail;

// Numbers that look random, the same in each run.
#[derive(Drop)]
struct Random(u64);

impl Random {
    // A number below the limit.
    fn below(&mut self, limit: u8) -> u8
        requires { 0 < limit }
        ensures { result < limit }
    {
        self.0 = self
            .0
            .wrapping_mul(6_364_136_223_846_793_005)
            .wrapping_add(1_442_695_040_888_963_407);
        let high = (self.0 >> 56) as u8;
        high % limit
    }

    fn bytes(&mut self, rt: &impl Abort, count: u8) -> Piece {
        let mut bytes = Piece::new();
        for _ in 0..count {
            assert!(rt; bytes.len() < 255);
            bytes.push(self.below(255));
        }
        bytes
    }
}

const NAME_PREFIX: &[u8] = b"\xA0\x00\x00\x00\x87";

const ONE_NAME: &[u8] = b"\xA0\x00\x00\x00\x87\x10\x02";

const OTHER_NAME: &[u8] = b"\xA0\x00\x00\x00\x87\x10\x04";

// The files that are added and go, and come back.
const FILES: [Entry; 12] = [
    Entry(&[], Kind::Master, 0, 0, 0, 1, &[]),
    Entry(&[0x2F05], Kind::Transparent, 0, 9, 0x05, 2, &[]),
    Entry(&[0x2F06], Kind::Linear, 3, 9, 0x06, 1, &[]),
    Entry(&[0x7F10], Kind::Directory, 0, 0, 0, 1, &[]),
    Entry(&[0x7F10, 0x6F3A], Kind::Linear, 2, 8, 0x05, 3, &[]),
    Entry(&[0x7F10, 0x6F3C], Kind::Cyclic, 3, 9, 0, 3, &[]),
    Entry(&[0x7F10, 0x5F50], Kind::Directory, 0, 0, 0, 1, &[]),
    Entry(
        &[0x7F10, 0x5F50, 0x4F20],
        Kind::Transparent,
        0,
        5,
        0x01,
        3,
        &[],
    ),
    Entry(&[0x7FD0], Kind::Application, 0, 0, 0, 1, ONE_NAME),
    Entry(&[0x7FD0, 0x6F07], Kind::Transparent, 0, 9, 0x07, 3, &[]),
    Entry(&[0x7FD0, 0x6F39], Kind::Cyclic, 2, 6, 0, 3, &[]),
    Entry(&[0x7FD1], Kind::Application, 0, 0, 0, 1, OTHER_NAME),
];

// The kinds of changes, and how often of sixteen times each is drawn.
const KINDS: [(&str, u8); 6] = [
    ("WriteRange", 4),
    ("WriteRecord", 4),
    ("FileAdd", 3),
    ("FileGone", 1),
    ("FileState", 1),
    ("FileSize", 3),
];

fn random_kind(random: &mut Random) -> usize
    ensures { result < 6 }
{
    let mut drawn = random.below(16);
    for (kind, (_, share)) in KINDS.iter().enumerate() {
        if drawn < *share {
            return kind;
        }
        drawn -= *share;
    }
    0
}

// A change of the kind with this number. The MF doesn't go.
fn random_change(rt: &impl Abort, random: &mut Random, kind: usize) -> Change {
    let place = usize::from(random.below(12));
    let entry = FILES[place];
    let path = path(rt, entry.0);
    match kind {
        0 => {
            let count = random.below(6);
            Change::WriteRange {
                path,
                offset: u16::from(random.below(8)),
                bytes: random.bytes(rt, count),
            }
        }
        1 => Change::WriteRecord {
            path,
            number: random.below(4),
            bytes: random.bytes(rt, entry.2),
        },
        2 => Change::FileAdd {
            head: entry.head(rt),
        },
        3 if place > 0 => Change::FileGone { path },
        4 => Change::FileState {
            path,
            life: if random.below(2) == 0 {
                Life::Active
            } else {
                Life::Deactivated
            },
        },
        _ => Change::FileSize {
            path,
            size: u16::from(random.below(20)),
        },
    }
}

// The tree has the files of the content, and none of the others. All names begin alike.
fn are_alike(rt: &impl Abort, content: &Content, tree: &Tree) {
    let rows = content.rows.as_slice();
    for row in rows {
        is_found(rt, tree, row);
    }
    for entry in &FILES {
        let there = rows.iter().any(|row| row.head.path.as_slice() == entry.0);
        assert_eq!(rt; tree.find(entry.0).is_some(), there);
    }
    let first = rows.iter().find(|row| row.head.kind == Kind::Application);
    let named = tree.by_name(NAME_PREFIX);
    match first {
        Some(row) => assert_eq!(rt; named, tree.find(row.head.path.as_slice())),
        None => assert_eq!(rt; named, None),
    }
}

#[test]
fn a_tree_and_a_plain_content_change_alike(rt: HostRuntime) -> Result<(), Fail> {
    let (mut content, mut tree) = made(&rt, rt.alloc(), &FILES)?;
    let mut random = Random(1);
    let mut made = [0u32; 6];
    'changes: for _ in 0..5000 {
        let kind = random_kind(&mut random);
        let change = random_change(&rt, &mut random, kind);
        if step(&mut content, &mut tree, &change)? {
            made[kind] = made[kind].saturating_add(1);
            are_alike(&rt, &content, &tree);
        }
    }
    let mut all = 0u32;
    for ((kind, _), count) in KINDS.iter().zip(&made) {
        assert!(rt; *count >= 100, "{kind}: {count}");
        all = all.saturating_add(*count);
    }
    assert!(rt; all >= 1000);
    Ok(())
}

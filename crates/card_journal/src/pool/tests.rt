//! A pooled content is changed as a plain one is.
use crate::PooledContent;
use crate::tests::cards::{head, pin, row, same_content};
use file_rows::{Change, Content, Kind, Life, Path, Piece};
use plain_lists::LongList;
use std::alloc::{AllocError, Global};
use std::test::*;

// The MF, four bytes, a directory with a cyclic file of two records, five bytes, and two PINs.
fn content(alloc: Global) -> Result<Content, AllocError> {
    let directory = Path::from_slice(&[0x7F10]);
    let cyclic = head(&Path::from_slice(&[0x7F10, 0x6F44]), Kind::Cyclic, 2, 4);
    let first = head(&Path::from_slice(&[0x2F05]), Kind::Transparent, 0, 4);
    let last = head(&Path::from_slice(&[0x2F08]), Kind::Transparent, 0, 5);
    let mut rows = LongList::new(alloc);
    rows.push(row(alloc, head(&Path::new(), Kind::Master, 0, 0), &[])?)?;
    rows.push(row(alloc, first, &[1, 2, 3, 4])?)?;
    rows.push(row(alloc, head(&directory, Kind::Directory, 0, 0), &[])?)?;
    rows.push(row(alloc, cyclic, &[5, 6, 7, 8])?)?;
    rows.push(row(alloc, last, &[9, 10, 11, 12, 13])?)?;
    let mut pins = LongList::new(alloc);
    pins.push(pin(1, Path::new(), 0x01, 3))?;
    pins.push(pin(2, directory, 0x81, 3))?;
    Ok(Content { rows, pins })
}

// Makes the change in the pool, and says whether it fits and the content is then the plain one
// after it.
fn changes_alike(pooled: &mut PooledContent, change: &Change) -> Result<bool, AllocError> {
    let before = pooled.to_content()?;
    if !before.is_valid() || !before.fits(change) {
        return Ok(false);
    }
    let wanted = before.changed(change)?;
    pooled.apply(change);
    Ok(same_content(&pooled.to_content()?, &wanted))
}

#[test]
fn each_change_is_made_as_in_a_plain_content(rt: HostRuntime) -> Result<(), Fail> {
    let content = content(rt.alloc())?;
    assert!(rt; content.is_valid());
    let mut pooled = PooledContent::from_content(rt.alloc(), &content)?;
    assert!(rt; same_content(&pooled.to_content()?, &content));
    let first = Path::from_slice(&[0x2F05]);
    let cyclic = Path::from_slice(&[0x7F10, 0x6F44]);
    let new = Path::from_slice(&[0x7F10, 0x6F3A]);
    let changes = [
        Change::WriteRange {
            path: first.copy(),
            offset: 1,
            bytes: Piece::from_slice(&[0xAA, 0xBB]),
        },
        Change::WriteRecord {
            path: cyclic.copy(),
            number: 2,
            bytes: Piece::from_slice(&[0xCC, 0xDD]),
        },
        Change::WriteRecord {
            path: cyclic.copy(),
            number: 0,
            bytes: Piece::from_slice(&[0xEE, 0xFF]),
        },
        Change::FileSize {
            path: first.copy(),
            size: 9,
        },
        Change::FileAdd {
            head: head(&new, Kind::Linear, 3, 6),
        },
        Change::FileSize {
            path: first.copy(),
            size: 2,
        },
        Change::FileState {
            path: cyclic.copy(),
            life: Life::Terminated,
        },
        Change::PinSet {
            row: pin(2, Path::from_slice(&[0x7F10]), 0x81, 1),
        },
        Change::FileGone {
            path: Path::from_slice(&[0x7F10]),
        },
    ];
    for change in &changes {
        assert!(rt; changes_alike(&mut pooled, change)?, "{change:?}");
    }
    assert_eq!(rt; pooled.heads().len(), 3);
    assert_eq!(rt; pooled.bodies(), [1, 0xAA, 9, 10, 11, 12, 13].as_slice());
    assert_eq!(rt; pooled.pins().len(), 1);
    Ok(())
}

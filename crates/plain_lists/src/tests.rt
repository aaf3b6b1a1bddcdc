//! Each call once, at types that the crates above use.
use super::*;
use arrayvec::ArrayVec;
use std::test::Fail;

#[test]
fn a_short_list_holds_what_it_is_given(rt: HostRuntime) -> Result<(), Fail> {
    let mut path = ShortList::<u16, 4>::new();
    assert!(rt; path.is_empty());
    path.push(0x7F10);
    path.push(0x6F3A);
    assert_eq!(rt; path.as_slice(), [0x7F10, 0x6F3A].as_slice());
    assert_eq!(rt; path.len(), 2);
    assert_eq!(rt; path, ShortList::from_slice(&[0x7F10, 0x6F3A]));
    assert_ne!(rt; path.copy(), ShortList::from_slice(&[0x7F10]));
    assert_eq!(rt; path.replace(1, 0x6F3C), 0x6F3A);
    path.set(1, 0x6F3B);
    path.extend_from_slice(&[0x0001]);
    assert_eq!(rt; path.as_slice(), [0x7F10, 0x6F3B, 0x0001].as_slice());
    let elements: ArrayVec<u16, 4> = path.into();
    let mut none = ShortList::<u16, 4>::from_slice(&[1, 2]);
    none.clear();
    assert!(rt; none.is_empty());
    let again = ShortList::from(elements);
    assert_eq!(rt; again.len(), 3);
    Ok(())
}

#[test]
fn a_long_list_grows(rt: HostRuntime) -> Result<(), Fail> {
    let mut body = LongList::<u8>::new(rt.alloc());
    for byte in 0..100 {
        body.push(byte)?;
    }
    assert_eq!(rt; body.len(), 100);
    let other = LongList::<u8>::new(body.allocator());
    assert_eq!(rt; other.len(), 0);
    let elements: Vec<u8> = body.into();
    let again = LongList::from(elements);
    assert_eq!(rt; again.as_slice().last().copied(), Some(99));
    Ok(())
}

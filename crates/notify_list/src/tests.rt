//! Each call once.
use super::*;
use std::test::*;

const ICCID: Iccid = [0x98, 0x10, 0, 0, 0, 0, 0, 0, 0, 0xF1];

#[test]
fn notifications_are_numbered_added_and_taken_away(rt: HostRuntime) -> Result<(), Fail> {
    let mut notes = Notes::new(rt.alloc(), 7)?;
    assert!(rt; notes.room(256));
    assert!(rt; !notes.room(257));
    notes.add(Operation::Enable, ICCID, b"a.example");
    notes.add(Operation::Disable, ICCID, b"b.example");
    assert_eq!(rt; notes.next(), 9);
    assert!(rt; notes.remove(7));
    assert!(rt; !notes.remove(7));
    let copy = notes.copy()?;
    assert_eq!(rt; copy.list().len(), 1);
    for note in copy.list() {
        assert_eq!(rt; note.number, 8);
        assert_eq!(rt; note.operation, Operation::Disable);
        assert_eq!(rt; note.iccid, ICCID);
        assert_eq!(rt; note.address.as_slice(), b"b.example".as_slice());
    }
    notes.replace(&[], 20);
    assert!(rt; notes.list().is_empty());
    assert_eq!(rt; notes.next(), 20);
    let full = Notes::new(rt.alloc(), 4_294_967_295)?;
    assert!(rt; full.room(1));
    assert!(rt; !full.room(2));
    Ok(())
}

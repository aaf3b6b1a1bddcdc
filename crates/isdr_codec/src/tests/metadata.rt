//! Metadata: what is taken, field by field, and what is refused.
use crate::{MetaFault, read_metadata};
use notify_list::Address;
use record_codec::{Label, NoteTarget, ProfileHead, Provider, Targets};
use std::alloc::{AllocError, Global};
use std::test::Fail;

const ICCID: &[u8] = b"\x5A\x0A\x98\x94\0\0\0\0\0\0\0\xF1";

const PROVIDER: &[u8] = b"\x91\x02Op";

const NAME: &[u8] = b"\x92\x02P1";

// All operations.
const OPERATIONS: &[u8] = b"\x80\x02\x04\xF0";

// An entry of B6, with all operations.
const ENTRY: &[u8] = b"\x30\x0F\x80\x02\x04\xF0\x81\x09smdp.test";

// BF25 with these fields.
fn metadata(alloc: Global, fields: &[&[u8]]) -> Result<Vec<u8>, AllocError> {
    object(alloc, &[0xBF, 0x25], fields)
}

fn object(alloc: Global, tag: &[u8], fields: &[&[u8]]) -> Result<Vec<u8>, AllocError> {
    let mut value = Vec::new(alloc);
    for field in fields {
        value.extend_from_slice(field)?;
    }
    let [high, low] = u16::try_from(value.len()).unwrap_or(0).to_be_bytes();
    let mut bytes = tag.to_vec(alloc)?;
    bytes.extend_from_slice(&[0x82, high, low])?;
    bytes.extend_from_slice(&value)?;
    Ok(bytes)
}

// What the ICCID, the provider and the name alone come to.
fn head() -> ProfileHead {
    ProfileHead {
        number: 0,
        iccid: [0x98, 0x94, 0, 0, 0, 0, 0, 0, 0, 0xF1],
        provider: Provider::from_slice(b"Op"),
        name: Label::from_slice(b"P1"),
        nickname: Label::new(),
        class: 2,
        policy: 0,
        targets: Targets::new(),
    }
}

fn target(operations: u8, address: &str) -> NoteTarget {
    let mut target = NoteTarget {
        operations,
        address: Address::new(),
    };
    if address.len() <= 64 {
        target.address.extend_from_slice(address.as_bytes());
    }
    target
}

#[test]
fn metadata_of_the_first_sample_profile_is_read(rt: HostRuntime) {
    let bytes = b"\xBF\x25\x2A\x5A\x0A\x98\x94\0\0\0\0\0\0\0\xF1\x91\x02\x4F\x70\x92\x02\x50\x31\
        \x95\x01\x02\xB6\x11\x30\x0F\x80\x02\x04\xF0\x81\x09\x73\x6D\x64\x70\x2E\x74\x65\x73\x74";
    let mut targets = Targets::new();
    targets.push(target(0x0F, "smdp.test"));
    let mut expected = head();
    expected.targets = targets;
    assert!(rt; read_metadata(bytes) == Ok(expected));
}

#[test]
fn fields_that_may_be_missing_are_read(rt: HostRuntime) -> Result<(), Fail> {
    let rows: [(&[u8], u8, u8); 12] = [
        (b"", 2, 0),
        (b"\x95\x01\x00", 0, 0),
        (b"\x95\x01\x01", 1, 0),
        (b"\x95\x01\x02", 2, 0),
        (b"\x99\x01\x00", 2, 0),
        (b"\x99\x02\x05\x40", 2, 1),
        (b"\x99\x02\x05\x20", 2, 2),
        (b"\x99\x02\x05\x60", 2, 3),
        (b"\x99\x02\x06\x60", 2, 1),
        (b"\x99\x02\x04\x9F", 2, 0),
        (b"\xB6\x00", 2, 0),
        (b"\x80\x01\x07\xBF\x70\x00", 2, 0),
    ];
    for (field, class, policy) in &rows {
        let mut expected = head();
        expected.class = *class;
        expected.policy = *policy;
        let bytes = metadata(rt.alloc(), &[ICCID, PROVIDER, NAME, field])?;
        assert!(rt; read_metadata(&bytes) == Ok(expected), "{field:?}");
    }
    Ok(())
}

#[test]
fn entries_are_read_in_their_order(rt: HostRuntime) -> Result<(), Fail> {
    let entries: &[u8] = b"\xB6\x1C\x30\x0A\x81\x04!a~b\x80\x02\x04\x40\x30\x0E\x80\x01\x00\
        \x90\x01\x07\x81\x06\x6E\x6F\x74\x68\x65\x72";
    let mut targets = Targets::new();
    targets.push(target(0x02, "!a~b"));
    targets.push(target(0x00, "nother"));
    let mut expected = head();
    expected.targets = targets;
    let bytes = metadata(rt.alloc(), &[entries, NAME, ICCID, PROVIDER])?;
    assert!(rt; read_metadata(&bytes) == Ok(expected));
    Ok(())
}

#[test]
fn names_may_be_empty(rt: HostRuntime) -> Result<(), Fail> {
    let mut expected = head();
    expected.provider = Provider::new();
    expected.name = Label::new();
    let bytes = metadata(rt.alloc(), &[b"\x92\x00", ICCID, b"\x91\x00"])?;
    assert!(rt; read_metadata(&bytes) == Ok(expected));
    Ok(())
}

#[test]
fn eight_entries_are_taken_and_nine_are_not(rt: HostRuntime) -> Result<(), Fail> {
    let mut expected = head();
    for _ in 0..8 {
        if expected.targets.len() < 8 {
            expected.targets.push(target(0x0F, "smdp.test"));
        }
    }
    let eight = object(rt.alloc(), &[0xB6], &[ENTRY; 8])?;
    let bytes = metadata(rt.alloc(), &[ICCID, PROVIDER, NAME, &eight])?;
    assert!(rt; read_metadata(&bytes) == Ok(expected));
    let nine = object(rt.alloc(), &[0xB6], &[ENTRY; 9])?;
    let bytes = metadata(rt.alloc(), &[ICCID, PROVIDER, NAME, &nine])?;
    assert!(rt; read_metadata(&bytes) == Err(MetaFault::BadMetadata));
    Ok(())
}

// Whether an address of so many letters is taken.
fn takes_address(alloc: Global, count: usize) -> Result<bool, AllocError> {
    let letters = vec![in alloc; b'a'; count]?;
    let address = object(alloc, &[0x81], &[&letters])?;
    let entry = object(alloc, &[0x30], &[OPERATIONS, &address])?;
    let entries = object(alloc, &[0xB6], &[&entry])?;
    let bytes = metadata(alloc, &[ICCID, PROVIDER, NAME, &entries])?;
    Ok(read_metadata(&bytes).is_ok())
}

#[test]
fn addresses_have_one_to_64_bytes(rt: HostRuntime) -> Result<(), Fail> {
    assert!(rt; !takes_address(rt.alloc(), 0)?);
    assert!(rt; takes_address(rt.alloc(), 1)?);
    assert!(rt; takes_address(rt.alloc(), 64)?);
    assert!(rt; !takes_address(rt.alloc(), 65)?);
    Ok(())
}

// Whether names of so many letters are taken, the provider's and the profile's.
fn takes_names(alloc: Global, provider: usize, name: usize) -> Result<bool, AllocError> {
    let provider = vec![in alloc; b'a'; provider]?;
    let provider = object(alloc, &[0x91], &[&provider])?;
    let name = vec![in alloc; b'a'; name]?;
    let name = object(alloc, &[0x92], &[&name])?;
    let bytes = metadata(alloc, &[ICCID, &provider, &name])?;
    Ok(read_metadata(&bytes).is_ok())
}

#[test]
fn names_have_at_most_32_and_64_bytes(rt: HostRuntime) -> Result<(), Fail> {
    assert!(rt; takes_names(rt.alloc(), 32, 64)?);
    assert!(rt; !takes_names(rt.alloc(), 33, 64)?);
    assert!(rt; !takes_names(rt.alloc(), 32, 65)?);
    Ok(())
}

#[test]
fn what_is_no_metadata_is_refused(rt: HostRuntime) -> Result<(), Fail> {
    let rows: [&[&[u8]]; 26] = [
        &[],
        &[PROVIDER, NAME],
        &[ICCID, NAME],
        &[ICCID, PROVIDER],
        &[ICCID, ICCID, PROVIDER, NAME],
        &[ICCID, PROVIDER, PROVIDER, NAME],
        &[ICCID, PROVIDER, NAME, NAME],
        &[b"\x5A\x09\x98\x94\0\0\0\0\0\0\0", PROVIDER, NAME],
        &[ICCID, b"\x91\x02\xC3\x28", NAME],
        &[ICCID, PROVIDER, b"\x92\x01\x80"],
        &[ICCID, PROVIDER, NAME, b"\x95\x01\x03"],
        &[ICCID, PROVIDER, NAME, b"\x95\x00"],
        &[ICCID, PROVIDER, NAME, b"\x95\x02\x00\x02"],
        &[ICCID, PROVIDER, NAME, b"\x95\x01\x02\x95\x01\x02"],
        &[ICCID, PROVIDER, NAME, b"\x99\x00"],
        &[ICCID, PROVIDER, NAME, b"\x99\x01\x05"],
        &[ICCID, PROVIDER, NAME, b"\x99\x02\x08\x40"],
        &[ICCID, PROVIDER, NAME, b"\xB6\x02\x31\x00"],
        &[ICCID, PROVIDER, NAME, b"\xB6\x02\x30\x00"],
        &[ICCID, PROVIDER, NAME, b"\xB6\x05\x30\x03\x81\x01a"],
        &[ICCID, PROVIDER, NAME, b"\xB6\x06\x30\x04\x80\x02\x04\xF0"],
        &[
            ICCID,
            PROVIDER,
            NAME,
            b"\xB6\x09\x30\x07\x80\x02\x08\xF0\x81\x01a",
        ],
        &[
            ICCID,
            PROVIDER,
            NAME,
            b"\xB6\x09\x30\x07\x80\x02\x04\xF0\x81\x01 ",
        ],
        &[
            ICCID,
            PROVIDER,
            NAME,
            b"\xB6\x09\x30\x07\x80\x02\x04\xF0\x81\x01\x7F",
        ],
        &[ICCID, PROVIDER, NAME, b"\xB6\x01\x30"],
        &[ICCID, PROVIDER, NAME, b"\x80"],
    ];
    for fields in &rows {
        let bytes = metadata(rt.alloc(), fields)?;
        assert!(rt;
            read_metadata(&bytes) == Err(MetaFault::BadMetadata),
            "{fields:?}"
        );
    }
    Ok(())
}

#[test]
fn metadata_is_one_whole_object_with_its_tag(rt: HostRuntime) -> Result<(), Fail> {
    let other = object(rt.alloc(), &[0xBF, 0x2D], &[ICCID, PROVIDER, NAME])?;
    assert!(rt; read_metadata(&other) == Err(MetaFault::BadMetadata));
    let mut bytes = metadata(rt.alloc(), &[ICCID, PROVIDER, NAME])?;
    for count in 0..bytes.len() {
        assert!(rt;
            read_metadata(&bytes[..count]) == Err(MetaFault::BadMetadata),
            "{count}"
        );
    }
    bytes.push(0x00)?;
    assert!(rt; read_metadata(&bytes) == Err(MetaFault::BadMetadata));
    Ok(())
}

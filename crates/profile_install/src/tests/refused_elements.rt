//! Elements that are refused by what they are, and where they stand.

use super::packages::*;
use super::*;
use std::test::Fail;

#[test]
fn packages_begin_with_a_header(rt: HostRuntime) -> Result<(), Fail> {
    let cases: [Refused; 11] = [
        ("an empty package", b"", 1, 5),
        ("an element that isn't the header first", b"\xAA\x00", 1, 5),
        (
            "a cut header",
            b"\xA0\x12\x80\x01\x03\x81\x01\x03\x83\x0A\x98\x94\x00\x00\x00\x00\x00\x00\x00",
            1,
            5,
        ),
        (
            "another major version",
            b"\xA0\x12\x80\x01\x04\x81\x01\x03\x83\x0A\x98\x94\x00\x00\x00\x00\x00\x00\x00\
                \xF1",
            1,
            31,
        ),
        (
            "another ICCID",
            b"\xA0\x12\x80\x01\x03\x81\x01\x03\x83\x0A\x98\x94\x00\x00\x00\x00\x00\x00\x00\
                \xF2",
            1,
            6,
        ),
        (
            "an ICCID of 9 bytes",
            b"\xA0\x11\x80\x01\x03\x81\x01\x03\x83\x09\x98\x94\x00\x00\x00\x00\x00\x00\x00",
            1,
            5,
        ),
        (
            "no minor version",
            b"\xA0\x0F\x80\x01\x03\x83\x0A\x98\x94\x00\x00\x00\x00\x00\x00\x00\xF1",
            1,
            5,
        ),
        (
            "a major version twice",
            b"\xA0\x15\x80\x01\x03\x80\x01\x03\x81\x01\x03\x83\x0A\x98\x94\x00\x00\x00\x00\
                \x00\x00\x00\xF1",
            1,
            5,
        ),
        (
            "a minor version of two bytes",
            b"\xA0\x13\x80\x01\x03\x81\x02\x03\x00\x83\x0A\x98\x94\x00\x00\x00\x00\x00\x00\x00\
                \xF1\xAA\x00",
            1,
            5,
        ),
        (
            "an ICCID twice",
            b"\xA0\x1E\x80\x01\x03\x81\x01\x03\x83\x0A\x98\x94\x00\x00\x00\x00\x00\x00\x00\xF1\
                \x83\x0A\x98\x94\x00\x00\x00\x00\x00\x00\x00\xF1\xAA\x00",
            1,
            5,
        ),
        (
            "of two faults of the header the first",
            b"\xA0\x0F\x80\x01\x04\x83\x0A\x98\x94\x00\x00\x00\x00\x00\x00\x00\xF2\xAA\x00",
            1,
            31,
        ),
    ];
    for case in cases {
        let answer = built_behind(rt.alloc(), &[], case.1)?;
        assert!(rt; is_refused(&answer, case.2, case.3), "{}", case.0);
    }
    Ok(())
}

#[test]
fn elements_are_refused_by_tag_and_place(rt: HostRuntime) -> Result<(), Fail> {
    let cases: [Refused; 14] = [
        ("no end", b"", 2, 5),
        (
            "a second header",
            b"\xA0\x12\x80\x01\x03\x81\x01\x03\x83\x0A\x98\x94\x00\x00\x00\x00\x00\x00\x00\
                \xF1\xAA\x00",
            2,
            5,
        ),
        ("no tag of an element", b"\x80\x00\xAA\x00", 2, 5),
        ("a byte behind the end", b"\xAA\x00\xAA", 3, 5),
        ("an element behind the end", b"\xAA\x00\xA4\x00", 3, 5),
        (
            "an element of no effect that is broken",
            b"\xA4\x03\x5F\x80\x80\xAA\x00",
            2,
            5,
        ),
        (
            "PINs without an MF",
            b"\xA2\x11\xA1\x0F\x30\x0D\x80\x01\x01\x81\x08\x31\x32\x33\x34\x35\x36\x37\x38\
                \xAA\x00",
            2,
            6,
        ),
        ("steps without an MF", b"\xA1\x02\xA1\x00\xAA\x00", 2, 6),
        (
            "telecom without an MF",
            b"\xB2\x08\x06\x06\x67\x81\x0F\x01\x02\x03\xAA\x00",
            2,
            6,
        ),
        (
            "the USIM without an MF",
            b"\xB3\x1E\x06\x06\x67\x81\x0F\x01\x02\x04\xA2\x14\xA1\x12\x84\x10\xA0\x00\x00\x00\
                \x87\x10\x02\xFF\xFF\xFF\xFF\x89\x00\x00\x01\x00\xAA\x00",
            2,
            6,
        ),
        (
            "optional files of the USIM without an MF",
            b"\xB4\x08\x06\x06\x67\x81\x0F\x01\x02\x05\xAA\x00",
            2,
            6,
        ),
        (
            "the ISIM without an MF",
            b"\xB5\x1E\x06\x06\x67\x81\x0F\x01\x02\x08\xA2\x14\xA1\x12\x84\x10\xA0\x00\x00\x00\
                \x87\x10\x02\xFF\xFF\xFF\xFF\x89\x00\x00\x01\x00\xAA\x00",
            2,
            6,
        ),
        ("an end that isn't whole", b"\xAA\x01\x5A", 2, 5),
        ("a tag of two bytes", b"\xBF\x01\x00\xAA\x00", 2, 5),
    ];
    for case in cases {
        let answer = built_behind(rt.alloc(), HEADER, case.1)?;
        assert!(rt; is_refused(&answer, case.2, case.3), "{}", case.0);
    }
    Ok(())
}

#[test]
fn elements_come_once_and_in_order(rt: HostRuntime) -> Result<(), Fail> {
    let cases: [Refused; 5] = [
        (
            "a second MF",
            b"\xB0\x08\x06\x06\x67\x81\x0F\x01\x02\x01\xAA\x00",
            3,
            6,
        ),
        (
            "optional files before the USIM",
            b"\xB4\x08\x06\x06\x67\x81\x0F\x01\x02\x05\xAA\x00",
            3,
            6,
        ),
        (
            "a second telecom",
            b"\xB2\x08\x06\x06\x67\x81\x0F\x01\x02\x03\xB2\x08\x06\x06\x67\x81\x0F\x01\x02\
                \x03\xAA\x00",
            4,
            6,
        ),
        (
            "a second USIM",
            b"\xB3\x1E\x06\x06\x67\x81\x0F\x01\x02\x04\xA2\x14\xA1\x12\x84\x10\xA0\x00\x00\x00\
                \x87\x10\x02\xFF\xFF\xFF\xFF\x89\x00\x00\x01\x00\xB3\x1E\x06\x06\x67\x81\x0F\x01\
                \x02\x04\xA2\x14\xA1\x12\x84\x10\xA0\x00\x00\x00\x87\x10\x04\xFF\xFF\xFF\xFF\x89\
                \x00\x00\x01\x00\xAA\x00",
            4,
            6,
        ),
        (
            "a second ISIM",
            b"\xB5\x1E\x06\x06\x67\x81\x0F\x01\x02\x08\xA2\x14\xA1\x12\x84\x10\xA0\x00\x00\x00\
                \x87\x10\x02\xFF\xFF\xFF\xFF\x89\x00\x00\x01\x00\xB5\x1E\x06\x06\x67\x81\x0F\x01\
                \x02\x08\xA2\x14\xA1\x12\x84\x10\xA0\x00\x00\x00\x87\x10\x04\xFF\xFF\xFF\xFF\x89\
                \x00\x00\x01\x00\xAA\x00",
            4,
            6,
        ),
    ];
    for case in cases {
        let answer = built_behind(rt.alloc(), HEADER_AND_MF, case.1)?;
        assert!(rt; is_refused(&answer, case.2, case.3), "{}", case.0);
    }
    Ok(())
}

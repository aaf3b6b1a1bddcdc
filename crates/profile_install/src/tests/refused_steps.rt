//! Steps of file management elements that are refused.

use super::packages::*;
use super::*;
use std::test::Fail;

#[test]
fn steps_are_refused(rt: HostRuntime) -> Result<(), Fail> {
    let cases: [Refused; 19] = [
        (
            "a path of an odd length",
            b"\xA1\x07\xA1\x05\x80\x03\x2F\x05\x00\xAA\x00",
            3,
            5,
        ),
        (
            "a path of five identifiers",
            b"\xA1\x0E\xA1\x0C\x80\x0A\x2F\x05\x2F\x05\x2F\x05\x2F\x05\x2F\x05\xAA\x00",
            3,
            6,
        ),
        (
            "a path of no file",
            b"\xA1\x06\xA1\x04\x80\x02\x2F\x99\xAA\x00",
            3,
            6,
        ),
        (
            "content without an EF",
            b"\xA1\x04\xA1\x02\x83\x00\xAA\x00",
            3,
            6,
        ),
        (
            "a new file without an identifier",
            b"\xA1\x0C\xA1\x0A\x62\x08\x82\x02\x41\x21\x80\x02\x00\x10\xAA\x00",
            3,
            6,
        ),
        (
            "a new file with an identifier in use",
            b"\xA1\x10\xA1\x0E\x62\x0C\x82\x02\x41\x21\x83\x02\x2F\x05\x80\x02\x00\x10\xAA\
                \x00",
            3,
            6,
        ),
        (
            "a new file past the quota",
            b"\xA1\x11\xA1\x0F\x62\x0D\x82\x02\x41\x21\x83\x02\x2F\x10\x80\x03\x00\xFF\xE0\
                \xAA\x00",
            3,
            4,
        ),
        (
            "a step that isn't there",
            b"\xA1\x04\xA1\x02\x84\x00\xAA\x00",
            3,
            5,
        ),
        (
            "a new file one byte past the quota",
            b"\xA1\x10\xA1\x0E\x62\x0C\x82\x02\x41\x21\x83\x02\x2F\x10\x80\x02\xFC\xD4\xAA\
                \x00",
            3,
            4,
        ),
        ("no list of steps", b"\xA1\x00\xAA\x00", 3, 5),
        (
            "a list of steps twice",
            b"\xA1\x04\xA1\x00\xA1\x00\xAA\x00",
            3,
            5,
        ),
        (
            "content past the end",
            b"\xA1\x0B\xA1\x09\x80\x02\x2F\x05\x83\x03\x00\x00\x00\xAA\x00",
            3,
            6,
        ),
        (
            "a skip without an EF",
            b"\xA1\x05\xA1\x03\x82\x01\x01\xAA\x00",
            3,
            6,
        ),
        (
            "a skip of no byte",
            b"\xA1\x08\xA1\x06\x80\x02\x2F\x05\x82\x00\xAA\x00",
            3,
            5,
        ),
        (
            "a new file with a malformed size",
            b"\xA1\x0E\xA1\x0C\x62\x0A\x82\x02\x41\x21\x83\x02\x2F\x10\x80\x00\xAA\x00",
            3,
            6,
        ),
        (
            "a new file whose fields are no list",
            b"\xA1\x07\xA1\x05\x62\x03\x82\x05\x41\xAA\x00",
            3,
            5,
        ),
        (
            "a new file with an SFI in use",
            b"\xA1\x13\xA1\x11\x62\x0F\x82\x02\x41\x21\x83\x02\x2F\x10\x80\x02\x00\x10\x88\x01\
                \x10\xAA\x00",
            3,
            6,
        ),
        (
            "a new application with a name in use",
            b"\xB3\x1E\x06\x06\x67\x81\x0F\x01\x02\x04\xA2\x14\xA1\x12\x84\x10\xA0\x00\x00\x00\
                \x87\x10\x02\xFF\xFF\xFF\xFF\x89\x00\x00\x01\x00\xA1\x1E\xA1\x1C\x62\x1A\x82\x02\
                \x78\x21\x83\x02\x7F\x20\x84\x10\xA0\x00\x00\x00\x87\x10\x02\xFF\xFF\xFF\xFF\x89\
                \x00\x00\x01\x00\xAA\x00",
            4,
            6,
        ),
        (
            "content behind a directory",
            b"\xB2\x08\x06\x06\x67\x81\x0F\x01\x02\x03\xA1\x0C\xA1\x0A\x80\x02\x2F\x05\x80\x02\
                \x7F\x10\x83\x00\xAA\x00",
            4,
            6,
        ),
    ];
    for case in cases {
        let answer = built_behind(rt.alloc(), HEADER_AND_MF, case.1)?;
        assert!(rt; is_refused(&answer, case.2, case.3), "{}", case.0);
    }
    Ok(())
}

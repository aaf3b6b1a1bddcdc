//! Files of templates that are refused.

use super::packages::*;
use super::*;
use std::test::Fail;

#[test]
fn the_mf_and_its_files_are_refused(rt: HostRuntime) -> Result<(), Fail> {
    let cases: [Refused; 27] = [
        (
            "another template",
            b"\xB0\x08\x06\x06\x67\x81\x0F\x01\x02\x03\xAA\x00",
            2,
            9,
        ),
        ("no template", b"\xB0\x00\xAA\x00", 2, 5),
        (
            "a template twice",
            b"\xB0\x10\x06\x06\x67\x81\x0F\x01\x02\x01\x06\x06\x67\x81\x0F\x01\x02\x01\xAA\
                \x00",
            2,
            5,
        ),
        (
            "a file before the template",
            b"\xB0\x0A\xA3\x00\x06\x06\x67\x81\x0F\x01\x02\x01\xAA\x00",
            2,
            5,
        ),
        (
            "another template of an element that isn't whole",
            b"\xB0\x0D\x06\x06\x67\x81\x0F\x01\x02\x03\xA3\x03\x5F\x80\x80\xAA\x00",
            2,
            5,
        ),
        (
            "a position twice",
            b"\xB0\x0C\x06\x06\x67\x81\x0F\x01\x02\x01\xA3\x00\xA3\x00\xAA\x00",
            2,
            5,
        ),
        (
            "a position that isn't there",
            b"\xB0\x0A\x06\x06\x67\x81\x0F\x01\x02\x01\xA8\x00\xAA\x00",
            2,
            6,
        ),
        (
            "position 1",
            b"\xB0\x0A\x06\x06\x67\x81\x0F\x01\x02\x01\xA1\x00\xAA\x00",
            2,
            6,
        ),
        (
            "the MF left out",
            b"\xB0\x0C\x06\x06\x67\x81\x0F\x01\x02\x01\xA2\x02\x80\x00\xAA\x00",
            2,
            6,
        ),
        (
            "a file left out with more",
            b"\xB0\x0E\x06\x06\x67\x81\x0F\x01\x02\x01\xA3\x04\x80\x00\x83\x00\xAA\x00",
            2,
            5,
        ),
        (
            "content past the end",
            b"\xB0\x0F\x06\x06\x67\x81\x0F\x01\x02\x01\xA3\x05\x83\x03\x00\x00\x00\xAA\x00",
            2,
            6,
        ),
        (
            "content behind a skip past the end",
            b"\xB0\x10\x06\x06\x67\x81\x0F\x01\x02\x01\xA3\x06\x82\x01\x03\x83\x01\x00\xAA\
                \x00",
            2,
            6,
        ),
        (
            "a skip of three bytes",
            b"\xB0\x0F\x06\x06\x67\x81\x0F\x01\x02\x01\xA3\x05\x82\x03\x00\x00\x01\xAA\x00",
            2,
            5,
        ),
        (
            "a part that isn't there",
            b"\xB0\x0C\x06\x06\x67\x81\x0F\x01\x02\x01\xA3\x02\x84\x00\xAA\x00",
            2,
            5,
        ),
        (
            "a descriptor behind content",
            b"\xB0\x0E\x06\x06\x67\x81\x0F\x01\x02\x01\xA3\x04\x83\x00\xA1\x00\xAA\x00",
            2,
            5,
        ),
        (
            "a malformed size",
            b"\xB0\x0E\x06\x06\x67\x81\x0F\x01\x02\x01\xA3\x04\xA1\x02\x80\x00\xAA\x00",
            2,
            5,
        ),
        (
            "a malformed field behind another kind",
            b"\xB0\x12\x06\x06\x67\x81\x0F\x01\x02\x01\xA3\x08\xA1\x06\x82\x02\x78\x21\x80\
                \x00\xAA\x00",
            2,
            5,
        ),
        (
            "another kind",
            b"\xB0\x10\x06\x06\x67\x81\x0F\x01\x02\x01\xA3\x06\xA1\x04\x82\x02\x78\x21\xAA\
                \x00",
            2,
            6,
        ),
        (
            "of two faults the first",
            b"\xB0\x11\x06\x06\x67\x81\x0F\x01\x02\x01\xA3\x05\x83\x03\x00\x00\x00\xA3\x00\
                \xAA\x00",
            2,
            6,
        ),
        (
            "a descriptor twice",
            b"\xB0\x0E\x06\x06\x67\x81\x0F\x01\x02\x01\xA3\x04\xA1\x00\xA1\x00\xAA\x00",
            2,
            5,
        ),
        (
            "an SFI in use",
            b"\xB0\x0F\x06\x06\x67\x81\x0F\x01\x02\x01\xA3\x05\xA1\x03\x88\x01\x10\xAA\x00",
            2,
            6,
        ),
        (
            "a file past the quota",
            b"\xB0\x11\x06\x06\x67\x81\x0F\x01\x02\x01\xA3\x07\xA1\x05\x80\x03\x00\xFF\xE0\xAA\x00",
            2,
            4,
        ),
        (
            "a size of 65,505 bytes",
            b"\xB0\x11\x06\x06\x67\x81\x0F\x01\x02\x01\xA3\x07\xA1\x05\x80\x03\x00\xFF\xE1\xAA\x00",
            2,
            6,
        ),
        (
            "records that are no whole number",
            b"\xB0\x12\x06\x06\x67\x81\x0F\x01\x02\x01\xA5\x08\xA1\x06\x82\x04\x42\x21\x00\x25\
                \xAA\x00",
            2,
            6,
        ),
        (
            "a name at a file",
            b"\xB0\x1E\x06\x06\x67\x81\x0F\x01\x02\x01\xA3\x14\xA1\x12\x84\x10\xA0\x00\x00\x00\
                \x87\x10\x02\xFF\xFF\xFF\xFF\x89\x00\x00\x01\x00\xAA\x00",
            2,
            6,
        ),
        (
            "content and then a part that isn't there",
            b"\xB0\x11\x06\x06\x67\x81\x0F\x01\x02\x01\xA3\x07\x83\x03\x00\x00\x00\x84\x00\xAA\x00",
            2,
            6,
        ),
        (
            "a size twice behind content of another file",
            b"\xB0\x17\x06\x06\x67\x81\x0F\x01\x02\x01\xA3\x03\x83\x01\x00\xA4\x08\xA1\x06\x80\
                \x01\x0A\x80\x01\x0A\xAA\x00",
            2,
            5,
        ),
    ];
    for case in cases {
        let answer = built_behind(rt.alloc(), HEADER, case.1)?;
        assert!(rt; is_refused(&answer, case.2, case.3), "{}", case.0);
    }
    Ok(())
}

#[test]
fn applications_are_refused(rt: HostRuntime) -> Result<(), Fail> {
    let cases: [Refused; 2] = [
        (
            "an application without a name",
            b"\xB3\x08\x06\x06\x67\x81\x0F\x01\x02\x04\xAA\x00",
            3,
            6,
        ),
        (
            "a name in use",
            b"\xB3\x1E\x06\x06\x67\x81\x0F\x01\x02\x04\xA2\x14\xA1\x12\x84\x10\xA0\x00\x00\
                \x00\x87\x10\x02\xFF\xFF\xFF\xFF\x89\x00\x00\x01\x00\xB5\x1E\x06\x06\x67\x81\
                \x0F\x01\x02\x08\xA2\x14\xA1\x12\x84\x10\xA0\x00\x00\x00\x87\x10\x02\xFF\xFF\
                \xFF\xFF\x89\x00\x00\x01\x00\xAA\x00",
            4,
            6,
        ),
    ];
    for case in cases {
        let answer = built_behind(rt.alloc(), HEADER_AND_MF, case.1)?;
        assert!(rt; is_refused(&answer, case.2, case.3), "{}", case.0);
    }
    Ok(())
}

//! Packages that are taken.

use super::packages::*;
use super::*;
use std::test::Fail;

// What a package is, its bytes behind the header, how many files it makes, how much of the quota
// they take, and how many PINs.
type Taken = (&'static str, &'static [u8], usize, usize, usize);

#[test]
fn what_packages_make(rt: HostRuntime) -> Result<(), Fail> {
    let cases: [Taken; 8] = [
        ("a header and an end", b"\xAA\x00", 0, 0, 0),
        (
            "a skip past the end, with no content",
            b"\xB0\x0F\x06\x06\x67\x81\x0F\x01\x02\x01\xA3\x05\x82\x01\x03\x83\x00\xAA\x00",
            6,
            781,
            0,
        ),
        (
            "a position without a part",
            b"\xB0\x0A\x06\x06\x67\x81\x0F\x01\x02\x01\xA3\x00\xAA\x00",
            6,
            781,
            0,
        ),
        (
            "a file left out",
            b"\xB0\x0C\x06\x06\x67\x81\x0F\x01\x02\x01\xA3\x02\x80\x00\xAA\x00",
            5,
            747,
            0,
        ),
        (
            "a file management element without a step",
            b"\xB0\x08\x06\x06\x67\x81\x0F\x01\x02\x01\xA1\x02\xA1\x00\xAA\x00",
            6,
            781,
            0,
        ),
        (
            "a PUK before the MF, and a PIN with it",
            b"\xA3\x11\xA1\x0F\x30\x0D\x80\x01\x05\x81\x08\x31\x32\x33\x34\x35\x36\x37\x38\
                \xB0\x08\x06\x06\x67\x81\x0F\x01\x02\x01\xA2\x14\xA1\x12\x30\x10\x80\x01\x01\
                \x81\x08\x31\x32\x33\x34\x35\x36\x37\x38\x82\x01\x05\xAA\x00",
            6,
            781,
            1,
        ),
        (
            "a new file with content",
            b"\xB0\x08\x06\x06\x67\x81\x0F\x01\x02\x01\xA1\x17\xA1\x15\x62\x0C\x82\x02\x41\
                \x21\x83\x02\x2F\x10\x80\x02\x00\x10\x82\x01\x03\x83\x02\xAA\xBB\xAA\x00",
            7,
            829,
            0,
        ),
        (
            "files that take the whole quota",
            b"\xB0\x08\x06\x06\x67\x81\x0F\x01\x02\x01\xA1\x10\xA1\x0E\x62\x0C\x82\x02\x41\
                \x21\x83\x02\x2F\x10\x80\x02\xFC\xD3\xAA\x00",
            7,
            65536,
            0,
        ),
    ];
    for (name, package, files, used, pins) in cases {
        let content = built_behind(rt.alloc(), HEADER, package)??;
        assert_eq!(rt; content.rows.len(), files, "{name}");
        assert_eq!(rt; content.pins.len(), pins, "{name}");
        assert_eq!(rt; use_of(&content), used, "{name}");
    }
    Ok(())
}

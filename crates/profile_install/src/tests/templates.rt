//! Packages with whole templates.

use super::packages::*;
use super::*;
use std::test::Fail;

// All five templates, each with all its positions.
const ALL_POSITIONS: &[u8] =
    b"\xB0\x14\x06\x06\x67\x81\x0F\x01\x02\x01\xA2\x00\xA3\x00\xA4\x00\xA5\x00\xA6\x00\xA7\x00\xB2\
    \x22\x06\x06\x67\x81\x0F\x01\x02\x03\xA2\x00\xA3\x00\xA4\x00\xA5\x00\xA6\x00\xA7\x00\xA8\x00\
    \xA9\x00\xAA\x00\xAB\x00\xAC\x00\xAD\x00\xAE\x00\xB3\x46\x06\x06\x67\x81\x0F\x01\x02\x04\xA2\
    \x14\xA1\x12\x84\x10\xA0\x00\x00\x00\x87\x10\x02\xFF\xFF\xFF\xFF\x89\x00\x00\x01\x00\xA3\x00\
    \xA4\x00\xA5\x00\xA6\x00\xA7\x00\xA8\x00\xA9\x00\xAA\x00\xAB\x00\xAC\x00\xAD\x00\xAE\x00\xAF\
    \x00\xB0\x00\xB1\x00\xB2\x00\xB3\x00\xB4\x00\xB5\x00\xB6\x00\xB4\x2C\x06\x06\x67\x81\x0F\x01\
    \x02\x05\xA2\x00\xA3\x00\xA4\x00\xA5\x00\xA6\x00\xA7\x00\xA8\x00\xA9\x00\xAA\x00\xAB\x00\xAC\
    \x00\xAD\x00\xAE\x00\xAF\x00\xB0\x00\xB1\x00\xB2\x00\xB3\x00\xB5\x2C\x06\x06\x67\x81\x0F\x01\
    \x02\x08\xA2\x14\xA1\x12\x84\x10\xA0\x00\x00\x00\x87\x10\x04\xFF\xFF\xFF\xFF\x89\x00\x00\x01\
    \x00\xA3\x00\xA4\x00\xA5\x00\xA6\x00\xA7\x00\xA8\x00\xA9\x00\xAA\x00";

// All five templates, with no position but those of the applications, which need a name.
const NO_POSITIONS: &[u8] =
    b"\xB0\x08\x06\x06\x67\x81\x0F\x01\x02\x01\xB2\x08\x06\x06\x67\x81\x0F\x01\x02\x03\xB3\x1E\x06\
    \x06\x67\x81\x0F\x01\x02\x04\xA2\x14\xA1\x12\x84\x10\xA0\x00\x00\x00\x87\x10\x02\xFF\xFF\xFF\
    \xFF\x89\x00\x00\x01\x00\xB4\x08\x06\x06\x67\x81\x0F\x01\x02\x05\xB5\x1E\x06\x06\x67\x81\x0F\
    \x01\x02\x08\xA2\x14\xA1\x12\x84\x10\xA0\x00\x00\x00\x87\x10\x04\xFF\xFF\xFF\xFF\x89\x00\x00\
    \x01\x00\xAA\x00";

// The first template, its directory and how many positions it has. They follow each other in the
// package.
type Templates = [(u8, &'static [u16], u8); 5];

const TEMPLATES: Templates = [
    (1, &[], 7),
    (3, &[0x7F10], 14),
    (4, &[0x7FD0], 22),
    (5, &[0x7FD0], 19),
    (8, &[0x7FD1], 9),
];

// Whether a file is that of a template's position.
fn is_file_at(file: &FileRow, directory: &[u16], template: u8, position: u8) -> bool {
    let Some(row) = row(template, position) else {
        return false;
    };
    let head = &file.head;
    let alone = position == 2 && template != 5;
    let at = match head.path.as_slice() {
        [] => template == 1 && alone,
        [front @ .., last] => *last == row.id && (front == directory || alone && front.is_empty()),
    };
    at && head.kind == row.kind
        && head.record_len == row.record_len
        && head.size == row.size
        && head.sfi == row.sfi
        && file.body.as_slice().iter().all(|byte| *byte == 0xFF)
}

#[test]
fn each_template_with_all_its_positions(rt: HostRuntime) -> Result<(), Fail> {
    let content = built_behind(rt.alloc(), HEADER, ALL_POSITIONS)??;
    assert_eq!(rt; content.rows.len(), 66);
    assert_eq!(rt; use_of(&content), 13_874);
    let mut files = content.rows.as_slice().iter();
    for (template, directory, last) in TEMPLATES {
        for position in 2..=last {
            match files.next() {
                Some(file) => assert!(rt;
                    is_file_at(file, directory, template, position),
                    "{template} {position}"
                ),
                None => assert!(rt; false, "{template} {position}"),
            }
        }
    }
    Ok(())
}

#[test]
fn each_template_without_its_positions(rt: HostRuntime) -> Result<(), Fail> {
    let content = built_behind(rt.alloc(), HEADER, NO_POSITIONS)??;
    // The optional files of the USIM, 18 of 1,785 bytes, aren't made.
    assert_eq!(rt; content.rows.len(), 48);
    assert_eq!(rt; use_of(&content), 12_089);
    Ok(())
}

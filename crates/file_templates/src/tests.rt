use super::*;
use file_rows::Kind;

// A file: its template, position, identifier and kind, the bytes of a record and of the body, its
// SFI and the record of its rule.
type File = (u8, u8, u16, Kind, u8, u16, u8, u8);

const FILES: [File; 66] = [
    (1, 2, 0x3F00, Kind::Master, 0, 0, 0, 1),
    (1, 3, 0x2F05, Kind::Transparent, 0, 2, 0x05, 2),
    (1, 4, 0x2FE2, Kind::Transparent, 0, 10, 0x02, 1),
    (1, 5, 0x2F00, Kind::Linear, 38, 152, 0x1E, 1),
    (1, 6, 0x2F06, Kind::Linear, 42, 420, 0x06, 1),
    (1, 7, 0x2F08, Kind::Transparent, 0, 5, 0x08, 3),
    (3, 2, 0x7F10, Kind::Directory, 0, 0, 0, 1),
    (3, 3, 0x6F06, Kind::Linear, 42, 420, 0, 1),
    (3, 4, 0x6F3A, Kind::Linear, 28, 1400, 0, 3),
    (3, 5, 0x6F3B, Kind::Linear, 28, 280, 0, 3),
    (3, 6, 0x6F3C, Kind::Linear, 176, 3520, 0, 3),
    (3, 7, 0x6F40, Kind::Linear, 28, 56, 0, 3),
    (3, 8, 0x6F42, Kind::Linear, 40, 80, 0, 3),
    (3, 9, 0x6F43, Kind::Transparent, 0, 2, 0, 3),
    (3, 10, 0x6F44, Kind::Cyclic, 28, 280, 0, 3),
    (3, 11, 0x6F49, Kind::Linear, 28, 280, 0, 3),
    (3, 12, 0x6F4A, Kind::Linear, 13, 65, 0, 3),
    (3, 13, 0x6F4B, Kind::Linear, 13, 65, 0, 3),
    (3, 14, 0x6F4C, Kind::Linear, 13, 65, 0, 3),
    (4, 2, 0x7FD0, Kind::Application, 0, 0, 0, 1),
    (4, 3, 0x6F07, Kind::Transparent, 0, 9, 0x07, 3),
    (4, 4, 0x6F06, Kind::Linear, 42, 420, 0x17, 1),
    (4, 5, 0x6F08, Kind::Transparent, 0, 33, 0x08, 3),
    (4, 6, 0x6F09, Kind::Transparent, 0, 33, 0x09, 3),
    (4, 7, 0x6F31, Kind::Transparent, 0, 1, 0x12, 3),
    (4, 8, 0x6F38, Kind::Transparent, 0, 17, 0x04, 3),
    (4, 9, 0x6F7B, Kind::Transparent, 0, 12, 0x0D, 3),
    (4, 10, 0x6F7E, Kind::Transparent, 0, 11, 0x0B, 3),
    (4, 11, 0x6F73, Kind::Transparent, 0, 14, 0x0C, 3),
    (4, 12, 0x6FAD, Kind::Transparent, 0, 4, 0x03, 1),
    (4, 13, 0x6F78, Kind::Transparent, 0, 2, 0x06, 3),
    (4, 14, 0x6FB7, Kind::Linear, 20, 100, 0x01, 1),
    (4, 15, 0x6F5B, Kind::Transparent, 0, 6, 0x0F, 3),
    (4, 16, 0x6F5C, Kind::Transparent, 0, 3, 0x10, 3),
    (4, 17, 0x6FC4, Kind::Transparent, 0, 46, 0, 3),
    (4, 18, 0x6F3C, Kind::Linear, 176, 1760, 0, 3),
    (4, 19, 0x6F42, Kind::Linear, 40, 80, 0, 3),
    (4, 20, 0x6F43, Kind::Transparent, 0, 2, 0, 3),
    (4, 21, 0x6F46, Kind::Transparent, 0, 17, 0, 1),
    (4, 22, 0x6F56, Kind::Transparent, 0, 1, 0x05, 3),
    (5, 2, 0x6F05, Kind::Transparent, 0, 10, 0x02, 1),
    (5, 3, 0x6F37, Kind::Transparent, 0, 3, 0, 3),
    (5, 4, 0x6F39, Kind::Cyclic, 3, 15, 0, 3),
    (5, 5, 0x6F3E, Kind::Transparent, 0, 4, 0, 3),
    (5, 6, 0x6F3F, Kind::Transparent, 0, 4, 0, 3),
    (5, 7, 0x6F40, Kind::Linear, 28, 56, 0, 3),
    (5, 8, 0x6F41, Kind::Transparent, 0, 5, 0, 3),
    (5, 9, 0x6F45, Kind::Transparent, 0, 20, 0, 3),
    (5, 10, 0x6F48, Kind::Transparent, 0, 20, 0x0E, 3),
    (5, 11, 0x6F60, Kind::Transparent, 0, 40, 0x0A, 3),
    (5, 12, 0x6F61, Kind::Transparent, 0, 40, 0x11, 3),
    (5, 13, 0x6F62, Kind::Transparent, 0, 10, 0x13, 3),
    (5, 14, 0x6F3B, Kind::Linear, 28, 280, 0, 3),
    (5, 15, 0x6F49, Kind::Linear, 28, 280, 0, 3),
    (5, 16, 0x6FC5, Kind::Linear, 20, 200, 0x19, 1),
    (5, 17, 0x6FC6, Kind::Linear, 8, 80, 0x1A, 1),
    (5, 18, 0x6FC7, Kind::Linear, 28, 112, 0, 3),
    (5, 19, 0x6FCD, Kind::Transparent, 0, 30, 0, 3),
    (8, 2, 0x7FD1, Kind::Application, 0, 0, 0, 1),
    (8, 3, 0x6F02, Kind::Transparent, 0, 64, 0x02, 3),
    (8, 4, 0x6F04, Kind::Linear, 64, 256, 0x04, 3),
    (8, 5, 0x6F03, Kind::Transparent, 0, 64, 0x05, 3),
    (8, 6, 0x6F07, Kind::Transparent, 0, 8, 0x07, 3),
    (8, 7, 0x6FAD, Kind::Transparent, 0, 4, 0x03, 1),
    (8, 8, 0x6F06, Kind::Linear, 42, 420, 0x06, 1),
    (8, 9, 0x6F09, Kind::Linear, 32, 64, 0, 3),
];

#[test]
fn each_file_of_the_templates(rt: HostRuntime) {
    for (template, position, id, kind, record_len, size, sfi, rule) in FILES {
        let wanted = Row {
            position,
            id,
            kind,
            record_len,
            size,
            sfi,
            rule,
        };
        assert_eq!(rt;
            row(template, position),
            Some(wanted),
            "{template} {position}"
        );
    }
}

#[test]
fn finds_files_by_template_and_position(rt: HostRuntime) {
    let message_store = Row {
        position: 6,
        id: 0x6F3C,
        kind: Kind::Linear,
        record_len: 176,
        size: 3520,
        sfi: 0,
        rule: 3,
    };
    assert_eq!(rt; row(3, 6), Some(message_store));
    assert_eq!(rt; row(1, 1), None);
    assert_eq!(rt; row(1, 8), None);
    assert_eq!(rt; row(2, 2), None);
}

#[test]
fn each_template_has_its_positions_from_2_on(rt: HostRuntime) {
    assert!(rt; TEMPLATE_ROWS.keys_differ());
    for (template, count) in [(1, 6), (2, 0), (3, 13), (4, 21), (5, 18), (8, 8), (255, 0)] {
        assert_eq!(rt; rows(template), count, "template {template}");
        for position in 0..=255 {
            let here = position >= 2 && position < 2 + count;
            assert_eq!(rt;
                row(template, position).is_some(),
                here,
                "{template} {position}"
            );
        }
    }
}

#[test]
fn the_laws_of_the_templates_are_callable() {
    the_table_has_just_these_positions();
    one_row_at_each_position();
    templates_have_these_numbers_of_rows();
}

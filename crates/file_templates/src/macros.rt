//! The rows of the templates, and what is made of them.

// Hands the rows to a macro. A row is its key (the template times 256 plus the position), its
// place, and then position, identifier, kind, record length, size, SFI and rule.
macro_rules! template_rows {
    ($using:ident) => {
        $using! {
            // template 1
            0x0102 => 0, (2, 0x3F00, Master, 0, 0, 0, 1);
            0x0103 => 1, (3, 0x2F05, Transparent, 0, 2, 0x05, 2);
            0x0104 => 2, (4, 0x2FE2, Transparent, 0, 10, 0x02, 1);
            0x0105 => 3, (5, 0x2F00, Linear, 38, 38 * 4, 0x1E, 1);
            0x0106 => 4, (6, 0x2F06, Linear, 42, 42 * 10, 0x06, 1);
            0x0107 => 5, (7, 0x2F08, Transparent, 0, 5, 0x08, 3);
            // template 3
            0x0302 => 6, (2, 0x7F10, Directory, 0, 0, 0, 1);
            0x0303 => 7, (3, 0x6F06, Linear, 42, 42 * 10, 0, 1);
            0x0304 => 8, (4, 0x6F3A, Linear, 28, 28 * 50, 0, 3);
            0x0305 => 9, (5, 0x6F3B, Linear, 28, 28 * 10, 0, 3);
            0x0306 => 10, (6, 0x6F3C, Linear, 176, 176 * 20, 0, 3);
            0x0307 => 11, (7, 0x6F40, Linear, 28, 28 * 2, 0, 3);
            0x0308 => 12, (8, 0x6F42, Linear, 40, 40 * 2, 0, 3);
            0x0309 => 13, (9, 0x6F43, Transparent, 0, 2, 0, 3);
            0x030A => 14, (10, 0x6F44, Cyclic, 28, 28 * 10, 0, 3);
            0x030B => 15, (11, 0x6F49, Linear, 28, 28 * 10, 0, 3);
            0x030C => 16, (12, 0x6F4A, Linear, 13, 13 * 5, 0, 3);
            0x030D => 17, (13, 0x6F4B, Linear, 13, 13 * 5, 0, 3);
            0x030E => 18, (14, 0x6F4C, Linear, 13, 13 * 5, 0, 3);
            // template 4
            0x0402 => 19, (2, 0x7FD0, Application, 0, 0, 0, 1);
            0x0403 => 20, (3, 0x6F07, Transparent, 0, 9, 0x07, 3);
            0x0404 => 21, (4, 0x6F06, Linear, 42, 42 * 10, 0x17, 1);
            0x0405 => 22, (5, 0x6F08, Transparent, 0, 33, 0x08, 3);
            0x0406 => 23, (6, 0x6F09, Transparent, 0, 33, 0x09, 3);
            0x0407 => 24, (7, 0x6F31, Transparent, 0, 1, 0x12, 3);
            0x0408 => 25, (8, 0x6F38, Transparent, 0, 17, 0x04, 3);
            0x0409 => 26, (9, 0x6F7B, Transparent, 0, 12, 0x0D, 3);
            0x040A => 27, (10, 0x6F7E, Transparent, 0, 11, 0x0B, 3);
            0x040B => 28, (11, 0x6F73, Transparent, 0, 14, 0x0C, 3);
            0x040C => 29, (12, 0x6FAD, Transparent, 0, 4, 0x03, 1);
            0x040D => 30, (13, 0x6F78, Transparent, 0, 2, 0x06, 3);
            0x040E => 31, (14, 0x6FB7, Linear, 20, 20 * 5, 0x01, 1);
            0x040F => 32, (15, 0x6F5B, Transparent, 0, 6, 0x0F, 3);
            0x0410 => 33, (16, 0x6F5C, Transparent, 0, 3, 0x10, 3);
            0x0411 => 34, (17, 0x6FC4, Transparent, 0, 46, 0, 3);
            0x0412 => 35, (18, 0x6F3C, Linear, 176, 176 * 10, 0, 3);
            0x0413 => 36, (19, 0x6F42, Linear, 40, 40 * 2, 0, 3);
            0x0414 => 37, (20, 0x6F43, Transparent, 0, 2, 0, 3);
            0x0415 => 38, (21, 0x6F46, Transparent, 0, 17, 0, 1);
            0x0416 => 39, (22, 0x6F56, Transparent, 0, 1, 0x05, 3);
            // template 5
            0x0502 => 40, (2, 0x6F05, Transparent, 0, 10, 0x02, 1);
            0x0503 => 41, (3, 0x6F37, Transparent, 0, 3, 0, 3);
            0x0504 => 42, (4, 0x6F39, Cyclic, 3, 3 * 5, 0, 3);
            0x0505 => 43, (5, 0x6F3E, Transparent, 0, 4, 0, 3);
            0x0506 => 44, (6, 0x6F3F, Transparent, 0, 4, 0, 3);
            0x0507 => 45, (7, 0x6F40, Linear, 28, 28 * 2, 0, 3);
            0x0508 => 46, (8, 0x6F41, Transparent, 0, 5, 0, 3);
            0x0509 => 47, (9, 0x6F45, Transparent, 0, 20, 0, 3);
            0x050A => 48, (10, 0x6F48, Transparent, 0, 20, 0x0E, 3);
            0x050B => 49, (11, 0x6F60, Transparent, 0, 40, 0x0A, 3);
            0x050C => 50, (12, 0x6F61, Transparent, 0, 40, 0x11, 3);
            0x050D => 51, (13, 0x6F62, Transparent, 0, 10, 0x13, 3);
            0x050E => 52, (14, 0x6F3B, Linear, 28, 28 * 10, 0, 3);
            0x050F => 53, (15, 0x6F49, Linear, 28, 28 * 10, 0, 3);
            0x0510 => 54, (16, 0x6FC5, Linear, 20, 20 * 10, 0x19, 1);
            0x0511 => 55, (17, 0x6FC6, Linear, 8, 8 * 10, 0x1A, 1);
            0x0512 => 56, (18, 0x6FC7, Linear, 28, 28 * 4, 0, 3);
            0x0513 => 57, (19, 0x6FCD, Transparent, 0, 30, 0, 3);
            // template 8
            0x0802 => 58, (2, 0x7FD1, Application, 0, 0, 0, 1);
            0x0803 => 59, (3, 0x6F02, Transparent, 0, 64, 0x02, 3);
            0x0804 => 60, (4, 0x6F04, Linear, 64, 64 * 4, 0x04, 3);
            0x0805 => 61, (5, 0x6F03, Transparent, 0, 64, 0x05, 3);
            0x0806 => 62, (6, 0x6F07, Transparent, 0, 8, 0x07, 3);
            0x0807 => 63, (7, 0x6FAD, Transparent, 0, 4, 0x03, 1);
            0x0808 => 64, (8, 0x6F06, Linear, 42, 42 * 10, 0x06, 1);
            0x0809 => 65, (9, 0x6F09, Linear, 32, 32 * 2, 0, 3);
        }
    };
}

macro_rules! places_by_key {
    ($($key:tt => $place:tt, $row:tt;)*) => {
        CaseRows {
            keys: [$($key),*],
            values: [$($place),*],
        }
    };
}

macro_rules! list_of_rows {
    ($($key:tt => $place:tt, (
        $position:tt, $id:tt, $kind:tt, $record_len:tt, $size:expr, $sfi:tt, $rule:tt
    );)*) => {
        [$(Row {
            position: $position,
            id: $id,
            kind: Kind::$kind,
            record_len: $record_len,
            size: $size,
            sfi: $sfi,
            rule: $rule,
        }),*]
    };
}

pub(crate) use list_of_rows;
pub(crate) use places_by_key;
pub(crate) use template_rows;

//! Macros that make tables, and the arms of a `match`, from rows.

/// The table of these rows: `case_rows!(; 0xA4 => 0, 0xF2 => 1)`.
#[macro_export]
macro_rules! case_rows {
    (; $($key:tt => $value:tt),* $(,)?) => {
        CaseRows {
            keys: [$($key),*],
            values: [$($value),*],
        }
    };
}

/// The dispatch by these rows.
///
/// `case_arms!(number, arm(more), other; 0xA4 => 0, 0xF2 => 1)` stands for
/// `match number { 0xA4 => arm!(0xA4, 0, (more)), 0xF2 => arm!(0xF2, 1, (more)), _ => other }`.
///
/// The caller's macro `arm!` gets the key and the value of a row as they are written, so it may
/// have a rule for each key. A row for which it has none is an error of the compiler.
#[macro_export]
macro_rules! case_arms {
    ($number:expr, $arm:ident $more:tt, $other:expr; $($key:tt => $value:tt),* $(,)?) => {
        match $number {
            $($key => $arm!($key, $value, $more),)*
            _ => $other,
        }
    };
}

/// The value of a row, for `case_arms!`: `case_arms!(number, some_value(), None; ..)` is what the
/// table of these rows finds.
#[macro_export]
macro_rules! some_value {
    ($key:tt, $value:tt, ()) => {
        Some($value)
    };
}

/// Hands the rows of the instructions to `case_rows!` or `case_arms!`, as
/// `ins_rows!(case_arms: number, arm(more), other)`. The values are those of `INS_ROWS`.
#[macro_export]
macro_rules! ins_rows {
    ($using:ident: $($given:tt)*) => {
        $using!($($given)*;
            0xA4 => 0, // SELECT
            0xF2 => 1, // STATUS
            0xB0 => 0, // READ BINARY
            0xD6 => 0, // UPDATE BINARY
            0xB2 => 0, // READ RECORD
            0xDC => 0, // UPDATE RECORD
            0xA2 => 0, // SEARCH RECORD
            0x32 => 1, // INCREASE
            0x20 => 0, // VERIFY PIN
            0x24 => 0, // CHANGE PIN
            0x26 => 0, // DISABLE PIN
            0x28 => 0, // ENABLE PIN
            0x2C => 0, // UNBLOCK PIN
            0xCB => 1, // RETRIEVE DATA
            0x7A => 1, // MANAGE LSI
            0x70 => 0, // MANAGE CHANNEL
            0xC0 => 2, // GET RESPONSE
            0x10 => 1, // TERMINAL PROFILE
            0xAA => 1, // TERMINAL CAPABILITY
            0x12 => 1, // FETCH
            0x14 => 1, // TERMINAL RESPONSE
            0xE0 => 0, // CREATE FILE
            0xE4 => 0, // DELETE FILE
            0xE8 => 0, // TERMINATE EF
            0xD4 => 1, // RESIZE FILE
            0x04 => 0, // DEACTIVATE FILE
            0x44 => 0, // ACTIVATE FILE
            0xE2 => 1, // STORE DATA
            0xDB => 1, // SET DATA
        )
    };
}

/// Hands the rows of the status words to `case_rows!` or `case_arms!`, as
/// `status_rows!(case_arms: number, arm(more), other)`. The values are those of `STATUS_ROWS`.
#[macro_export]
macro_rules! status_rows {
    ($using:ident: $($given:tt)*) => {
        $using!($($given)*;
            0x9000 => 0x0000,
            0x910B => 0x0000,
            0x6100 => 0x00FF,
            0x6C00 => 0x00FF,
            0x6282 => 0x0000,
            0x6283 => 0x0000,
            0x6285 => 0x0000,
            0x63C0 => 0x000F,
            0x6581 => 0x0000,
            0x6700 => 0x0000,
            0x6881 => 0x0000,
            0x6882 => 0x0000,
            0x6981 => 0x0000,
            0x6982 => 0x0000,
            0x6983 => 0x0000,
            0x6984 => 0x0000,
            0x6985 => 0x0000,
            0x6986 => 0x0000,
            0x6A80 => 0x0000,
            0x6A81 => 0x0000,
            0x6A82 => 0x0000,
            0x6A83 => 0x0000,
            0x6A84 => 0x0000,
            0x6A86 => 0x0000,
            0x6A88 => 0x0000,
            0x6A89 => 0x0000,
            0x6A8A => 0x0000,
            0x6B00 => 0x0000,
            0x6D00 => 0x0000,
            0x6E00 => 0x0000,
            0x6F00 => 0x0000,
            0x9850 => 0x0000,
        )
    };
}

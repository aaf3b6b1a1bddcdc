ghost use Rattle.std.specs.Prelude.{◌≡◌, ◌==◌, ◌/◌, count_by, slice_get, option_and_then};
ghost use Rattle.file_templates.specs.Templates.{row_at, row_count};

use crate::macros::{list_of_rows, places_by_key, template_rows};
use crate::template_row::Row;
use case_table::CaseRows;
use file_rows::Kind;

/// Where the row of a template's position stands in the list of all rows. The key is the template
/// times 256 plus the position.
pub const TEMPLATE_ROWS: CaseRows<66> = template_rows!(places_by_key);

const ROWS: [Row; 66] = template_rows!(list_of_rows);

// The row at a place, where both are there.
fn row_in(rows: &[Row], place: Option<u16>) -> Option<Row>
    ensures { result ≡ option_and_then (slice_get rows.now) place }
{
    match place {
        Some(place) => rows.get(usize::from(place)).copied(),
        None => None,
    }
}

/// The file that a template has at a position, if it has one there. It takes time by the number of
/// rows in all templates.
pub fn row(template: u8, position: u8) -> Option<Row>
    ensures { result ≡ row_at template position }
{
    let key = u16::from(template) * 256 + u16::from(position);
    row_in(&ROWS, TEMPLATE_ROWS.find(key))
}

// How many of the keys are those of the template.
fn keys_of(keys: &[u16], template: u8) -> usize
    ensures { result ≡ count_by (λ key. key / 256 == template) keys.now }
{
    let template = u16::from(template);
    keys.iter().filter(|key| **key / 256 == template).count()
}

/// How many files a template has: 0 where there is no such template. Their positions are those
/// from 2 on.
pub fn rows(template: u8) -> u8
    ensures { result ≡ row_count template }
{
    keys_of(&TEMPLATE_ROWS.keys, template) as u8
}

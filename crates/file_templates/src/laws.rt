//! What holds of the templates as a whole.
ghost use Rattle.std.specs.Prelude.{◌≡◌, ◌+◌, ◌*◌, map, IsTrue};
ghost use Rattle.case_table.specs.CaseRows.{differ};
ghost use Rattle.file_templates.specs.Templates.{row_count, template_rows};
ghost use Rattle.file_templates.specs.declared.table.TheConstants.{TEMPLATE_ROWS};

/// The table has just the positions of the templates, in their order.
pub fn the_table_has_just_these_positions()
    ensures { TEMPLATE_ROWS.keys
        ≡ map (λ row. row.template * 256 + row.row.position) template_rows }
{}

/// No key stands twice in the table, so each row is the one that its template and position find.
pub fn one_row_at_each_position()
    ensures { IsTrue (differ TEMPLATE_ROWS.keys) }
{}

/// The templates are 1 (MF), 3 (telecom), 4 (USIM), 5 (optional files of the USIM) and 8 (ISIM),
/// with 6, 13, 21, 18 and 8 files at the positions from 2 on.
pub fn templates_have_these_numbers_of_rows()
    ensures master { row_count 1 ≡ 6 }
    ensures telecom { row_count 3 ≡ 13 }
    ensures usim { row_count 4 ≡ 21 }
    ensures opt_usim { row_count 5 ≡ 18 }
    ensures isim { row_count 8 ≡ 8 }
{}

//! The elements that make the files of a template.
ghost use Rattle.std.specs.Prelude.{◌≡◌, ◌-◌, [], Ok};
ghost use Rattle.file_templates.specs.Templates.{row_at};
ghost use Rattle.profile_install.specs.ElementResult.{ComesTo};
ghost use Rattle.profile_install.specs.Template.{at_file_end, at_list_end, at_position};
ghost use Rattle.profile_install.specs.Template.{directory_at, directory_of, is_master_at};
ghost use Rattle.profile_install.specs.Template.{just_made, left_out, made_before, no_fields};
ghost use Rattle.profile_install.specs.Template.{present, row_given, skipped_in, template_list};
ghost use Rattle.profile_install.specs.Template.{with_descriptor, with_not_given, with_part};
ghost use Rattle.profile_install.specs.Template.{with_present, with_row, with_row_at, with_rows};
ghost use Rattle.profile_install.specs.Template.{with_template};

use crate::draft::skip_count;
use crate::{Draft, ElementFault, Filled, OpenFile, StepFault};
use fcp_codec::Fcp;
use file_rows::Path;
use file_templates::{Row, row};
use plain_lists::ShortList;

/// How far the list of a template's files has come.
#[derive(Clone, Copy)]
pub struct TemplateList {
    /// 1 is the MF, 3 telecom, 4 the USIM, 5 its optional files, 8 the ISIM.
    pub template: u8,
    /// Whether the template's identifier has come.
    pub begun: bool,
    /// The first position that isn't given yet, counted from 1.
    pub next: u8,
}

/// How far the parts of a file have come.
#[derive(Clone, Copy)]
pub enum FileParts {
    /// None has come.
    Awaited,
    /// The file isn't made.
    LeftOut,
    /// The file is made, and content goes into it.
    Made(OpenFile),
}

fn directory_of(template: u8) -> Path
    ensures { result ≡ directory_of template }
{
    match template {
        1 => Path::new(),
        3 => Path::from_slice(&[0x7F10]),
        8 => Path::from_slice(&[0x7FD1]),
        _ => Path::from_slice(&[0x7FD0]),
    }
}

// Where the file at a position stands.
fn directory_at(template: u8, position: u8) -> Path
    ensures { result ≡ directory_at template position }
{
    if position == 2 && template != 5 {
        Path::new()
    } else {
        directory_of(template)
    }
}

fn is_master_at(template: u8, position: u8) -> bool
    ensures { result ≡ is_master_at template position }
{
    template == 1 && position == 2
}

fn no_fields() -> Fcp
    ensures { result ≡ no_fields }
{
    Fcp {
        descriptor: ShortList::new(),
        id: None,
        size: None,
        sfi: None,
        name: None,
        life: None,
        rule: None,
    }
}

fn with_row(draft: Draft, template: u8, row: &Row, given: Fcp) -> Result<Draft, StepFault>
    ensures { ComesTo result (with_row draft template row.now given) }
{
    let directory = directory_at(template, row.position);
    let is_master = is_master_at(template, row.position);
    let head = draft.head_of_row(is_master, &directory, row, given)?;
    Ok(draft.with_new_file(&head)?)
}

// The file at a position is made, where the template has one there.
fn with_row_at(draft: Draft, template: u8, row: Option<Row>, given: Fcp) -> Result<Draft, StepFault>
    ensures { ComesTo result (with_row_at draft template row given) }
{
    match row {
        Some(row) => with_row(draft, template, &row, given),
        None => Ok(draft),
    }
}

// The file at a position is made as its row says.
fn with_row_as_is(draft: Draft, template: u8, position: u8) -> Result<Draft, StepFault>
    ensures { ComesTo result
        (with_row_at draft template (row_at template position) no_fields) }
{
    with_row_at(draft, template, row(template, position), no_fields())
}

// The files from one position up to another are made as their rows say.
fn with_rows(draft: Draft, template: u8, from: u8, upto: u8) -> Result<Draft, StepFault>
    ensures { ComesTo result (with_rows template from (upto - from) draft) }
{
    let mut draft = draft;
    for position in from..upto {
        match with_row_as_is(draft, template, position) {
            Ok(made) => draft = made,
            Err(fault) => return Err(fault),
        }
    }
    Ok(draft)
}

fn with_not_given(draft: Draft, template: u8, from: u8, upto: u8) -> Result<Draft, StepFault>
    ensures { ComesTo result (with_not_given template from upto draft) }
{
    if template == 5 {
        return Ok(draft);
    }
    with_rows(draft, template, from, upto)
}

fn just_made(draft: Draft) -> Filled
    ensures { just_made draft ≡ Ok result }
{
    let file = draft.last_file();
    Filled { draft, file }
}

impl TemplateList {
    /// The list of a template's files, of which nothing has come.
    pub fn new(template: u8) -> TemplateList
        ensures { result ≡ template_list template }
    {
        TemplateList {
            template,
            begun: false,
            next: 1,
        }
    }

    /// The list with the template's identifier, `67810F0102` and its number.
    ///
    /// `Malformed`: it stands there again, or a file came before it. `WrongTemplate`: another
    /// value.
    pub fn with_template(self, value: &[u8]) -> Result<TemplateList, ElementFault>
        ensures { result ≡ with_template self value.now }
    {
        if self.begun {
            return Err(ElementFault::Malformed);
        }
        if value == [0x67, 0x81, 0x0F, 0x01, 0x02, self.template].as_slice() {
            Ok(TemplateList {
                begun: true,
                ..self
            })
        } else {
            Err(ElementFault::WrongTemplate)
        }
    }

    // The position that was given last.
    fn present(self) -> u8
        ensures { result ≡ present self }
    {
        self.next.saturating_sub(1)
    }

    fn row_given(self, position: u8, row: Option<Row>) -> Result<Row, ElementFault>
        ensures { result ≡ row_given self position row }
    {
        if !self.begun || position < self.next {
            return Err(ElementFault::Malformed);
        }
        row.ok_or(ElementFault::BadParameter)
    }

    /// The files before a position that is given.
    ///
    /// `Malformed`: no template came, or the positions don't ascend. `BadParameter`: the template
    /// doesn't have the position, or a file before it can't be. `NoRoom`: one exceeds the quota.
    pub fn at_position(self, draft: Draft, position: u8) -> Result<Draft, StepFault>
        ensures { ComesTo result (at_position draft self position) }
    {
        let _row = self.row_given(position, row(self.template, position))?;
        with_not_given(draft, self.template, self.next, position)
    }

    /// The files behind the last position that is given.
    ///
    /// `Malformed`: no template came. `BadParameter`: one of them can't be. `NoRoom`: one exceeds
    /// the quota.
    pub fn at_end(self, draft: Draft) -> Result<Draft, StepFault>
        ensures { ComesTo result (at_list_end draft self) }
    {
        if !self.begun {
            return Err(StepFault::Refused(ElementFault::Malformed));
        }
        with_not_given(draft, self.template, self.next, 31)
    }

    fn with_present(self, draft: Draft, given: Fcp) -> Result<Draft, StepFault>
        ensures { ComesTo result (with_present draft self given) }
    {
        with_row_at(
            draft,
            self.template,
            row(self.template, self.present()),
            given,
        )
    }

    /// `80`: the file at the present position isn't made.
    ///
    /// `Malformed`: it doesn't stand alone, or isn't empty. `BadParameter`: the file is the
    /// template's directory, its application or the MF.
    pub fn left_out(self, parts: FileParts, value: &[u8]) -> Result<FileParts, ElementFault>
        ensures { result ≡ left_out self parts value.now }
    {
        match parts {
            FileParts::Awaited if value.is_empty() => self.may_leave_out(),
            _ => Err(ElementFault::Malformed),
        }
    }

    fn may_leave_out(self) -> Result<FileParts, ElementFault>
        ensures { result ≡ left_out self FileParts.Awaited [] }
    {
        if self.present() == 2 && self.template != 5 {
            Err(ElementFault::BadParameter)
        } else {
            Ok(FileParts::LeftOut)
        }
    }

    // The file, made before its first part but a descriptor.
    fn made_before(self, draft: Draft, parts: FileParts) -> Result<Filled, StepFault>
        ensures { ComesTo result (made_before draft self parts) }
    {
        match parts {
            FileParts::Made(file) => Ok(Filled { draft, file }),
            FileParts::LeftOut => Err(StepFault::Refused(ElementFault::Malformed)),
            FileParts::Awaited => {
                let draft = self.with_present(draft, no_fields())?;
                Ok(just_made(draft))
            }
        }
    }

    /// A part of the file at the present position: `82` skips, `83` is content. Before its first
    /// part but a descriptor the file is made.
    ///
    /// `Malformed`: another part, a number of no or more than two bytes, or a file that isn't made.
    /// `BadParameter`: content past the end, or a file that can't be. `NoRoom`: it exceeds the
    /// quota.
    pub fn with_part(
        self,
        draft: Draft,
        parts: FileParts,
        tag: u32,
        value: &[u8],
    ) -> Result<Filled, StepFault>
        ensures { ComesTo result (with_part draft self parts tag value.now) }
    {
        if tag == 0x82 {
            let done = self.made_before(draft, parts)?;
            return Ok(skipped_in(done, value)?);
        }
        if tag == 0x83 {
            let Filled { draft, file } = self.made_before(draft, parts)?;
            return Ok(draft.fill(file, value)?);
        }
        Err(StepFault::Refused(ElementFault::Malformed))
    }

    /// The file at the present position at the end of its parts: one of which no part came is made
    /// as its row says.
    pub fn at_file_end(self, draft: Draft, parts: FileParts) -> Result<Draft, StepFault>
        ensures { ComesTo result (at_file_end draft self parts) }
    {
        match parts {
            FileParts::Awaited => self.with_present(draft, no_fields()),
            FileParts::LeftOut | FileParts::Made(_) => Ok(draft),
        }
    }

    /// The file at the present position, made with what its descriptor gives.
    ///
    /// `Malformed`: the descriptor has a field that is malformed or stands there again.
    /// `BadParameter`: the file can't be. `NoRoom`: it exceeds the quota.
    pub fn with_descriptor(self, draft: Draft, given: Option<Fcp>) -> Result<Filled, StepFault>
        ensures { ComesTo result (with_descriptor draft self given) }
    {
        match given {
            None => Err(StepFault::Refused(ElementFault::Malformed)),
            Some(given) => {
                let draft = self.with_present(draft, given)?;
                Ok(just_made(draft))
            }
        }
    }
}

fn skipped_in(done: Filled, value: &[u8]) -> Result<Filled, ElementFault>
    ensures { result ≡ skipped_in value.now done }
{
    let count = skip_count(value)?;
    let Filled { draft, file } = done;
    Ok(Filled {
        draft,
        file: file.skip(count),
    })
}

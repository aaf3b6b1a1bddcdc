//! A file of a template, with what its descriptor says of it.
ghost use Rattle.std.specs.Prelude.{◌≡◌};
ghost use Rattle.fcp_codec.specs.Creation.{created_with};
ghost use Rattle.profile_install.specs.TemplateFile.{described_master, descriptor_meant};
ghost use Rattle.profile_install.specs.TemplateFile.{is_kind_kept, is_name_due, made_result};
ghost use Rattle.profile_install.specs.TemplateFile.{making_fault, master_with, parameters_given};
ghost use Rattle.profile_install.specs.TemplateFile.{parameters_of, row_descriptor};

use crate::ElementFault;
use fcp_codec::{CreationFault, Fcp, FileForm, InUse, RuleRef, new_head};
use file_rows::{FileHead, Kind, Life, Name, Path};
use file_templates::Row;
use plain_lists::ShortList;

// The file descriptor of a template's row.
fn row_descriptor(kind: Kind, record_len: u8) -> ShortList<u8, 6>
    ensures { result ≡ row_descriptor kind record_len }
{
    match kind {
        Kind::Master | Kind::Directory | Kind::Application => ShortList::from_slice(&[0x78, 0x21]),
        Kind::Transparent => ShortList::from_slice(&[0x41, 0x21]),
        Kind::Linear => ShortList::from_slice(&[0x42, 0x21, 0, record_len]),
        Kind::Cyclic => ShortList::from_slice(&[0x46, 0x21, 0, record_len]),
    }
}

// The file descriptor that is given, else that of the row.
fn descriptor_meant(row: &Row, given: &Fcp) -> ShortList<u8, 6>
    ensures { result ≡ descriptor_meant row.now given.now }
{
    match given.form() {
        Some(_) => given.descriptor.copy(),
        None => row_descriptor(row.kind, row.record_len),
    }
}

// Whether a descriptor that is given leaves the file the kind of its row.
fn is_kind_kept(kind: Kind, form: Option<FileForm>) -> bool
    ensures { result ≡ is_kind_kept kind form }
{
    match form {
        None => true,
        Some(FileForm::Directory) => kind.holds_files(),
        Some(FileForm::Transparent) => matches!(kind, Kind::Transparent),
        Some(FileForm::Linear { .. }) => matches!(kind, Kind::Linear),
        Some(FileForm::Cyclic { .. }) => matches!(kind, Kind::Cyclic),
    }
}

// Whether a name is given where the file is an application, and nowhere else.
fn is_name_due(kind: Kind, given: &Fcp) -> bool
    ensures { result ≡ is_name_due kind given.now.name }
{
    if kind.is_application() {
        given.name.is_some()
    } else {
        given.name.is_none()
    }
}

// What the descriptor gives, and the rest as the row has it.
fn parameters_given(row: &Row, given: Fcp) -> Fcp
    ensures { result ≡ parameters_given row.now given }
{
    let descriptor = descriptor_meant(row, &given);
    let Fcp {
        descriptor: _given,
        id: _,
        size,
        sfi,
        name,
        life,
        rule,
    } = given;
    Fcp {
        descriptor,
        id: Some(row.id),
        size: Some(size.unwrap_or(u32::from(row.size))),
        sfi: Some(sfi.unwrap_or(row.sfi)),
        name,
        life,
        rule: Some(rule.unwrap_or(RuleRef::Row(row.rule))),
    }
}

/// The control parameters of a template's file: those of the descriptor in the package, and what
/// it doesn't give as the template's row has it. The identifier is always that of the row.
///
/// `BadParameter`: a file descriptor of another kind than the row's, a name at a file that is no
/// application, or an application without one. It takes no memory.
pub fn file_parameters(row: &Row, given: Fcp) -> Result<Fcp, ElementFault>
    ensures { result ≡ parameters_of row.now given }
{
    if !is_kind_kept(row.kind, given.form()) || !is_name_due(row.kind, &given) {
        return Err(ElementFault::BadParameter);
    }
    Ok(parameters_given(row, given))
}

fn making_fault(fault: CreationFault) -> ElementFault
    ensures { result ≡ making_fault fault }
{
    match fault {
        CreationFault::BadParameters | CreationFault::IdInUse | CreationFault::NameInUse => {
            ElementFault::BadParameter
        }
        CreationFault::QuotaExceeded => ElementFault::NoRoom,
    }
}

/// The head of the file that control parameters make in a directory, where `in_use` says what of
/// them is in use there (`fcp_codec::new_head`). It takes no memory.
///
/// `NoRoom`: the quota would be exceeded. `BadParameter`: whatever else CREATE FILE refuses.
pub fn file_head(
    directory: &Path,
    parameters: &Fcp,
    in_use: &InUse,
) -> Result<FileHead, ElementFault>
    ensures { result ≡ made_result (created_with in_use.now directory.now parameters.now) }
{
    match new_head(directory, parameters, in_use) {
        Ok(head) => Ok(head),
        Err(fault) => Err(making_fault(fault)),
    }
}

fn master_with(life: Life, rule: RuleRef) -> FileHead
    ensures { result ≡ master_with life rule }
{
    let path = Path::new();
    let rule = rule.rule(&path);
    FileHead {
        path,
        kind: Kind::Master,
        life,
        sfi: 0,
        name: Name::new(),
        rule: Some(rule),
        record_len: 0,
        size: 0,
    }
}

/// The head of the MF, which is the first file of a content. The descriptor may give its life cycle
/// status and its rule, which else is that of the template's row; a size and an SFI are passed
/// over. It takes no memory.
///
/// `BadParameter`: a file descriptor of an EF, or a name.
pub fn master_head(row: &Row, given: &Fcp) -> Result<FileHead, ElementFault>
    ensures { result ≡ described_master row.now given.now }
{
    if !is_kind_kept(Kind::Master, given.form()) || !is_name_due(Kind::Master, given) {
        return Err(ElementFault::BadParameter);
    }
    let life = given.life.unwrap_or(Life::Active);
    Ok(master_with(life, given.rule.unwrap_or(RuleRef::Row(row.rule))))
}

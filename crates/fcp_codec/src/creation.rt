//! A new file by its control parameters.
ghost use Rattle.std.specs.Prelude.{◌≡◌, ◌≤◌, ◌<◌, ◌+◌, ◌^◌, ◌∷◌, ◌++◌, length, nat_le, option_map};
ghost use Rattle.std.specs.Prelude.{unwrap_or, [], IfSome};
ghost use Rattle.fcp_codec.specs.Creation.{created_with, described_by, head_told, is_good};
ghost use Rattle.fcp_codec.specs.Creation.{is_id_reserved, is_name_of, is_sfi_of, is_size_of};
ghost use Rattle.fcp_codec.specs.Creation.{kind_for, record_len_for, sfi_told, are_records};
ghost use Rattle.fcp_codec.specs.RuleRef.{rule_at};

use crate::fcp::{Fcp, FileForm};
use file_rows::{
    CURRENT_APPLICATION_ID, FileHead, Kind, Life, MASTER_FILE_ID, Name, Path, QUOTA, Rule,
};
use thiserror::Error;

/// Why a file can't be created, in the order in which it is told.
#[derive(Clone, Copy, Debug, PartialEq, Eq, Error)]
pub enum CreationFault {
    /// A field is missing, or there is no such file in the directory.
    #[error("the file control parameters describe no file that may be there")]
    BadParameters,
    /// A file of the directory has the identifier.
    #[error("the file identifier is in use in the directory")]
    IdInUse,
    /// An application has the name.
    #[error("the name is in use")]
    NameInUse,
    /// The files would take more than the quota.
    #[error("the quota is exceeded")]
    QuotaExceeded,
}

/// What of the parameters of a new file is in use.
#[derive(Clone, Copy, Debug)]
pub struct InUse {
    /// A file of the directory has the identifier.
    pub id: bool,
    /// A file of the directory has the SFI that is meant (`Fcp::sfi_meant`).
    pub sfi: bool,
    /// An application has exactly this name.
    pub name: bool,
    /// How much of the quota the files take.
    pub bytes: u32,
}

/// What parameters say of a new file.
#[derive(Clone, Copy)]
struct Described {
    form: FileForm,
    id: u16,
    // 0 for a directory.
    size: u32,
}

// What of it the parameters say, where neither the descriptor, the identifier nor the size is
// missing.
fn described_by(fcp: &Fcp) -> Option<Described>
    ensures { result ≡ described_by fcp.now }
{
    let form = fcp.form()?;
    let id = fcp.id?;
    let size = if form.is_directory() { 0 } else { fcp.size? };
    Some(Described { form, id, size })
}

fn kind_for(form: FileForm, named: bool) -> Kind
    ensures { result ≡ kind_for form named }
{
    match form {
        FileForm::Directory if named => Kind::Application,
        FileForm::Directory => Kind::Directory,
        FileForm::Transparent => Kind::Transparent,
        FileForm::Linear { .. } => Kind::Linear,
        FileForm::Cyclic { .. } => Kind::Cyclic,
    }
}

fn record_len_for(form: FileForm) -> u8
    requires { record_len_for form < 2 ^ 8 }
    ensures { result ≡ record_len_for form }
{
    match form {
        FileForm::Directory | FileForm::Transparent => 0,
        FileForm::Linear { record_len } => record_len as u8,
        FileForm::Cyclic { record_len } => record_len as u8,
    }
}

// The SFI of the new file.
fn sfi_told(in_use: &InUse, form: FileForm, fcp: &Fcp) -> u8
    ensures { result ≡ sfi_told in_use.now form fcp.now }
{
    if form.is_directory() || fcp.sfi.is_none() && in_use.sfi {
        return 0;
    }
    fcp.sfi_meant()
}

fn name_told(fcp: &Fcp) -> Name
    requires { IfSome fcp.now.name (λ name. length name ≤ 16) }
    ensures { result ≡ unwrap_or fcp.now.name [] }
{
    match &fcp.name {
        Some(name) => Name::from_slice(name.as_slice()),
        None => Name::new(),
    }
}

fn path_told(directory: &Path, id: u16) -> Path
    requires { length directory.now ≤ 3 }
    ensures { result ≡ directory.now ++ id ∷ [] }
{
    let mut path = directory.copy();
    path.push(id);
    path
}

fn rule_told(fcp: &Fcp, path: &Path) -> Option<Rule>
    ensures { result ≡ option_map (λ rule. rule_at rule path.now) fcp.now.rule }
{
    match fcp.rule {
        Some(rule) => Some(rule.rule(path)),
        None => None,
    }
}

fn head_told(in_use: &InUse, directory: &Path, fcp: &Fcp, told: Described) -> FileHead
    requires depth { length directory.now ≤ 3 }
    requires name { IfSome fcp.now.name (λ name. length name ≤ 16) }
    requires size { told.size < 2 ^ 16 }
    requires record_len { record_len_for told.form < 2 ^ 8 }
    ensures { result ≡ head_told in_use.now directory.now fcp.now told }
{
    let path = path_told(directory, told.id);
    let rule = rule_told(fcp, &path);
    FileHead {
        path,
        kind: kind_for(told.form, fcp.name.is_some()),
        life: fcp.life.unwrap_or(Life::Active),
        sfi: sfi_told(in_use, told.form, fcp),
        name: name_told(fcp),
        rule,
        record_len: record_len_for(told.form),
        size: told.size as u16,
    }
}

fn is_id_reserved(id: u16) -> bool
    ensures { result ≡ is_id_reserved id }
{
    id == MASTER_FILE_ID || id == CURRENT_APPLICATION_ID
}

fn are_records(record_len: u16, size: u32) -> bool
    ensures { result ≡ are_records record_len size }
{
    if record_len < 1 || record_len > 255 {
        return false;
    }
    let length = u32::from(record_len);
    size % length == 0 && matches!(size / length, 1..=254)
}

fn is_size_of(form: FileForm, size: u32) -> bool
    ensures { result ≡ is_size_of form size }
{
    match form {
        FileForm::Directory => size == 0,
        FileForm::Transparent => matches!(size, 1..=65_504),
        FileForm::Linear { record_len } => are_records(record_len, size),
        FileForm::Cyclic { record_len } => are_records(record_len, size),
    }
}

fn is_name_of(form: FileForm, directory: &Path, fcp: &Fcp) -> bool
    ensures { result ≡ is_name_of form directory.now fcp.now.name }
{
    match &fcp.name {
        Some(name) => {
            form.is_directory() && directory.len() == 0 && matches!(name.len(), 5..=16)
        }
        None => true,
    }
}

fn is_sfi_of(in_use: &InUse, form: FileForm, sfi: Option<u8>) -> bool
    ensures { result ≡ is_sfi_of in_use.now form sfi }
{
    match sfi {
        Some(sfi) => form.is_directory() || sfi <= 30 && !in_use.sfi,
        None => true,
    }
}

// Whether there may be such a file in the directory.
fn is_good(in_use: &InUse, directory: &Path, fcp: &Fcp, told: &Described) -> bool
    ensures { result ≡ is_good in_use.now directory.now fcp.now told.now }
{
    !is_id_reserved(told.id)
        && directory.len() <= 3
        && is_name_of(told.form, directory, fcp)
        && is_size_of(told.form, told.size)
        && is_sfi_of(in_use, told.form, fcp.sfi)
}

fn is_in_quota(in_use: &InUse, told: &Described) -> bool
    ensures { result ≡ nat_le (in_use.now.bytes + (told.now.size + 32)) 65536 }
{
    u64::from(in_use.bytes) + (u64::from(told.size) + 32) <= u64::from(QUOTA)
}

/// The head of the file that file control parameters make in a directory (ETSI TS 102 222, CREATE
/// FILE), where `in_use` says what of them is in use there. Nothing is looked up and no memory
/// taken.
///
/// `BadParameters`: the descriptor, the identifier or the size of an EF is missing; the identifier
/// is `3F00` or `7FFF`; the file would stand more than four identifiers below the MF; a name isn't
/// one of 5 to 16 bytes for a directory under the MF; a transparent file doesn't have 1 to 65,504
/// bytes, or a record file 1 to 254 records of 1 to 255 bytes; the given SFI is in use. After that
/// `IdInUse`, `NameInUse` and `QuotaExceeded`, in this order.
///
/// A directory with a name is an application; the size and the SFI are passed over at a directory.
/// Without a field for it the SFI is the five low bits of the identifier where they are 1 to 30 and
/// free in the directory, else there is none.
pub fn new_head(directory: &Path, fcp: &Fcp, in_use: &InUse) -> Result<FileHead, CreationFault>
    ensures { result ≡ created_with in_use.now directory.now fcp.now }
{
    let Some(told) = described_by(fcp) else {
        return Err(CreationFault::BadParameters);
    };
    if !is_good(in_use, directory, fcp, &told) {
        return Err(CreationFault::BadParameters);
    }
    if in_use.id {
        return Err(CreationFault::IdInUse);
    }
    if in_use.name {
        return Err(CreationFault::NameInUse);
    }
    if !is_in_quota(in_use, &told) {
        return Err(CreationFault::QuotaExceeded);
    }
    Ok(head_told(in_use, directory, fcp, told))
}

// A write into a file, read where it lies in the coding of its record.
ghost use Rattle.std.specs.Prelude.{◌≡◌, ◌≢◌, ℕ, List, Some, IfNone, IfOk, IfSome, IsErrOf};
ghost use Rattle.record_codec.specs.FileWrite.{WritesFile, change_of_write, record_of_write};
ghost use Rattle.record_codec.specs.Reading.{change_of, record_read, record_tagged};
ghost use Rattle.record_codec.specs.Returns.{Returns};
ghost use Rattle.record_codec.specs.Sizes.{Codes};
ghost use Rattle.record_codec.specs.declared.record.Record.{Record};

use crate::RecordFault;
use crate::read_fields::{byte_of, number2_of, string_of};
use crate::read_files::path_of;
use file_rows::Path;

/// Where the bytes go: from an offset in the body on, or into the record of a number, counted from
/// 1, where 0 is a new record of a cyclic file.
#[derive(Clone, Copy, Debug)]
pub enum WritePlace {
    Offset(u16),
    Number(u8),
}

/// Bytes for a file of a profile, borrowed from the coding of their record.
#[derive(Debug, Drop)]
pub struct FileWrite<'a> {
    pub profile: u16,
    pub path: Path,
    pub place: WritePlace,
    pub bytes: &'a [u8],
}

fn range_of(profile: u16, bytes: &[u8]) -> Result<(FileWrite<'_>, &[u8]), RecordFault>
    ensures profile { IfOk result (λ x. x.0.profile ≡ profile) }
    ensures read { Returns (λ x. (change_of_write x.0, x.1.now)) result (change_of 0 bytes.now) }
    ensures known { ¬ IsErrOf result RecordFault.NoMemory }
{
    let (path, rest) = path_of(bytes)?;
    let (offset, rest) = number2_of(rest)?;
    let (bytes, rest) = string_of(255, rest)?;
    let write = FileWrite {
        profile,
        path,
        place: WritePlace::Offset(offset),
        bytes,
    };
    Ok((write, rest))
}

fn record_of(profile: u16, bytes: &[u8]) -> Result<(FileWrite<'_>, &[u8]), RecordFault>
    ensures profile { IfOk result (λ x. x.0.profile ≡ profile) }
    ensures read { Returns (λ x. (change_of_write x.0, x.1.now)) result (change_of 1 bytes.now) }
    ensures known { ¬ IsErrOf result RecordFault.NoMemory }
{
    let (path, rest) = path_of(bytes)?;
    let (number, rest) = byte_of(rest)?;
    let (bytes, rest) = string_of(255, rest)?;
    let write = FileWrite {
        profile,
        path,
        place: WritePlace::Number(number),
        bytes,
    };
    Ok((write, rest))
}

// The write behind the kind byte of its record.
#[tactic(auto, unfolding(crate::specs::Reading::change_at))]
fn content_of(bytes: &[u8]) -> Result<(FileWrite<'_>, &[u8]), RecordFault>
    ensures read { IfOk result (λ x.
        record_tagged 3 bytes.now ≡ Some (record_of_write x.0, x.1.now)) }
    ensures none { IsErrOf result RecordFault.NotARecord
        → (entry : Record) (rest : List ℕ) → WritesFile entry
        → record_tagged 3 bytes.now ≢ Some (entry, rest) }
    ensures known { ¬ IsErrOf result RecordFault.NoMemory }
{
    let (profile, rest) = number2_of(bytes)?;
    match rest {
        [0, rest @ ..] => range_of(profile, rest),
        [1, rest @ ..] => record_of(profile, rest),
        _ => Err(RecordFault::NotARecord),
    }
}

// The write at the start of the bytes.
#[tactic(auto, unfolding(crate::specs::Reading::record_read))]
fn write_of(bytes: &[u8]) -> Result<(FileWrite<'_>, &[u8]), RecordFault>
    ensures read { IfOk result (λ x. record_read bytes.now ≡ Some (record_of_write x.0, x.1.now)) }
    ensures none { IsErrOf result RecordFault.NotARecord
        → (entry : Record) (rest : List ℕ) → WritesFile entry
        → record_read bytes.now ≢ Some (entry, rest) }
    ensures known { ¬ IsErrOf result RecordFault.NoMemory }
{
    match bytes {
        [3, rest @ ..] => content_of(rest),
        _ => Err(RecordFault::NotARecord),
    }
}

/// The write into a file whose record these bytes code, all of them, or none where they code no
/// record or one that doesn't write into a file. It takes no memory and copies no bytes.
pub fn read_file_write(bytes: &[u8]) -> Option<FileWrite<'_>>
    ensures found { IfSome result (λ write. Codes bytes.now (record_of_write write)) }
    ensures none { IfNone result ((entry : Record) → WritesFile entry → ¬ Codes bytes.now entry) }
{
    let Ok((write, rest)) = write_of(bytes) else {
        return None;
    };
    if !rest.is_empty() {
        return None;
    }
    Some(write)
}

// The fields of records, read from their bytes: a value and the bytes behind it.
ghost use Rattle.std.specs.Prelude.{◌≡◌, ◌<◌, ◌≤◌, ◌^◌, length, IfOk, IsErrOf};
ghost use Rattle.std.specs.Int.{w16, w32, w64};
ghost use Rattle.record_codec.specs.Returns.{Returns};
ghost use Rattle.record_codec.specs.Reading.{byte_at, flag_of, items_at, kind_of, life_read};
ghost use Rattle.record_codec.specs.Reading.{mode_of, number_at, one_at, operation_of, option_at};
ghost use Rattle.record_codec.specs.Reading.{path_at, plain_at, rule_read, string_at};

use crate::RecordFault;
use file_rows::{Kind, Life, Path, Rule};
use notify_list::Operation;
use plain_lists::ShortList;
use port_table::PortMode;

pub fn byte_of(bytes: &[u8]) -> Result<(u8, &[u8]), RecordFault>
    ensures read { Returns (λ x. (x.0, x.1.now)) result (byte_at bytes.now) }
    ensures known { ¬ IsErrOf result RecordFault.NoMemory }
{
    match bytes {
        [byte, rest @ ..] => Ok((*byte, rest)),
        [] => Err(RecordFault::NotARecord),
    }
}

pub fn plain_of(count: usize, bytes: &[u8]) -> Result<(&[u8], &[u8]), RecordFault>
    ensures read { Returns (λ x. (x.0.now, x.1.now)) result (plain_at count bytes.now) }
    ensures exact { IfOk result (λ x. length x.0.now ≡ count) }
    ensures known { ¬ IsErrOf result RecordFault.NoMemory }
{
    if bytes.len() < count {
        return Err(RecordFault::NotARecord);
    }
    Ok(bytes.split_at(count))
}

pub fn number2_of(bytes: &[u8]) -> Result<(u16, &[u8]), RecordFault>
    ensures read { Returns (λ x. (x.0, x.1.now)) result (number_at w16 bytes.now) }
    ensures known { ¬ IsErrOf result RecordFault.NoMemory }
{
    if bytes.len() < 2 {
        return Err(RecordFault::NotARecord);
    }
    let (its, rest) = bytes.split_at(2);
    Ok((u16::from_be_bytes([its[0], its[1]]), rest))
}

pub fn number4_of(bytes: &[u8]) -> Result<(u32, &[u8]), RecordFault>
    ensures { Returns (λ x. (x.0, x.1.now)) result (number_at w32 bytes.now) }
{
    if bytes.len() < 4 {
        return Err(RecordFault::NotARecord);
    }
    let (its, rest) = bytes.split_at(4);
    Ok((u32::from_be_bytes([its[0], its[1], its[2], its[3]]), rest))
}

pub fn number8_of(bytes: &[u8]) -> Result<(u64, &[u8]), RecordFault>
    ensures { Returns (λ x. (x.0, x.1.now)) result (number_at w64 bytes.now) }
{
    if bytes.len() < 8 {
        return Err(RecordFault::NotARecord);
    }
    let (its, rest) = bytes.split_at(8);
    let number = u64::from_be_bytes([
        its[0], its[1], its[2], its[3], its[4], its[5], its[6], its[7],
    ]);
    Ok((number, rest))
}

#[tactic(auto, unfolding(crate::specs::Reading::string_at))]
pub fn string_of(most: u16, bytes: &[u8]) -> Result<(&[u8], &[u8]), RecordFault>
    ensures read { Returns (λ x. (x.0.now, x.1.now)) result (string_at most bytes.now) }
    ensures few { IfOk result (λ x. length x.0.now ≤ most) }
    ensures known { ¬ IsErrOf result RecordFault.NoMemory }
{
    let (count, rest) = number2_of(bytes)?;
    if count > most {
        return Err(RecordFault::NotARecord);
    }
    plain_of(usize::from(count), rest)
}

#[tactic(auto, unfolding(crate::specs::Reading::string_at))]
pub fn text_of<const CAP: usize>(bytes: &[u8]) -> Result<(ShortList<u8, CAP>, &[u8]), RecordFault>
    requires { CAP < 2 ^ 16 }
    ensures { Returns (λ x. (x.0, x.1.now)) result (string_at CAP bytes.now) }
{
    let (count, rest) = number2_of(bytes)?;
    if usize::from(count) > CAP {
        return Err(RecordFault::NotARecord);
    }
    let (text, rest) = plain_of(usize::from(count), rest)?;
    Ok((ShortList::from_slice(text), rest))
}

pub fn flag_of(bytes: &[u8]) -> Result<(bool, &[u8]), RecordFault>
    ensures { Returns (λ x. (x.0, x.1.now)) result (one_at flag_of bytes.now) }
{
    match bytes {
        [0, rest @ ..] => Ok((false, rest)),
        [1, rest @ ..] => Ok((true, rest)),
        _ => Err(RecordFault::NotARecord),
    }
}

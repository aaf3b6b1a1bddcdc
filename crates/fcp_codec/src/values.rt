//! What the values of the fields say, where they are well formed.
ghost use Rattle.std.specs.Prelude.{◌≡◌, ◌+◌, ◌*◌};
ghost use Rattle.fcp_codec.specs.Values as values;
ghost use Rattle.fcp_codec.specs.FileForm as forms;
ghost use Rattle.fcp_codec.specs.RuleRef as rules;

use crate::fcp::{FileForm, RuleRef};
use file_rows::{Life, Rule};
use plain_lists::ShortList;

fn word(high: u8, low: u8) -> u16
    ensures { result ≡ high * 256 + low }
{
    u16::from(high) * 256 + u16::from(low)
}

pub fn form_of(bytes: &[u8]) -> Option<FileForm>
    ensures { result ≡ forms.form_of bytes.now }
{
    match bytes {
        [0x41, 0x21] => Some(FileForm::Transparent),
        [0x78, 0x21] => Some(FileForm::Directory),
        [0x42, 0x21, high, low] | [0x42, 0x21, high, low, _] => Some(FileForm::Linear {
            record_len: word(*high, *low),
        }),
        [0x46, 0x21, high, low] | [0x46, 0x21, high, low, _] => Some(FileForm::Cyclic {
            record_len: word(*high, *low),
        }),
        _ => None,
    }
}

pub fn descriptor_of(bytes: &[u8]) -> Option<ShortList<u8, 6>>
    ensures { result ≡ values.descriptor_of bytes.now }
{
    form_of(bytes).map(|_| ShortList::from_slice(bytes))
}

pub fn id_of(bytes: &[u8]) -> Option<u16>
    ensures { result ≡ values.id_of bytes.now }
{
    match bytes {
        [high, low] => Some(word(*high, *low)),
        _ => None,
    }
}

pub fn size_of(bytes: &[u8]) -> Option<u32>
    ensures { result ≡ values.size_of bytes.now }
{
    match bytes {
        [low] => Some(u32::from(*low)),
        [high, low] => Some(u32::from(word(*high, *low))),
        [high, middle, low] => Some(u32::from(word(*high, *middle)) * 256 + u32::from(*low)),
        _ => None,
    }
}

pub fn sfi_of(bytes: &[u8]) -> Option<u8>
    ensures { result ≡ values.sfi_of bytes.now }
{
    match bytes {
        [] => Some(0),
        [byte] if *byte % 8 == 0 && *byte / 8 <= 30 => Some(*byte / 8),
        _ => None,
    }
}

pub fn name_of(bytes: &[u8]) -> Option<ShortList<u8, 17>>
    ensures { result ≡ values.name_of bytes.now }
{
    Some(ShortList::from_slice(&bytes[..bytes.len().min(17)]))
}

pub fn life_of(bytes: &[u8]) -> Option<Life>
    ensures { result ≡ values.life_of bytes.now }
{
    match bytes {
        [0x01 | 0x03 | 0x05] => Some(Life::Active),
        [0x04] => Some(Life::Deactivated),
        [0x0C] => Some(Life::Terminated),
        _ => None,
    }
}

pub fn rule_of(bytes: &[u8]) -> Option<RuleRef>
    ensures { result ≡ rules.rule_of bytes.now }
{
    match bytes {
        [row] => Some(RuleRef::Row(*row)),
        [high, low, row] => Some(RuleRef::Whole(Rule {
            file: word(*high, *low),
            row: *row,
        })),
        [high, low, _, row, pairs @ ..] if pairs.len() % 2 == 0 => Some(RuleRef::Whole(Rule {
            file: word(*high, *low),
            row: *row,
        })),
        _ => None,
    }
}

ghost use Rattle.std.specs.Prelude.{◌≡◌, ◌<◌, ◌^◌, length};
ghost use Rattle.card_journal.specs.RecordSizes.{HasSizes-prop};
ghost use Rattle.record_codec.specs.Sizes.{Codes, HasCoding, HasSizes};
ghost use Rattle.record_codec.specs.Spelling.{spelling};

use flash_pages::Body;
use record_codec::{Record, put_record, record_len};

/// A record as the body of a row: its coding, streamed from the record. It takes no memory.
#[derive(Drop)]
pub struct RecordBody<'a> {
    entry: &'a Record,
    len: u32,
    ghost sizes: { HasSizes entry.now } by { HasSizes-prop entry.now },
    ghost counted: { len ≡ length (spelling entry.now) },
}

impl<'a> RecordBody<'a> {
    ghost use Rattle.card_journal.specs.RecordBody.{coding_of};

    /// The body of a row that holds this record.
    pub fn new(entry: &'a Record) -> Self
        requires sizes { HasSizes entry.now }
        requires few { HasCoding entry.now → length (spelling entry.now) < 2 ^ 32 }
        ensures coding { coding_of result ≡ spelling entry.now }
        ensures codes { Codes (spelling entry.now) entry.now }
    {
        RecordBody {
            entry,
            len: record_len(entry),
        }
    }
}

impl Body for RecordBody<'_> {
    ghost use Rattle.card_journal.specs.RecordBody.{coding_of};

    ghost bytes = { coding_of };

    fn len(&self) -> u32 {
        self.len
    }

    fn fill(&self, at: u32, out: &mut [u8]) -> usize {
        put_record(self.entry, at, out)
    }
}

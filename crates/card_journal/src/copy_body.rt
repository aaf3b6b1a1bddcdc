ghost use Rattle.std.specs.Prelude.{◌≡◌, ◌<◌, ◌^◌, length};
ghost use Rattle.card_journal.specs.RecordSizes.{HasSizes-prop};
ghost use Rattle.record_codec.specs.CopyRecord.{record_of};
ghost use Rattle.record_codec.specs.Sizes.{Codes, HasCoding, HasSizes};
ghost use Rattle.record_codec.specs.Spelling.{spelling};

use flash_pages::Body;
use record_codec::{CopyRecord, copy_record_len, put_copy_record};

/// A record of a card's copy as the body of a row, streamed from the card as it is held. It takes
/// no memory.
#[derive(Drop)]
pub struct CopyBody<'a> {
    entry: CopyRecord<'a>,
    len: u32,
    ghost sizes: { HasSizes (record_of entry) } by { HasSizes-prop (record_of entry) },
    ghost counted: { len ≡ length (spelling (record_of entry)) },
}

impl<'a> CopyBody<'a> {
    ghost use Rattle.card_journal.specs.CopyBody.{copy_coding};

    /// The body of a row that holds this record.
    pub fn new(entry: CopyRecord<'a>) -> Self
        requires sizes { HasSizes (record_of entry) }
        requires few { HasCoding (record_of entry)
            → length (spelling (record_of entry)) < 2 ^ 32 }
        ensures coding { copy_coding result ≡ spelling (record_of entry.entry) }
        ensures codes { Codes (spelling (record_of entry.entry)) (record_of entry.entry) }
    {
        let len = copy_record_len(&entry);
        CopyBody { entry, len }
    }
}

impl Body for CopyBody<'_> {
    ghost use Rattle.card_journal.specs.CopyBody.{copy_coding};

    ghost bytes = { copy_coding };

    fn len(&self) -> u32 {
        self.len
    }

    fn fill(&self, at: u32, out: &mut [u8]) -> usize {
        put_copy_record(&self.entry, at, out)
    }
}

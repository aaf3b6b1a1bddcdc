// The records of a card's copy, put from the card as it is held.
ghost use Rattle.std.specs.Prelude.{◌≡◌, ◌<◌, ◌-◌, ◌^◌, ◌++◌, length, take, drop, min};
ghost use Rattle.record_codec.specs.CopyRecord.{record_of};
ghost use Rattle.record_codec.specs.Sizes.{Codes, HasCoding, HasSizes};
ghost use Rattle.record_codec.specs.Spelling.{spelling};
ghost use Rattle.record_codec.specs.Window.{Puts};

use crate::copy_record::CopyRecord;
use crate::window::Place;
use crate::writing::{put_pooled_profile, put_put_card};

fn put_copied(entry: &CopyRecord<'_>, place: &mut Place, out: &mut [u8])
    requires { HasSizes (record_of entry.now) }
    ensures puts { Puts (spelling (record_of entry.now)) place.old out.old place.new out.new }
    ensures sizes { HasCoding (record_of entry.now) }
{
    match entry {
        CopyRecord::Card(heads) => put_put_card(
            heads.ports.mode,
            heads.ports.count,
            &heads.eid,
            heads.next_number,
            heads.notes.next(),
            heads.notes.list(),
            place,
            out,
        ),
        CopyRecord::Profile {
            head,
            files,
            pins,
            port,
        } => put_pooled_profile(head, files, pins, *port, place, out),
    }
}

/// The number of bytes of the record's coding. It takes no memory.
pub fn copy_record_len(entry: &CopyRecord<'_>) -> u32
    requires sizes { HasSizes (record_of entry.now) }
    requires few { HasCoding (record_of entry.now)
        → length (spelling (record_of entry.now)) < 2 ^ 32 }
    ensures len { result ≡ length (spelling (record_of entry.now)) }
    ensures codes { Codes (spelling (record_of entry.now)) (record_of entry.now) }
{
    let mut place = Place {
        skip: u32::MAX as usize,
        filled: 0,
    };
    put_copied(entry, &mut place, &mut []);
    u32::MAX - place.skip as u32
}

/// Copies the record's coding from place `at` on to the start of `out`, as many bytes as both have,
/// and returns their number. It takes no memory.
pub fn put_copy_record(entry: &CopyRecord<'_>, at: u32, out: &mut [u8]) -> usize
    requires { HasSizes (record_of entry.now) }
    ensures count { result
        ≡ min (length out.old) (length (spelling (record_of entry.now)) - at) }
    ensures filled { out.new
        ≡ take result (drop at (spelling (record_of entry.now))) ++ drop result out.old }
{
    let mut place = Place {
        skip: at as usize,
        filled: 0,
    };
    put_copied(entry, &mut place, out);
    place.filled
}

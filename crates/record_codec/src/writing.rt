// Records as bytes, from any place on.
ghost use Rattle.std.specs.Prelude.{◌≡◌, ◌≤◌, ◌<◌, ◌-◌, ◌^◌, ◌++◌, length, take, drop, min, false};
ghost use Rattle.std.specs.Prelude.{IfSome};
ghost use Rattle.std.specs.List.{AllByRecursion, flat_map};
ghost use Rattle.record_codec.specs.Fields.{◌&◌, byte, flag, list, number2, number4, number8};
ghost use Rattle.record_codec.specs.Fields.{option, plain, string};
ghost use Rattle.record_codec.specs.Pooled.{files_pooled};
ghost use Rattle.record_codec.specs.Sizes.{Codes, HasCoding, HasSizes, IsByte, IsChange};
ghost use Rattle.record_codec.specs.Sizes.{HasFileSizes, IsList, IsNote, IsNumber2, IsNumber4};
ghost use Rattle.record_codec.specs.Sizes.{IsNumber8, HasPinSizes, IsPlain, IsProfileHead};
ghost use Rattle.record_codec.specs.Sizes.{IsString};
ghost use Rattle.record_codec.specs.Spelling.{coded_change, file, mode, note, pin, profile_head};
ghost use Rattle.record_codec.specs.Spelling.{spelling};
ghost use Rattle.record_codec.specs.Window.{Puts};

use crate::pooled::put_pooled_list;
use crate::put::{put_file, put_mode, put_note, put_numbers, put_pin, put_profile_head, put_text};
use crate::put_change::put_change;
use crate::window::{Place, put, put_byte, put_flag, put_number2, put_number4, put_number8};
use crate::{Label, Numbers, PooledFiles, ProfileHead, Record};
use file_rows::{Change, Content, FileRow, PinRow};
use notify_list::Note;
use plain_lists::LongList;
use port_table::PortMode;

fn put_notes(notes: &[Note], place: &mut Place, out: &mut [u8])
    ensures puts { Puts (flat_map note notes.now) place.old out.old place.new out.new }
    ensures sizes { AllByRecursion IsNote notes.now }
{
    for its in notes {
        put_note(its, place, out);
    }
}

fn put_pins(pins: &[PinRow], place: &mut Place, out: &mut [u8])
    ensures puts { Puts (flat_map pin pins.now) place.old out.old place.new out.new }
    ensures sizes { AllByRecursion HasPinSizes pins.now }
{
    for row in pins {
        put_pin(row, place, out);
    }
}

fn put_files(rows: &[FileRow], place: &mut Place, out: &mut [u8])
    requires { AllByRecursion (λ row. length row.body ≡ row.head.size) rows.now }
    ensures puts { Puts (flat_map file rows.now) place.old out.old place.new out.new }
    ensures sizes { AllByRecursion HasFileSizes rows.now }
{
    for row in rows {
        put_file(row, place, out);
    }
}

fn put_note_list(notes: &[Note], place: &mut Place, out: &mut [u8])
    requires { length notes.now ≤ 65535 }
    ensures puts { Puts (list note notes.now) place.old out.old place.new out.new }
    ensures sizes { IsList 65535 IsNote notes.now }
{
    put_number2(notes.len() as u16, place, out);
    put_notes(notes, place, out);
}

fn put_pin_list(pins: &[PinRow], place: &mut Place, out: &mut [u8])
    requires { length pins.now ≤ 65535 }
    ensures puts { Puts (list pin pins.now) place.old out.old place.new out.new }
    ensures sizes { IsList 65535 HasPinSizes pins.now }
{
    put_number2(pins.len() as u16, place, out);
    put_pins(pins, place, out);
}

fn put_file_list(rows: &LongList<FileRow>, place: &mut Place, out: &mut [u8])
    requires few { length rows.now ≤ 65535 }
    requires bodies { AllByRecursion (λ row. length row.body ≡ row.head.size) rows.now }
    ensures puts { Puts (list file rows.now) place.old out.old place.new out.new }
    ensures sizes { IsList 65535 HasFileSizes rows.now }
{
    put_number2(rows.len() as u16, place, out);
    put_files(rows.as_slice(), place, out);
}

fn put_number_list(numbers: &Numbers, place: &mut Place, out: &mut [u8])
    ensures puts { Puts (list number2 numbers.now) place.old out.old place.new out.new }
    ensures sizes { IsList 16 IsNumber2 numbers.now }
{
    put_number2(numbers.len() as u16, place, out);
    put_numbers(numbers.as_slice(), place, out);
}

fn put_port_option(found: Option<u8>, place: &mut Place, out: &mut [u8])
    ensures puts { Puts (option byte found) place.old out.old place.new out.new }
    ensures sizes { IfSome found IsByte }
{
    match found {
        Some(port) => {
            put_byte(1, place, out);
            put_byte(port, place, out);
        }
        None => put_byte(0, place, out),
    }
}

fn put_number_option(found: Option<u16>, place: &mut Place, out: &mut [u8])
    ensures puts { Puts (option number2 found) place.old out.old place.new out.new }
    ensures sizes { IfSome found IsNumber2 }
{
    match found {
        Some(number) => {
            put_byte(1, place, out);
            put_number2(number, place, out);
        }
        None => put_byte(0, place, out),
    }
}

fn put_card(how: PortMode, ports: u8, eid: &[u8; 16], place: &mut Place, out: &mut [u8])
    ensures puts { Puts (byte 1 & mode how & byte ports & plain eid.now)
        place.old out.old place.new out.new }
    ensures sizes { IsByte ports × IsPlain 16 eid.now }
{
    put_byte(1, place, out);
    put_mode(how, place, out);
    put_byte(ports, place, out);
    put(eid, place, out);
}

fn put_card_notes(
    next_number: u32,
    next_note: u64,
    notes: &[Note],
    place: &mut Place,
    out: &mut [u8],
)
    requires { length notes.now ≤ 65535 }
    ensures puts { Puts (number4 next_number & number8 next_note & list note notes.now)
        place.old out.old place.new out.new }
    ensures sizes { IsNumber4 next_number × IsNumber8 next_note × IsList 65535 IsNote notes.now }
{
    put_number4(next_number, place, out);
    put_number8(next_note, place, out);
    put_note_list(notes, place, out);
}

// Puts all of a profile's record before its files.
fn put_profile_front(
    installation: bool,
    head: &ProfileHead,
    port: Option<u8>,
    place: &mut Place,
    out: &mut [u8],
)
    ensures puts { Puts (byte 2 & flag installation & profile_head head.now & option byte port)
        place.old out.old place.new out.new }
    ensures sizes { IsProfileHead head.now × IfSome port IsByte }
{
    put_byte(2, place, out);
    put_flag(installation, place, out);
    put_profile_head(head, place, out);
    put_port_option(port, place, out);
}

fn put_profile(
    installation: bool,
    head: &ProfileHead,
    content: &Content,
    port: Option<u8>,
    place: &mut Place,
    out: &mut [u8],
)
    requires files { length content.now.rows ≤ 65535 }
    requires pins { length content.now.pins ≤ 65535 }
    requires bodies { AllByRecursion
        (λ row. length row.body ≡ row.head.size) content.now.rows }
    ensures puts { Puts (byte 2 & flag installation & profile_head head.now
        & option byte port
        & list file content.now.rows & list pin content.now.pins)
        place.old out.old place.new out.new }
    ensures sizes { IsProfileHead head.now × IfSome port IsByte
        × IsList 65535 HasFileSizes content.now.rows
        × IsList 65535 HasPinSizes content.now.pins }
{
    put_profile_front(installation, head, port, place, out);
    put_file_list(&content.rows, place, out);
    put_pin_list(content.pins.as_slice(), place, out);
}

// Puts a profile that was held before, whose files are these.
pub(crate) fn put_pooled_profile(
    head: &ProfileHead,
    files: &PooledFiles<'_>,
    pins: &[PinRow],
    port: Option<u8>,
    place: &mut Place,
    out: &mut [u8],
)
    requires files { length (files_pooled files.now) ≤ 65535 }
    requires pins { length pins.now ≤ 65535 }
    requires bodies { AllByRecursion
        (λ row. length row.body ≡ row.head.size) (files_pooled files.now) }
    ensures puts { Puts (byte 2 & flag false & profile_head head.now & option byte port
        & list file (files_pooled files.now) & list pin pins.now)
        place.old out.old place.new out.new }
    ensures sizes { IsProfileHead head.now × IfSome port IsByte
        × IsList 65535 HasFileSizes (files_pooled files.now) × IsList 65535 HasPinSizes pins.now }
{
    put_profile_front(false, head, port, place, out);
    put_pooled_list(files, place, out);
    put_pin_list(pins, place, out);
}

fn put_content(profile: u16, its: &Change, place: &mut Place, out: &mut [u8])
    ensures puts { Puts (byte 3 & number2 profile & coded_change its.now)
        place.old out.old place.new out.new }
    ensures sizes { IsNumber2 profile × IsChange its.now }
{
    put_byte(3, place, out);
    put_number2(profile, place, out);
    put_change(its, place, out);
}

fn put_bind(profile: u16, port: u8, displaced: Option<u16>, place: &mut Place, out: &mut [u8])
    ensures puts { Puts (byte 4 & number2 profile & byte port & option number2 displaced)
        place.old out.old place.new out.new }
    ensures sizes { IsNumber2 profile × IsByte port × IfSome displaced IsNumber2 }
{
    put_byte(4, place, out);
    put_number2(profile, place, out);
    put_byte(port, place, out);
    put_number_option(displaced, place, out);
}

fn put_unbind(profile: u16, place: &mut Place, out: &mut [u8])
    ensures puts { Puts (byte 5 & number2 profile) place.old out.old place.new out.new }
    ensures sizes { IsNumber2 profile }
{
    put_byte(5, place, out);
    put_number2(profile, place, out);
}

fn put_gone(profiles: &Numbers, place: &mut Place, out: &mut [u8])
    ensures puts { Puts (byte 6 & list number2 profiles.now) place.old out.old place.new out.new }
    ensures sizes { IsList 16 IsNumber2 profiles.now }
{
    put_byte(6, place, out);
    put_number_list(profiles, place, out);
}

fn put_name(profile: u16, nickname: &Label, place: &mut Place, out: &mut [u8])
    ensures puts { Puts (byte 7 & number2 profile & string nickname.now)
        place.old out.old place.new out.new }
    ensures sizes { IsNumber2 profile × IsString 64 nickname.now }
{
    put_byte(7, place, out);
    put_number2(profile, place, out);
    put_text(nickname, place, out);
}

fn put_note_gone(number: u32, place: &mut Place, out: &mut [u8])
    ensures puts { Puts (byte 8 & number4 number) place.old out.old place.new out.new }
    ensures sizes { IsNumber4 number }
{
    put_byte(8, place, out);
    put_number4(number, place, out);
}

pub(crate) fn put_put_card(
    how: PortMode,
    ports: u8,
    eid: &[u8; 16],
    next_number: u32,
    next_note: u64,
    notes: &[Note],
    place: &mut Place,
    out: &mut [u8],
)
    requires { length notes.now ≤ 65535 }
    ensures puts { Puts (byte 1 & mode how & byte ports & plain eid.now & number4 next_number
        & number8 next_note & list note notes.now)
        place.old out.old place.new out.new }
    ensures sizes { IsByte ports × IsPlain 16 eid.now × IsNumber4 next_number
        × IsNumber8 next_note × IsList 65535 IsNote notes.now }
{
    put_card(how, ports, eid, place, out);
    put_card_notes(next_number, next_note, notes, place, out);
}

fn put_entry(entry: &Record, place: &mut Place, out: &mut [u8])
    requires { HasSizes entry.now }
    ensures puts { Puts (spelling entry.now) place.old out.old place.new out.new }
    ensures sizes { HasCoding entry.now }
{
    match entry {
        Record::PutCard {
            mode,
            ports,
            eid,
            next_number,
            next_note,
            notes,
        } => put_put_card(
            *mode,
            *ports,
            eid,
            *next_number,
            *next_note,
            notes.as_slice(),
            place,
            out,
        ),
        Record::PutProfile {
            installation,
            profile,
            port,
        } => {
            let profile = profile.get();
            put_profile(
                *installation,
                &profile.head,
                &profile.content,
                *port,
                place,
                out,
            );
        }
        Record::Content { profile, change } => put_content(*profile, change, place, out),
        Record::Bind {
            profile,
            port,
            displaced,
        } => put_bind(*profile, *port, *displaced, place, out),
        Record::Unbind { profile } => put_unbind(*profile, place, out),
        Record::Gone { profiles } => put_gone(profiles, place, out),
        Record::Name { profile, nickname } => put_name(*profile, nickname, place, out),
        Record::NoteGone { number } => put_note_gone(*number, place, out),
    }
}

/// The number of bytes of a record's coding. It takes no memory.
pub fn record_len(entry: &Record) -> u32
    requires sizes { HasSizes entry.now }
    requires few { HasCoding entry.now → length (spelling entry.now) < 2 ^ 32 }
    ensures len { result ≡ length (spelling entry.now) }
    ensures codes { Codes (spelling entry.now) entry.now }
{
    let mut place = Place {
        skip: u32::MAX as usize,
        filled: 0,
    };
    put_entry(entry, &mut place, &mut []);
    u32::MAX - place.skip as u32
}

/// Copies a record's coding from place `at` on to the start of `out`, as many bytes as both have,
/// and returns their number. It takes no memory.
pub fn put_record(entry: &Record, at: u32, out: &mut [u8]) -> usize
    requires { HasSizes entry.now }
    ensures count { result ≡ min (length out.old) (length (spelling entry.now) - at) }
    ensures filled { out.new ≡ take result (drop at (spelling entry.now)) ++ drop result out.old }
    ensures codes { Codes (spelling entry.now) entry.now }
{
    let mut place = Place {
        skip: at as usize,
        filled: 0,
    };
    put_entry(entry, &mut place, out);
    place.filled
}

// Changes of a content as bytes.
ghost use Rattle.record_codec.specs.Fields.{◌&◌, byte, number2, path, string};
ghost use Rattle.record_codec.specs.Sizes.{IsByte, IsChange, IsFileHead, IsNumber2, IsPath};
ghost use Rattle.record_codec.specs.Sizes.{HasPinSizes, IsString};
ghost use Rattle.record_codec.specs.Spelling.{coded_change, file_head, life, pin};
ghost use Rattle.record_codec.specs.Window.{Puts};

use crate::put::{put_file_head, put_life, put_path, put_pin, put_text};
use crate::window::{Place, put_byte, put_number2};
use file_rows::{Change, FileHead, Life, Path, Piece, PinRow};

fn put_write_range(at: &Path, offset: u16, bytes: &Piece, place: &mut Place, out: &mut [u8])
    ensures puts { Puts (byte 0 & path at.now & number2 offset & string bytes.now)
        place.old out.old place.new out.new }
    ensures sizes { IsPath at.now × IsNumber2 offset × IsString 255 bytes.now }
{
    put_byte(0, place, out);
    put_path(at, place, out);
    put_number2(offset, place, out);
    put_text(bytes, place, out);
}

fn put_write_record(at: &Path, number: u8, bytes: &Piece, place: &mut Place, out: &mut [u8])
    ensures puts { Puts (byte 1 & path at.now & byte number & string bytes.now)
        place.old out.old place.new out.new }
    ensures sizes { IsPath at.now × IsByte number × IsString 255 bytes.now }
{
    put_byte(1, place, out);
    put_path(at, place, out);
    put_byte(number, place, out);
    put_text(bytes, place, out);
}

fn put_pin_set(row: &PinRow, place: &mut Place, out: &mut [u8])
    ensures puts { Puts (byte 2 & pin row.now) place.old out.old place.new out.new }
    ensures sizes { HasPinSizes row.now }
{
    put_byte(2, place, out);
    put_pin(row, place, out);
}

fn put_file_add(head: &FileHead, place: &mut Place, out: &mut [u8])
    ensures puts { Puts (byte 3 & file_head head.now) place.old out.old place.new out.new }
    ensures sizes { IsFileHead head.now }
{
    put_byte(3, place, out);
    put_file_head(head, place, out);
}

fn put_file_gone(at: &Path, place: &mut Place, out: &mut [u8])
    ensures puts { Puts (byte 4 & path at.now) place.old out.old place.new out.new }
    ensures sizes { IsPath at.now }
{
    put_byte(4, place, out);
    put_path(at, place, out);
}

fn put_file_state(at: &Path, state: Life, place: &mut Place, out: &mut [u8])
    ensures puts { Puts (byte 5 & path at.now & life state) place.old out.old place.new out.new }
    ensures sizes { IsPath at.now }
{
    put_byte(5, place, out);
    put_path(at, place, out);
    put_life(state, place, out);
}

fn put_file_size(at: &Path, size: u16, place: &mut Place, out: &mut [u8])
    ensures puts { Puts (byte 6 & path at.now & number2 size) place.old out.old place.new out.new }
    ensures sizes { IsPath at.now × IsNumber2 size }
{
    put_byte(6, place, out);
    put_path(at, place, out);
    put_number2(size, place, out);
}

pub fn put_change(its: &Change, place: &mut Place, out: &mut [u8])
    ensures puts { Puts (coded_change its.now) place.old out.old place.new out.new }
    ensures sizes { IsChange its.now }
{
    match its {
        Change::WriteRange {
            path,
            offset,
            bytes,
        } => put_write_range(path, *offset, bytes, place, out),
        Change::WriteRecord {
            path,
            number,
            bytes,
        } => put_write_record(path, *number, bytes, place, out),
        Change::PinSet { row } => put_pin_set(row, place, out),
        Change::FileAdd { head } => put_file_add(head, place, out),
        Change::FileGone { path } => put_file_gone(path, place, out),
        Change::FileState { path, life } => put_file_state(path, *life, place, out),
        Change::FileSize { path, size } => put_file_size(path, *size, place, out),
    }
}

// Records as bytes, field by field.
ghost use Rattle.std.specs.Prelude.{◌≡◌, ◌<◌, ◌≤◌, ◌^◌, length, take, IfSome, Option};
ghost use Rattle.std.specs.List.{AllByRecursion, flat_map};
ghost use Rattle.record_codec.specs.Fields.{◌&◌, byte, list, number2, option, path, string};
ghost use Rattle.record_codec.specs.Sizes.{IsByte, IsChange, HasFileSizes, IsFileHead, IsForm};
ghost use Rattle.record_codec.specs.Sizes.{IsList, IsNote, IsNumber2, IsPath, HasPinSizes};
ghost use Rattle.record_codec.specs.Sizes.{IsProfileHead, IsPuk, IsRule, IsString, IsTarget};
ghost use Rattle.record_codec.specs.Spelling.{coded_change, file, file_head, form, kind, kind_byte};
ghost use Rattle.record_codec.specs.Spelling.{life, coded_life, mode, mode_byte, note, operation};
ghost use Rattle.record_codec.specs.Spelling.{operation_byte, pin, profile_head, puk, rule, target};
ghost use Rattle.record_codec.specs.Window.{Puts};

use crate::window::{Place, put, put_byte, put_flag, put_number2, put_number4, put_string};
use crate::{NoteTarget, ProfileHead, Targets};
use file_rows::{Change, FileHead, FileRow, Kind, Life, Path, PinRow, Puk, Rule};
use notify_list::{Note, Operation};
use plain_lists::ShortList;
use port_table::PortMode;

fn mode_byte(mode: PortMode) -> u8
    ensures { result ≡ mode_byte mode }
{
    match mode {
        PortMode::A1 => 0,
        PortMode::A2 => 1,
        PortMode::B => 2,
    }
}

fn operation_byte(operation: Operation) -> u8
    ensures { result ≡ operation_byte operation }
{
    match operation {
        Operation::Install => 0,
        Operation::Enable => 1,
        Operation::Disable => 2,
        Operation::Delete => 3,
    }
}

fn kind_byte(kind: Kind) -> u8
    ensures { result ≡ kind_byte kind }
{
    match kind {
        Kind::Master => 0,
        Kind::Directory => 1,
        Kind::Application => 2,
        Kind::Transparent => 3,
        Kind::Linear => 4,
        Kind::Cyclic => 5,
    }
}

fn coded_life(life: Life) -> u8
    ensures { result ≡ coded_life life }
{
    match life {
        Life::Active => 0,
        Life::Deactivated => 1,
        Life::Terminated => 2,
    }
}

pub fn put_mode(value: PortMode, place: &mut Place, out: &mut [u8])
    ensures { Puts (mode value) place.old out.old place.new out.new }
{
    put_byte(mode_byte(value), place, out);
}

fn put_operation(value: Operation, place: &mut Place, out: &mut [u8])
    ensures { Puts (operation value) place.old out.old place.new out.new }
{
    put_byte(operation_byte(value), place, out);
}

fn put_kind(value: Kind, place: &mut Place, out: &mut [u8])
    ensures { Puts (kind value) place.old out.old place.new out.new }
{
    put_byte(kind_byte(value), place, out);
}

pub fn put_life(value: Life, place: &mut Place, out: &mut [u8])
    ensures { Puts (life value) place.old out.old place.new out.new }
{
    put_byte(coded_life(value), place, out);
}

pub fn put_text<const CAP: usize>(bytes: &ShortList<u8, CAP>, place: &mut Place, out: &mut [u8])
    requires { CAP < 2 ^ 16 }
    ensures puts { Puts (string bytes.now) place.old out.old place.new out.new }
    ensures size { IsString CAP bytes.now }
{
    put_string(bytes.as_slice(), place, out);
}

pub fn put_numbers(numbers: &[u16], place: &mut Place, out: &mut [u8])
    ensures puts { Puts (flat_map number2 numbers.now) place.old out.old place.new out.new }
    ensures sizes { AllByRecursion IsNumber2 numbers.now }
{
    for number in numbers {
        put_number2(*number, place, out);
    }
}

pub fn put_path(ids: &Path, place: &mut Place, out: &mut [u8])
    ensures puts { Puts (path ids.now) place.old out.old place.new out.new }
    ensures sizes { IsPath ids.now }
{
    put_byte(ids.len() as u8, place, out);
    put_numbers(ids.as_slice(), place, out);
}

fn put_rule(its: &Rule, place: &mut Place, out: &mut [u8])
    ensures puts { Puts (rule its.now) place.old out.old place.new out.new }
    ensures sizes { IsRule its.now }
{
    put_number2(its.file, place, out);
    put_byte(its.row, place, out);
}

fn put_rule_option(found: &Option<Rule>, place: &mut Place, out: &mut [u8])
    ensures puts { Puts (option rule found.now) place.old out.old place.new out.new }
    ensures sizes { IfSome found.now IsRule }
{
    match found {
        Some(its) => {
            put_byte(1, place, out);
            put_rule(its, place, out);
        }
        None => put_byte(0, place, out),
    }
}

fn put_form(head: &FileHead, place: &mut Place, out: &mut [u8])
    ensures puts { Puts (form head.now) place.old out.old place.new out.new }
    ensures sizes { IsForm head.now }
{
    put_path(&head.path, place, out);
    put_kind(head.kind, place, out);
    put_life(head.life, place, out);
    put_byte(head.sfi, place, out);
    put_text(&head.name, place, out);
    put_rule_option(&head.rule, place, out);
    put_byte(head.record_len, place, out);
}

pub fn put_file_head(head: &FileHead, place: &mut Place, out: &mut [u8])
    ensures puts { Puts (file_head head.now) place.old out.old place.new out.new }
    ensures sizes { IsFileHead head.now }
{
    put_form(head, place, out);
    put_number2(head.size, place, out);
}

fn put_body(body: &[u8], size: u16, place: &mut Place, out: &mut [u8])
    requires { length body.now ≡ size }
    ensures puts { Puts (string body.now) place.old out.old place.new out.new }
    ensures size { IsString 65535 body.now }
{
    put_string(body, place, out);
}

// Puts a file whose body is cut off the bytes.
pub fn put_cut_file(head: &FileHead, bytes: &[u8], place: &mut Place, out: &mut [u8])
    requires { head.now.size ≤ length bytes.now }
    ensures puts { Puts (file (record { head = head.now; body = take head.now.size bytes.now }))
        place.old out.old place.new out.new }
    ensures sizes { HasFileSizes
        (record { head = head.now; body = take head.now.size bytes.now }) }
{
    let body = &bytes[..usize::from(head.size)];
    put_form(head, place, out);
    put_body(body, head.size, place, out);
}

pub fn put_file(row: &FileRow, place: &mut Place, out: &mut [u8])
    requires { length row.now.body ≡ row.now.head.size }
    ensures puts { Puts (file row.now) place.old out.old place.new out.new }
    ensures sizes { HasFileSizes row.now }
{
    put_form(&row.head, place, out);
    put_body(row.body.as_slice(), row.head.size, place, out);
}

fn put_puk(its: &Puk, place: &mut Place, out: &mut [u8])
    ensures puts { Puts (puk its.now) place.old out.old place.new out.new }
    ensures sizes { IsPuk its.now }
{
    put(&its.value, place, out);
    put_byte(its.max, place, out);
    put_byte(its.left, place, out);
}

fn put_puk_option(found: &Option<Puk>, place: &mut Place, out: &mut [u8])
    ensures puts { Puts (option puk found.now) place.old out.old place.new out.new }
    ensures sizes { IfSome found.now IsPuk }
{
    match found {
        Some(its) => {
            put_byte(1, place, out);
            put_puk(its, place, out);
        }
        None => put_byte(0, place, out),
    }
}

pub fn put_pin(row: &PinRow, place: &mut Place, out: &mut [u8])
    ensures puts { Puts (pin row.now) place.old out.old place.new out.new }
    ensures sizes { HasPinSizes row.now }
{
    put_byte(row.number, place, out);
    put_path(&row.home, place, out);
    put_byte(row.key, place, out);
    put(&row.value, place, out);
    put_byte(row.max, place, out);
    put_byte(row.left, place, out);
    put_flag(row.enabled, place, out);
    put_puk_option(&row.puk, place, out);
}

pub fn put_note(its: &Note, place: &mut Place, out: &mut [u8])
    ensures puts { Puts (note its.now) place.old out.old place.new out.new }
    ensures sizes { IsNote its.now }
{
    put_number4(its.number, place, out);
    put_operation(its.operation, place, out);
    put(&its.iccid, place, out);
    put_text(&its.address, place, out);
}

fn put_target(its: &NoteTarget, place: &mut Place, out: &mut [u8])
    ensures puts { Puts (target its.now) place.old out.old place.new out.new }
    ensures sizes { IsTarget its.now }
{
    put_byte(its.operations, place, out);
    put_text(&its.address, place, out);
}

fn put_targets(targets: &[NoteTarget], place: &mut Place, out: &mut [u8])
    ensures puts { Puts (flat_map target targets.now) place.old out.old place.new out.new }
    ensures sizes { AllByRecursion IsTarget targets.now }
{
    for its in targets {
        put_target(its, place, out);
    }
}

fn put_target_list(targets: &Targets, place: &mut Place, out: &mut [u8])
    ensures puts { Puts (list target targets.now) place.old out.old place.new out.new }
    ensures sizes { IsList 8 IsTarget targets.now }
{
    put_number2(targets.len() as u16, place, out);
    put_targets(targets.as_slice(), place, out);
}

fn put_rules(head: &ProfileHead, place: &mut Place, out: &mut [u8])
    ensures puts { Puts (byte head.now.class & byte head.now.policy & list target head.now.targets)
        place.old out.old place.new out.new }
    ensures sizes { IsByte head.now.class × IsByte head.now.policy
        × IsList 8 IsTarget head.now.targets }
{
    put_byte(head.class, place, out);
    put_byte(head.policy, place, out);
    put_target_list(&head.targets, place, out);
}

fn put_labels(head: &ProfileHead, place: &mut Place, out: &mut [u8])
    ensures puts { Puts (string head.now.provider & string head.now.name & string head.now.nickname)
        place.old out.old place.new out.new }
    ensures sizes { IsString 32 head.now.provider × IsString 64 head.now.name
        × IsString 64 head.now.nickname }
{
    put_text(&head.provider, place, out);
    put_text(&head.name, place, out);
    put_text(&head.nickname, place, out);
}

pub fn put_profile_head(head: &ProfileHead, place: &mut Place, out: &mut [u8])
    ensures puts { Puts (profile_head head.now) place.old out.old place.new out.new }
    ensures sizes { IsProfileHead head.now }
{
    put_number2(head.number, place, out);
    put(&head.iccid, place, out);
    put_labels(head, place, out);
    put_rules(head, place, out);
}

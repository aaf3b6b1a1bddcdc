ghost use Rattle.std.specs.Prelude.{◌≡◌, ◌==◌, true, false, IfNone, IfSome};
ghost use Rattle.std.specs.List.{list_any};
ghost use Rattle.isdr_commands.specs.NotificationSent.{note_sent};

use crate::Moves;
use crate::decision::Decision;
use crate::refusal::Refusal;
use notify_list::Note;
use record_codec::{Heads, Record};

const TAG: u32 = 0xBF30;

// The number, where a notification of it is pending.
fn pending_number(notes: &[Note], number: u64) -> Option<u32>
    ensures value { IfSome result (λ pending. pending ≡ number) }
    ensures found { IfSome result
        (λ pending. list_any (λ note. note.number == number) notes.now ≡ true) }
    ensures none { IfNone result (list_any (λ note. note.number == number) notes.now ≡ false) }
{
    for note in notes {
        if u64::from(note.number) == number {
            return Some(note.number);
        }
    }
    None
}

/// What ES10b.NotificationSent comes to: result 1 where no notification of the number is pending;
/// else 0, and it goes. It looks at each pending notification once.
pub fn notification_sent(heads: &Heads, number: u64) -> Decision
    ensures { result ≡ note_sent heads.now number }
{
    match pending_number(heads.notes.list(), number) {
        Some(number) => Decision::accepted(TAG, Record::NoteGone { number }, Moves::new()),
        None => Decision::refused(TAG, Refusal::NotFound),
    }
}

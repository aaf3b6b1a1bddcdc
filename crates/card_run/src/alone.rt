//! The top call on one thread.
ghost use Rattle.std.specs.Prelude.{◌≡◌, ◌↔◌, false, ℕ, List};
ghost use Rattle.card_journal.specs.Made.{made_card};
ghost use Rattle.port_io.specs.Faults.{NeverFalls};
ghost use Rattle.card_run.specs.Ends.{RunsDemo, streams};
ghost use Rattle.card_run.specs.Images.{ListsCard, MakesNewCard, output};
ghost use Rattle.card_run.specs.Words.{AreOf, AsksForListing, AsksForNew, NamesImage, word_bytes};
ghost use Rattle.card_run.specs.declared.status.Status.TheVariants.{Usage};
ghost use Rattle.card_run.specs.declared.words.Form.{Form};
ghost use Rattle.card_run.specs.declared.words.Form.TheVariants.{Demo};
ghost use Rattle.card_run.specs.declared.words.NewCard.{NewCard};

use crate::demo::demo;
use crate::images::{list, new};
use crate::status::Status;
use crate::words::{Form, image_of, read_form};
use flash_pages::Shelf;
use port_io::{Sink, Source};
use std::alloc::Global;

/// Does what the words ask for, on one thread: it reads the script from the source, takes the flash
/// of an image from the shelf and gives it back, and writes the text to the sink.
///
/// Words of no form are Usage, and nothing else is touched. `list` and `new` don't touch the
/// source, and ask for no name but the image's.
pub fn run_alone<S: Source, K: Sink, H: Shelf>(
    alloc: Global,
    words: &[String],
    script: &mut S,
    out: &mut K,
    shelf: &mut H,
) -> Status
    requires { (image : List ℕ) → NamesImage (word_bytes words.now) image
        → (H.place shelf.old image).is_out ≡ false }

    ensures usage { (result ≡ Usage) ↔ ((form : Form) → ¬ AreOf form (word_bytes words.now)) }
    ensures untouched { result ≡ Usage
        → (script.new ≡ script.old) × (out.new ≡ out.old) × (shelf.new ≡ shelf.old) }

    ensures demo { AreOf Demo (word_bytes words.now) → (shelf.new ≡ shelf.old) × RunsDemo
        (streams (S.left script.old) (S.faults script.old) (K.written out.old) (K.faults out.old))
        (streams (S.left script.new) (S.faults script.new) (K.written out.new) (K.faults out.new))
        out.old out.new result }

    ensures list { (asked : AsksForListing (word_bytes words.now))
        → (script.new ≡ script.old) × ListsCard H.F.state asked.image
        (H.place shelf.old) (H.place shelf.new)
        (output (K.written out.old) (K.faults out.old))
        (output (K.written out.new) (K.faults out.new)) result }

    ensures new { (card : NewCard) (asked : AsksForNew (word_bytes words.now) card)
        → (script.new ≡ script.old)
        × MakesNewCard H.F.state (made_card card.mode card.ports card.eid) asked.image
        (H.place shelf.old) (H.place shelf.new)
        (output (K.written out.old) (K.faults out.old))
        (output (K.written out.new) (K.faults out.new)) result }

    ensures read_count { NeverFalls (S.faults script.old) (S.faults script.new) }
    ensures write_count { NeverFalls (K.faults out.old) (K.faults out.new) }
{
    match read_form(words) {
        None => Status::Usage,
        Some(Form::Demo) => demo(alloc, script, out),
        Some(Form::List) => list(alloc, image_of(words), shelf, out),
        Some(Form::New(card)) => new(alloc, image_of(words), card, shelf, out),
    }
}

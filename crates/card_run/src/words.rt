//! The words after the program's name.
ghost use Rattle.std.specs.Prelude.{◌≡◌, ◌↔◌, ◌≢◌, ℕ, IsTrue, MatchOption, Ok, ◌+◌, [], ◌∷◌};
ghost use Rattle.std.specs.Prelude.{◌≤◌, List, length, slice_index_or, string_bytes};
ghost use Rattle.hex.specs.Hex.{decode_of};
ghost use Rattle.card_core.specs.Listing.{mode_text};
ghost use Rattle.card_journal.specs.Made.{HasPorts};
ghost use Rattle.card_run.specs.Words.{AreOf, AreSpelled, AsksForNew};
ghost use Rattle.card_run.specs.Words.{IsImageName, word_bytes};
ghost use Rattle.port_table.specs.declared.port_mode.PortMode.{PortMode};
ghost use Rattle.card_run.specs.declared.words.Form.{Form};
ghost use Rattle.card_run.specs.declared.words.NewCard.{NewCard};

use port_table::PortMode;
use record_codec::fewest_ports;

/// What the program is asked to do. `new` and `list` name an image, the second of the words.
#[derive(Clone, Copy, Debug, PartialEq, Eq)]
pub enum Form {
    /// `demo`: the sample card answers a script.
    Demo,
    /// `list IMAGE`: the listing of a card.
    List,
    /// `new IMAGE --mode M --ports N --eid E`: a new card.
    New(NewCard),
}

/// A card as the words describe it.
#[derive(Clone, Copy, Debug, PartialEq, Eq)]
pub struct NewCard {
    pub mode: PortMode,
    /// How many ports it has, in the range of its mode.
    pub ports: u8,
    pub eid: [u8; 16],
}

// Whether the word may name an image.
fn is_image_name(word: &str) -> bool
    ensures { IsTrue result ↔ IsImageName word.now }
{
    match word.as_bytes() {
        [] => false,
        [first, ..] => *first != b'-',
    }
}

fn read_mode(word: &str) -> Option<PortMode>
    ensures { MatchOption result ((mode : PortMode) → mode_text mode ≢ word.now)
        (λ mode. mode_text mode ≡ word.now) }
{
    match word {
        "A1" => Some(PortMode::A1),
        "A2" => Some(PortMode::A2),
        "B" => Some(PortMode::B),
        _ => None,
    }
}

fn read_ports(word: &str, mode: PortMode) -> Option<u8>
    ensures { MatchOption result ((ports : ℕ) → HasPorts mode ports → word.now ≢ (48 + ports) ∷ [])
        (λ ports. HasPorts mode ports × (word.now ≡ (48 + ports) ∷ [])) }
{
    let [digit @ b'1'..=b'8'] = word.as_bytes() else {
        return None;
    };
    let ports = digit - b'0';
    if ports < fewest_ports(mode) {
        return None;
    }
    Some(ports)
}

fn read_eid(word: &str) -> Option<[u8; 16]>
    ensures { MatchOption result
        ((eid : List ℕ) → length eid ≡ 16 → decode_of word.now ≢ Ok eid)
        (λ eid. decode_of word.now ≡ Ok eid) }
{
    let mut eid = [0; 16];
    match hex::decode_to_slice(word, &mut eid) {
        Ok(()) => Some(eid),
        Err(_) => None,
    }
}

// The mode, the number of ports and the EID, as three words spell them.
fn read_card(mode: &str, ports: &str, eid: &str) -> Option<NewCard>
    ensures { MatchOption result ((card : NewCard) → ¬ AreSpelled card mode.now ports.now eid.now)
        (λ card. AreSpelled card mode.now ports.now eid.now) }
{
    let mode = read_mode(mode)?;
    let ports = read_ports(ports, mode)?;
    let eid = read_eid(eid)?;
    Some(NewCard { mode, ports, eid })
}

// Whether the word is this text.
fn is(word: &String, text: &str) -> bool
    ensures { IsTrue result ↔ (string_bytes word.now ≡ text.now) }
{
    word.as_str() == text
}

fn read_new(words: &[String]) -> Option<NewCard>
    ensures { MatchOption result ((card : NewCard) → ¬ AsksForNew (word_bytes words.now) card)
        (AsksForNew (word_bytes words.now)) }
{
    match words {
        [
            form,
            image,
            mode_option,
            mode,
            ports_option,
            ports,
            eid_option,
            eid,
        ] if is(form, "new")
            && is_image_name(image)
            && is(mode_option, "--mode")
            && is(ports_option, "--ports")
            && is(eid_option, "--eid") => { read_card(mode, ports, eid) }
        _ => None,
    }
}

/// What the words ask for, if they are of a form.
pub fn read_form(words: &[String]) -> Option<Form>
    ensures { MatchOption result ((form : Form) → ¬ AreOf form (word_bytes words.now))
        (λ form. AreOf form (word_bytes words.now)) }
{
    match words {
        [word] if is(word, "demo") => Some(Form::Demo),
        [word, image] if is(word, "list") && is_image_name(image) => Some(Form::List),
        _ => read_new(words).map(Form::New),
    }
}

/// The second word, which names the image where the words are of a form that has one.
pub fn image_of(words: &[String]) -> &str
    requires { 2 ≤ length words.now }
    ensures { result.now ≡ slice_index_or (word_bytes words.now) 1 [] }
{
    &words[1]
}

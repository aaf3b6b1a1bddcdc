ghost use Rattle.std.specs.Prelude.{[], ◌∷◌};
ghost use Rattle.bstr.specs.Bytes.{not_in};
ghost use Rattle.bstr.specs.Find.{IsFirstByte};

use bstr::ByteSlice;
use std::marker::Model;

// Where the first word begins. Mostly a space or none stands before it, so that the set of bytes
// that a search of `bstr` makes would cost more than the search.
#[tactic(auto, unfolding(bstr::specs::Bytes::is_in))]
fn word_start(line: &[u8]) -> Option<usize>
    ensures { IsFirstByte (not_in (32 ∷ [])) line.now result }
{
    for (place, byte) in line.iter().enumerate() {
        if *byte != b' ' {
            return Some(place);
        }
    }
    None
}

// The words of a line that are left.
#[derive(Drop)]
pub struct Words<'a>(pub &'a [u8]);

impl<'a> Model for Words<'a> {
    ghost use Rattle.std.specs.Prelude.{List, ℕ};
    ghost use Rattle.script_text.specs.Words.{words};

    ghost Value = { List (List ℕ) };

    ghost view = { λ s. words s.0.now };
}

impl<'a> Iterator for Words<'a> {
    type Item = &'a [u8];

    ghost use Rattle.std.specs.Iterator.{YieldsFirstRef, item_count};

    ghost next_gives = { YieldsFirstRef (λ rest. rest) };

    ghost remaining = { item_count (λ rest. rest) };

    fn next(&mut self) -> Option<&'a [u8]> {
        let start = word_start(self.0)?;
        let line = &self.0[start..];
        let end = line.find_byte(b' ').unwrap_or(line.len());
        let (word, rest) = line.split_at(end);
        self.0 = rest;
        Some(word)
    }
}

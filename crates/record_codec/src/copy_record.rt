use crate::{Heads, PooledFiles, ProfileHead};
use file_rows::PinRow;

/// A record of a card's copy, which is written from the card as it is held: the card that the
/// other records follow, or one of its profiles, on its port or on none.
#[derive(Debug, Drop)]
pub enum CopyRecord<'a> {
    Card(&'a Heads),
    Profile {
        head: &'a ProfileHead,
        files: PooledFiles<'a>,
        pins: &'a [PinRow],
        port: Option<u8>,
    },
}

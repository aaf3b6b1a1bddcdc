use std::marker::Brand;

/// Names one section, for the proofs alone: what its book, its passes and its lanes agree on. What
/// begins a section picks it, so that a section is one function which is generic over its name.
pub trait SectionName {
    ghost use Rattle.card_journal.specs.CardStoreState.{CardStoreState};

    // The store of the card as the section begins.
    ghost begun: { CardStoreState };
}

impl SectionName for Brand {
    ghost use Rattle.card_book.specs.SectionName.{no_store};

    ghost begun = { no_store };
}

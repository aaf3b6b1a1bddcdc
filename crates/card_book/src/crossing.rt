// That a book, a pass and a receipt may go to other threads. There is nothing to run.
use crate::{Book, Pass, Receipt, SectionName};
use card_journal::CardStore;

fn may_cross_threads<T: Send>(_value: &T) {}

/// That a book may go to another thread where its store may.
pub fn books_cross_threads<St: CardStore + Send, N: SectionName + Send>(book: &Book<St, N>) {
    may_cross_threads(book);
}

/// That passes and receipts may go to another thread.
pub fn passes_cross_threads<N: SectionName + Send>(pass: &Pass<N>, receipt: &Receipt) {
    may_cross_threads(pass);
    may_cross_threads(receipt);
}

ghost use Rattle.std.specs.Prelude.{◌≡◌, [], ◌∷◌, ◌++◌, length, OnOk, OnErr};

use std::alloc::{AllocError, Global};
use std::marker::Model;

/// A list that grows. It keeps the allocator that it was made with. Contracts see the list of its
/// elements, and never how much room it has.
#[derive(Debug, Drop)]
pub struct LongList<T> {
    elements: Vec<T>,
}

impl<T> Model for LongList<T> {
    ghost use Rattle.std.specs.Prelude.{List};
    ghost use Rattle.std.specs.Coded.{coded_list};

    ghost Value = { List T };

    ghost coded = { coded_list T.code };

    ghost view = { λ l. l.elements.items };
}

impl<T: Drop> LongList<T> {
    /// No elements. It takes no memory.
    pub fn new(alloc: Global) -> Self
        ensures { result ≡ [] }
    {
        LongList {
            elements: Vec::new(alloc),
        }
    }

    /// The elements, in order.
    #[inline]
    pub fn as_slice(&self) -> &[T]
        ensures { result.now ≡ self.now }
    {
        self.elements.as_slice()
    }

    /// The number of elements.
    #[inline]
    pub fn len(&self) -> usize
        ensures { result ≡ length self.now }
    {
        self.elements.len()
    }

    /// Adds an element at the end. Without memory nothing changes.
    pub fn push(&mut self, element: T) -> Result<(), AllocError>
        ensures ok { OnOk result (self.new ≡ self.old ++ element ∷ []) }
        ensures err { OnErr result (self.new ≡ self.old) }
    {
        self.elements.push(element)?;
        Ok(())
    }

    /// What gives the memory for more elements. A `Global` has nothing to tell apart.
    #[inline]
    pub fn allocator(&self) -> Global {
        *self.elements.allocator()
    }
}

impl<T> From<Vec<T>> for LongList<T> {
    ghost from_gives = { λ elements list. list ≡ elements.items };

    fn from(elements: Vec<T>) -> Self {
        LongList { elements }
    }
}

impl<T> From<LongList<T>> for Vec<T> {
    ghost from_gives = { λ list elements. elements.items ≡ list };

    fn from(list: LongList<T>) -> Self {
        list.elements
    }
}

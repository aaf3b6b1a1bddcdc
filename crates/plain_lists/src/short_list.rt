ghost use Rattle.std.specs.Prelude.{◌≡◌, ◌+◌, ◌<◌, ◌≤◌, ◌↔◌, ◌==◌, [], ◌∷◌, ◌++◌, length};
ghost use Rattle.std.specs.Prelude.{slice_get, slice_set, Some, IsOk, OnOk, OnErr, IsTrue};

use arrayvec::{ArrayVec, CapacityError};
use std::marker::Model;
use std::mem;

/// At most `CAP` elements. Contracts see the list of them.
#[derive(Debug, PartialEq, Eq, Drop)]
pub struct ShortList<T, const CAP: usize> {
    elements: ArrayVec<T, CAP>,
}

impl<T, const CAP: usize> Model for ShortList<T, CAP> {
    ghost use Rattle.std.specs.Prelude.{List};
    ghost use Rattle.std.specs.Coded.{coded_list};

    ghost Value = { List T };

    ghost coded = { coded_list T.code };

    ghost view = { λ s. s.elements.items };

    ghost inverse = { λ xs. record { elements = record { items = xs } } };
}

impl<T: Default, const CAP: usize> ShortList<T, CAP> {
    /// No elements.
    pub fn new() -> Self
        ensures { result ≡ [] }
    {
        ShortList {
            elements: ArrayVec::new(),
        }
    }
}

impl<T: Default + Copy, const CAP: usize> ShortList<T, CAP> {
    /// These elements, of which there are at most `CAP`.
    pub fn from_slice(elements: &[T]) -> Self
        requires { length elements.now ≤ CAP }
        ensures { result ≡ elements.now }
    {
        let mut list = ArrayVec::new();
        let _ = list.try_extend_from_slice(elements);
        ShortList { elements: list }
    }

    /// A copy. It takes no memory.
    pub fn copy(&self) -> Self
        ensures { result ≡ self.now }
    {
        ShortList::from_slice(self.elements.as_slice())
    }

    /// Appends these elements.
    pub fn extend_from_slice(&mut self, elements: &[T])
        requires { length self.old + length elements.now ≤ CAP }
        ensures { self.new ≡ self.old ++ elements.now }
    {
        let _fits = self.elements.try_extend_from_slice(elements);
    }
}

impl<T: Drop, const CAP: usize> ShortList<T, CAP> {
    /// The elements, in order.
    #[inline]
    pub fn as_slice(&self) -> &[T]
        ensures value { result.now ≡ self.now }
        ensures fits { length result.now ≤ CAP }
    {
        self.elements.as_slice()
    }

    /// The number of elements.
    #[inline]
    pub fn len(&self) -> usize
        ensures value { result ≡ length self.now }
        ensures fits { result ≤ CAP }
    {
        self.elements.len()
    }

    /// Whether there is no element.
    #[inline]
    pub fn is_empty(&self) -> bool
        ensures { IsTrue result ↔ (self.now ≡ []) }
    {
        self.elements.is_empty()
    }

    /// Takes all elements away.
    pub fn clear(&mut self)
    where
        T: Default,
        ensures { self.new ≡ [] }
    {
        self.elements.clear();
    }

    /// Adds an element at the end.
    pub fn push(&mut self, element: T)
        requires { length self.old < CAP }
        ensures { self.new ≡ self.old ++ element ∷ [] }
    {
        self.elements.push(element);
    }

    /// Puts an element in the place of the one at `index`, counted from 0. It moves no other.
    #[inline]
    pub fn set(&mut self, index: usize, element: T)
        requires { index < length self.old }
        ensures { self.new ≡ slice_set self.old index element }
    {
        self.elements.as_mut_slice()[index] = element;
    }

    /// Puts an element in the place of the one at `index`, counted from 0, and returns that one.
    /// It moves no other.
    pub fn replace(&mut self, index: usize, element: T) -> T
        requires { index < length self.old }
        ensures value { slice_get self.old index ≡ Some result }
        ensures after { self.new ≡ slice_set self.old index element }
    {
        mem::replace(&mut self.elements.as_mut_slice()[index], element)
    }
}

impl<T, const CAP: usize> From<ArrayVec<T, CAP>> for ShortList<T, CAP> {
    ghost from_gives = { λ elements list. list ≡ elements.items };

    fn from(elements: ArrayVec<T, CAP>) -> Self {
        ShortList { elements }
    }
}

impl<T, const CAP: usize> From<ShortList<T, CAP>> for ArrayVec<T, CAP> {
    ghost from_gives = { λ list elements. elements.items ≡ list };

    fn from(list: ShortList<T, CAP>) -> Self {
        list.elements
    }
}

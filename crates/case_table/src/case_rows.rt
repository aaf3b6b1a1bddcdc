//! A table of rows.
ghost use Rattle.std.specs.Prelude.{◌≡◌, ℕ, ◌<◌, Some, IsTrue, slice_index};
ghost use Rattle.case_table.specs.CaseRows.{value_of, differ};

/// A table of `N` rows: row `i` has the key `keys[i]` and the value `values[i]`.
#[derive(Clone, Copy, Debug, PartialEq, Eq)]
pub struct CaseRows<const N: usize> {
    pub keys: [u16; N],
    pub values: [u16; N],
}

impl<const N: usize> CaseRows<N> {
    /// The value of the first row with that key, if there is one. It takes time by the number of
    /// rows.
    pub fn find(&self, key: u16) -> Option<u16>
        ensures { result ≡ value_of self.now key }
    {
        for (place, other) in self.keys.iter().enumerate() {
            if *other == key {
                return Some(self.values[place]);
            }
        }
        None
    }

    /// Whether no two rows have one key. It takes time by the square of the number of rows.
    pub fn keys_differ(&self) -> bool
        ensures value { result ≡ differ self.now.keys }
        // Where they differ each row is the one that its key finds.
        ensures each_row { IsTrue result → (i : ℕ) → i < N
            → value_of self.now (slice_index self.now.keys i)
            ≡ Some (slice_index self.now.values i) }
    {
        let mut rest = self.keys.as_slice();
        while let Some((key, others)) = rest.split_first() {
            if others.contains(key) {
                return false;
            }
            rest = others;
        }
        true
    }
}

//! Sets of key references.
ghost use Rattle.std.specs.Prelude.{◌≡◌, ℕ, length, ◌==◌, ◌||◌, false, if◌then◌else◌};

/// A set of key references (ETSI TS 102 221), as the keys that are met.
#[derive(Clone, Copy, Debug, PartialEq, Eq)]
pub struct KeySet {
    keys: [bool; 256],
    ghost every: { length keys ≡ 256 },
}

impl KeySet {
    ghost use Rattle.access_rules.specs.KeySet.{has};

    /// No key.
    pub fn none() -> Self
        ensures { (key : ℕ) → has result key ≡ false }
    {
        KeySet { keys: [false; 256] }
    }

    /// Puts a key into the set or takes it out.
    pub(crate) fn put(&mut self, key: u8, is_in: bool)
        ensures { (other : ℕ) → has self.new other
            ≡ (if other == key then is_in else has self.old other) }
    {
        self.keys[usize::from(key)] = is_in;
    }

    /// Adds a key.
    pub fn add(&mut self, key: u8)
        ensures { (other : ℕ) → has self.new other ≡ (other == key || has self.old other) }
    {
        self.put(key, true);
    }

    /// Whether the key is in the set.
    pub fn has(&self, key: u8) -> bool
        ensures { result ≡ has self.now key }
    {
        self.keys[usize::from(key)]
    }
}

//! Keys of sets and maps.
ghost use Rattle.std.specs.Prelude.{◌≡◌, ◌<◌, ℕ};
ghost use Rattle.wait_free.specs.Keys.{key_of};

use std::marker::Model;

/// Keys are below this.
pub const KEY_LIMIT: u32 = 1_048_576;

/// A key of a set or a map: a number below 1,048,576. Contracts see the number.
#[derive(Clone, Copy, Debug, PartialEq, Eq, PartialOrd, Ord)]
pub struct Key {
    number: u32,
}

impl Model for Key {
    ghost Value = { ℕ };

    ghost view = { λ k. k.number };

    ghost invariant = { λ k. k.number < 1048576 };

    ghost inverse = { λ n. record { number = n } };
}

impl Key {
    /// The key with this number, where the number is below 1,048,576, and else none.
    pub fn new(number: u32) -> Option<Key>
        ensures { result ≡ key_of number }
    {
        if number < KEY_LIMIT {
            Some(Key { number })
        } else {
            None
        }
    }

    /// The key with a number that is known to be below 1,048,576, as one that stands in the program.
    pub fn of(number: u32) -> Key
        requires { number < 1048576 }
        ensures { result ≡ number }
    {
        Key { number }
    }

    /// Its number.
    pub fn get(self) -> u32
        ensures number { result ≡ self }
        ensures below { result < 1048576 }
    {
        self.number
    }
}

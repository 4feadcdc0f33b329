// Words and whole contents.
ghost use Rattle.std.specs.Prelude.{◌≡◌, IfOk, string_bytes};

use crate::{Listed, NoMemory};
use std::alloc::Global;
use std::marker::Model;

/// A text of UTF-8. Contracts see it as the list of its bytes.
#[derive(Drop)]
pub struct Word {
    text: String,
}

impl Model for Word {
    ghost use Rattle.std.specs.Prelude.{List, ℕ, string_bytes};

    ghost Value = { List ℕ };

    ghost view = { λ word. string_bytes word.text };
}

/// Words in order.
pub type Words = Listed<Word>;

impl Word {
    /// A word with a copy of this text. `O(length)`, one allocation.
    pub fn of(alloc: Global, text: &str) -> Result<Word, NoMemory>
        ensures { IfOk result (λ word. word ≡ text.now) }
    {
        Ok(Word {
            text: String::from_str(alloc, text)?,
        })
    }

    /// The text. It takes no memory. `O(1)`.
    pub fn as_str(&self) -> &str
        ensures { result.now ≡ self.now }
    {
        self.text.as_str()
    }
}

/// Bytes of any number. Contracts see it as the list of its bytes.
#[derive(Drop)]
pub struct Blob {
    bytes: Vec<u8>,
}

impl Model for Blob {
    ghost use Rattle.std.specs.Prelude.{List, ℕ};

    ghost Value = { List ℕ };

    ghost view = { λ blob. blob.bytes.items };
}

impl Blob {
    /// These bytes, without a copy. It takes no memory. `O(1)`.
    pub fn new(bytes: Vec<u8>) -> Blob
        ensures { result ≡ bytes.items }
    {
        Blob { bytes }
    }

    /// The bytes. It takes no memory. `O(1)`.
    pub fn as_slice(&self) -> &[u8]
        ensures { result.now ≡ self.now }
    {
        self.bytes.as_slice()
    }
}

// A text that grows at its end.
ghost use Rattle.std.specs.Prelude.{◌≡◌, ◌∷◌, ◌++◌, [], OnOk};
ghost use Rattle.hex.specs.Hex.{encode_lower};

use std::alloc::Global;
use std::marker::Model;
use swan_model::{Blob, NoMemory};

/// Bytes that are written one after another. Contracts see it as the list of them.
#[derive(Drop)]
pub struct Text {
    bytes: Vec<u8>,
}

impl Model for Text {
    ghost use Rattle.std.specs.Prelude.{List, ℕ};

    ghost Value = { List ℕ };

    ghost view = { λ text. text.bytes.items };
}

impl Text {
    /// The empty text, which takes no memory. `O(1)`.
    pub fn new(alloc: Global) -> Text
        ensures { result ≡ [] }
    {
        Text {
            bytes: Vec::new(alloc),
        }
    }

    /// Adds these bytes. `O(length)` amortised.
    pub fn push_bytes(&mut self, bytes: &[u8]) -> Result<(), NoMemory>
        ensures { OnOk result (self.new ≡ self.old ++ bytes.now) }
    {
        self.bytes.extend_from_slice(bytes)?;
        Ok(())
    }

    /// Adds this text. `O(length)` amortised.
    pub fn push_str(&mut self, text: &str) -> Result<(), NoMemory>
        ensures { OnOk result (self.new ≡ self.old ++ text.now) }
    {
        self.push_bytes(text.as_bytes())
    }

    /// Adds these bytes as lower-case hexadecimal digits. `O(length)`.
    pub fn push_hex(&mut self, alloc: Global, bytes: &[u8]) -> Result<(), NoMemory>
        ensures { OnOk result (self.new ≡ self.old ++ encode_lower bytes.now) }
    {
        let digits = hex::encode(alloc, bytes)?;
        self.push_bytes(digits.as_bytes())
    }

    /// The text as a whole, without a copy. `O(1)`.
    pub fn into_blob(self) -> Blob
        ensures { result ≡ self }
    {
        Blob::new(self.bytes)
    }
}

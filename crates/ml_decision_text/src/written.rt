// Texts that were written.
use std::marker::Model;

/// A text that was written, for those who hand it on. Contracts see the bytes.
#[derive(Drop)]
pub struct WrittenText {
    bytes: Vec<u8>,
}

impl Model for WrittenText {
    ghost use Rattle.std.specs.Prelude.{ℕ, List};

    ghost Value = { List ℕ };

    ghost view = { λ w. w.bytes.items };
}

impl WrittenText {
    ghost use Rattle.std.specs.Prelude.{◌≡◌};

    /// The text with these bytes.
    ///
    /// Cost: constant.
    pub fn new(bytes: Vec<u8>) -> WrittenText
        ensures { result ≡ bytes.items }
    {
        WrittenText { bytes }
    }

    /// Its bytes.
    ///
    /// Cost: constant.
    pub fn into_bytes(self) -> Vec<u8>
        ensures { result.items ≡ self }
    {
        self.bytes
    }
}

ghost use Rattle.std.specs.Prelude.{◌≡◌, IfOk, string_bytes};

use crate::no_memory::NoMemory;
use std::alloc::Global;
use std::marker::Model;

/// An owned text, seen as its bytes.
#[derive(Debug, Drop)]
pub struct Text {
    text: String,
}

impl Model for Text {
    ghost use Rattle.std.specs.Prelude.{List, ℕ, string_bytes};

    ghost Value = { List ℕ };

    ghost view = { λ t. string_bytes t.text };
}

impl Text {
    /// The same text, owned.
    pub fn copy_of(alloc: Global, from: &str) -> Result<Text, NoMemory>
        ensures { IfOk result (λ t. t ≡ from.now) }
    {
        match String::from_str(alloc, from) {
            Ok(text) => Ok(Text { text }),
            Err(_) => Err(NoMemory),
        }
    }

    /// The text that a string holds, which is not copied.
    pub fn from_string(text: String) -> Text
        ensures { result ≡ string_bytes text }
    {
        Text { text }
    }

    /// The text.
    pub fn as_str(&self) -> &str
        ensures { result.now ≡ self.now }
    {
        self.text.as_str()
    }
}

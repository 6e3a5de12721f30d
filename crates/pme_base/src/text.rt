// Text that owns its memory.
ghost use Rattle.std.specs.Prelude.{◌≡◌, [], ◌++◌, IfOk};

use crate::bytes::Bytes;
use crate::memory_error::OutOfMemory;
use std::alloc::Global;
use std::marker::Model;

/// A text that owns its memory. A contract sees it as the list of its UTF-8 bytes.
#[derive(Debug, Drop)]
pub struct Text {
    string: String,
}

impl Model for Text {
    ghost use Rattle.std.specs.Prelude.{List, ℕ, string_bytes};

    ghost Value = { List ℕ };

    ghost view = { λ t. string_bytes t.string };
}

impl Text {
    /// Returns an empty text. It allocates nothing.
    pub fn new(alloc: Global) -> Text
        ensures { result ≡ [] }
    {
        Text {
            string: String::new(alloc),
        }
    }

    /// A copy of `text`.
    pub fn copy_of(alloc: Global, text: &str) -> Result<Text, OutOfMemory>
        ensures { IfOk result (λ copy. copy ≡ text.now) }
    {
        let string = String::from_str(alloc, text)?;
        Ok(Text { string })
    }

    /// The text as a string slice.
    pub fn as_str(&self) -> &str
        ensures { result.now ≡ self.now }
    {
        self.string.as_str()
    }

    /// Turns the text into its UTF-8 bytes without copying them.
    pub fn into_bytes(self) -> Bytes
        ensures { result ≡ self }
    {
        Bytes::from_vec(self.string.into_bytes())
    }
}

impl PartialEq for Text {
    ghost use Rattle.std.specs.Prelude.{nat_eq};
    ghost use Rattle.std.specs.Cmp.{partial_equiv_from_equiv};
    ghost use Rattle.std.specs.Cmp.Lexicographic.{pointwise, nat_list_eq_equiv};

    ghost eq = { pointwise nat_eq };

    ghost laws = { partial_equiv_from_equiv nat_list_eq_equiv };

    fn eq(&self, other: &Text) -> bool {
        self.string.as_str() == other.string.as_str()
    }
}

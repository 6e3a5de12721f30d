// The words of a command line.
ghost use Rattle.std.specs.Prelude.{◌≡◌, [], ◌∷◌, ◌++◌, length, slice_get, OnOk, OnErr};
ghost use Rattle.std.specs.Option.{option_copied};

use crate::memory_error::OutOfMemory;
use crate::text::Text;
use std::alloc::Global;
use std::marker::Model;

/// The words of a command line. A contract sees them as the list of their UTF-8 bytes.
#[derive(Debug, Drop)]
pub struct Words {
    alloc: Global,
    texts: Vec<Text>,
}

impl Model for Words {
    ghost use Rattle.std.specs.Prelude.{List, ℕ};

    ghost Value = { List (List ℕ) };

    ghost view = { λ w. w.texts.items };
}

impl Words {
    /// Returns an empty list. It allocates nothing.
    pub fn new(alloc: Global) -> Words
        ensures { result ≡ [] }
    {
        Words {
            alloc,
            texts: Vec::new(alloc),
        }
    }

    /// Appends a copy of `word`. On OutOfMemory the list is unchanged.
    pub fn push(&mut self, word: &str) -> Result<(), OutOfMemory>
        ensures ok { OnOk result (self.new ≡ self.old ++ word.now ∷ []) }
        ensures unchanged { OnErr result (self.new ≡ self.old) }
    {
        let text = Text::copy_of(self.alloc, word)?;
        self.texts.push(text)?;
        Ok(())
    }

    /// The number of words.
    pub fn len(&self) -> usize
        ensures { result ≡ length self.now }
    {
        self.texts.len()
    }

    /// The word at index `i`; None where `i` is `len` or more.
    pub fn get(&self, i: usize) -> Option<&str>
        ensures { option_copied result ≡ slice_get self.now i }
    {
        match self.texts.get(i) {
            Some(text) => Some(text.as_str()),
            None => None,
        }
    }

    /// The words as a slice.
    pub fn as_slice(&self) -> &[Text]
        ensures { result.now ≡ self.now }
    {
        self.texts.as_slice()
    }
}

ghost use Rattle.std.specs.Prelude.{◌≡◌, ◌<◌, ◌↔◌, ℕ, List, [], ◌∷◌, ◌++◌, length, map, string_bytes, slice_get, Some, IsTrue, OnOk, OnErr};

use crate::errors::NoMemory;
use std::alloc::Global;
use std::marker::Model;

/// The arguments that a program is given, without its own name.
#[derive(Drop)]
pub struct Words {
    texts: Vec<String>,
}

impl Model for Words {
    ghost Value = { List (List ℕ) };

    ghost view = { λ words. map string_bytes words.texts.items };
}

impl Words {
    /// No arguments. It allocates no memory before the first one.
    pub fn new(alloc: Global) -> Words
        ensures { result ≡ [] }
    {
        Words {
            texts: Vec::new(alloc),
        }
    }

    /// Adds a copy of `word` at the end. It fails only if there is no memory, and then adds nothing.
    pub fn push(&mut self, word: &str) -> Result<(), NoMemory>
        ensures ok { OnOk result (self.new ≡ self.old ++ word.now ∷ []) }
        ensures err { OnErr result (self.new ≡ self.old) }
    {
        let text = String::from_str(*self.texts.allocator(), word)?;
        self.texts.push(text)?;
        Ok(())
    }

    /// How many arguments there are.
    pub fn len(&self) -> usize
        ensures { result ≡ length self.now }
    {
        self.texts.len()
    }

    /// Whether there are no arguments.
    pub fn is_empty(&self) -> bool
        ensures { IsTrue result ↔ (self.now ≡ []) }
    {
        self.texts.is_empty()
    }

    /// The argument at position `i`, from 0.
    pub fn get(&self, i: usize) -> &str
        requires { i < length self.now }
        ensures { slice_get self.now i ≡ Some result.now }
    {
        self.texts[i].as_str()
    }
}

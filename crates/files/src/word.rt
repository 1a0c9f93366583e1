// A word of the command line.
ghost use Rattle.std.specs.Prelude.{◌≡◌, ◌<◌, length, IfOk};

use crate::{Unread, WORD};
use std::marker::Model;
use std::rt::Env;

// An argument that is a name.
#[derive(Drop)]
pub struct Word {
    bytes: [u8; WORD],
    length: usize,
}

// Clauses see the bytes of the name.
impl Model for Word {
    ghost use Rattle.std.specs.Prelude.{List, ℕ, take, ◌≤◌};

    ghost Value = { List ℕ };

    ghost view = { λ w. take w.length w.bytes };

    ghost invariant = { λ w. w.length ≤ 4096 };
}

impl Word {
    // An argument, or why it is no name.
    pub fn of(system: &impl Env, i: usize) -> Result<Word, Unread>
        ensures { IfOk result (λ word. 0 < length word) }
    {
        let mut bytes = [0; WORD];
        let length = crate::arg(system, i, &mut bytes)?;
        Ok(Word { bytes, length })
    }

    pub fn as_slice(&self) -> &[u8]
        ensures { result.now ≡ self.now }
    {
        &self.bytes[..self.length]
    }
}

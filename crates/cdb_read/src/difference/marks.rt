// Marks of hashes.
ghost use Rattle.std.specs.Prelude.{◌≡◌, ℕ, length, true, false, IfOk};
ghost use Rattle.cdb_read.specs.Differing.{mark_at, Grows, KeepsOthers};

use std::alloc::{AllocError, Global};

/// The number of marks, which take 512 KiB.
const MARKS: usize = 1 << 22;

/// The number of marks that a word has.
const WORD: usize = 64;

/// A mark for each hash. Hashes with the same low bits share one.
#[derive(Drop)]
pub(crate) struct Marks {
    /// The marks, each a bit.
    pub(crate) words: Vec<u64>,
    ghost long: { length words.items ≡ 65536 },
}

impl Marks {
    /// Returns marks, none of them set.
    pub(crate) fn new(alloc: Global) -> Result<Marks, AllocError>
        ensures { IfOk result (λ marks. (hash : ℕ) → mark_at marks.words.items hash ≡ false) }
    {
        Ok(Marks {
            words: vec![in alloc; 0u64; MARKS / WORD]?,
        })
    }

    /// Sets the mark of a hash.
    pub(crate) fn set(&mut self, hash: u32)
        ensures set { mark_at self.new.words.items hash ≡ true }
        ensures grows { Grows self.old.words.items self.new.words.items }
        ensures keeps { KeepsOthers hash self.old.words.items self.new.words.items }
    {
        let at = hash as usize % MARKS;
        self.words[at / WORD] |= 1 << (at % WORD);
    }

    /// Returns true if the mark of a hash is set.
    pub(crate) fn has(&self, hash: u32) -> bool
        ensures { result ≡ mark_at self.now.words.items hash }
    {
        let at = hash as usize % MARKS;
        (self.words[at / WORD] >> (at % WORD)) & 1 == 1
    }
}

//! Which blocks of an image are missing.

ghost use Rattle.std.specs.Prelude.{◌≡◌, ℕ, ◌*◌, ◌<◌, ◌≤◌, ◌^◌, true, false, replicate, length, get_or, slice_set, IfOk};
ghost use Rattle.stream_blocks.specs.Sets as sets;

use crate::words::{clear, count_set, first_set, is_set, low_bits};
use std::alloc::{AllocError, Global};
use std::marker::Model;

/// Which of the blocks 0 to `blocks` - 1 are missing, in WORDS words of 64 bits. Only `new` takes memory.
/// Contracts see a list of flags, one for each block: whether it is missing.
#[derive(Debug, Drop)]
pub struct Missing<const WORDS: usize> {
    words: Vec<u64>,
    blocks: u32,
}

impl<const WORDS: usize> Model for Missing<WORDS> {
    ghost use Rattle.std.specs.Prelude.{◌≡◌, List, Bool, take, length};
    ghost use Rattle.std.specs.Coded.{coded_list};
    ghost use Rattle.stream_blocks.specs.Sets.{all_bits, IsKept};

    ghost Value = { List Bool };

    ghost view = { λ m. take m.blocks (all_bits m.words.items) };

    ghost invariant = { λ m. (length m.words.items ≡ WORDS) × IsKept m.blocks m.words.items };
}

impl<const WORDS: usize> Missing<WORDS> {
    /// All of so many blocks are missing. `Err` where memory runs out.
    pub fn new(alloc: Global, count: u32) -> Result<Missing<WORDS>, AllocError>
        requires { (0 < count) × (count ≤ 64 * WORDS) }
        ensures { IfOk result (λ m. m ≡ replicate count true) }
    {
        let mut words = Vec::new(alloc);
        let mut left = count;
        for _ in 0..WORDS {
            let taken = left.min(64);
            words.push(low_bits(taken))?;
            left -= taken;
        }
        Ok(Missing {
            words,
            blocks: count,
        })
    }

    /// Notes that a block is there, and answers whether it was missing until then.
    pub fn mark(&mut self, i: u32) -> bool
        requires { i < length self.old }
        ensures was { result ≡ get_or self.old i false }
        ensures marked { self.new ≡ slice_set self.old i false }
    {
        clear(self.words.as_mut_slice(), i)
    }

    /// Whether a block is missing. There are none from `blocks` on.
    pub fn is_missing(&self, i: u32) -> bool
        ensures { result ≡ get_or self.now i false }
    {
        i < self.blocks && is_set(self.words.as_slice(), i)
    }

    /// The least block that is missing.
    pub fn first_missing(&self) -> Option<u32>
        ensures { result ≡ sets.first self.now }
    {
        first_set(self.words.as_slice())
    }

    /// How many blocks are missing.
    pub fn count(&self) -> u32
        ensures { result ≡ sets.count self.now }
    {
        count_set(self.words.as_slice())
    }

    /// How many blocks there are, missing or not.
    pub fn blocks(&self) -> u32
        ensures { result ≡ length self.now }
    {
        self.blocks
    }
}

// The words of memory that were written.
ghost use Rattle.std.specs.Prelude.{◌≡◌, ◌<◌};
ghost use Rattle.blk_base.specs.Becomes.{Becomes};
ghost use Rattle.memory_check.specs.Words.{no_words, is_dense, word_in, with_word_in, put_at};

use blk_base::OutOfMemory;
use std::alloc::Global;
use std::collections::BTreeMap;
use std::marker::Model;

const FRAMES: u32 = 1024;

const FRAME_WORDS: u32 = 1024;

/// The words that were written, each with its value; the others are 0. Those of the guest's frames
/// lie in a list, which is as long as the last of them needs.
#[derive(Drop)]
pub(crate) struct Words {
    dense: Vec<u32>,
    sparse: BTreeMap<(u32, u32), u32>,
}

impl Model for Words {
    ghost use Rattle.memory_check.specs.Words.{WordValues};

    ghost Value = { WordValues };

    ghost view = { λ w. record { dense = w.dense.items; sparse = w.sparse.entries } };
}

fn is_dense(frame: u32, word: u32) -> bool
    ensures { result ≡ is_dense frame word }
{
    frame < FRAMES && word < FRAME_WORDS
}

// Writes at a place of a list, which grows where it is too short.
fn put_at(words: &mut Vec<u32>, place: usize, value: u32) -> Result<(), OutOfMemory>
    requires { place < 1048576 }
    ensures put { Becomes (put_at words.old.items place value) result words.old.items words.new.items }
{
    if place >= words.len() {
        words.resize(place + 1, 0)?;
    }
    words[place] = value;
    Ok(())
}

impl Words {
    pub(crate) fn new(alloc: Global) -> Words
        ensures { result ≡ no_words }
    {
        Words {
            dense: Vec::new(alloc),
            sparse: BTreeMap::new(alloc),
        }
    }

    /// The value of a word.
    #[inline(always)]
    pub(crate) fn value(&self, frame: u32, word: u32) -> u32
        ensures { result ≡ word_in self.now frame word }
    {
        if is_dense(frame, word) {
            let place = frame as usize * FRAME_WORDS as usize + word as usize;
            self.dense.get(place).copied().unwrap_or(0)
        } else {
            self.sparse.get(&(frame, word)).copied().unwrap_or(0)
        }
    }

    /// Takes in that a word was written. After want of memory nothing has changed.
    pub(crate) fn write(&mut self, frame: u32, word: u32, value: u32) -> Result<(), OutOfMemory>
        ensures written { Becomes (with_word_in self.old frame word value) result self.old self.new }
    {
        if is_dense(frame, word) {
            let place = frame as usize * FRAME_WORDS as usize + word as usize;
            put_at(&mut self.dense, place, value)
        } else {
            match self.sparse.insert((frame, word), value) {
                Ok(_) => Ok(()),
                Err(_) => Err(OutOfMemory),
            }
        }
    }

    /// Makes each word 0 again.
    pub(crate) fn clear(&mut self)
        ensures { self.new ≡ no_words }
    {
        self.dense.clear();
        self.sparse.clear();
    }
}

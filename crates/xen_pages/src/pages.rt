// Frames of words.
ghost use Rattle.std.specs.Prelude.{◌≡◌, ◌+◌, ◌*◌, ◌<◌, ◌≤◌, ◌++◌, length, take, drop, IfOk};
ghost use Rattle.xen_pages.specs.Pages.{word_of, with_word, words_of, with_words, zero_words, fresh_pages, owner_of, OnlyChanges, OnlyChangesWords};

use blk_base::OutOfMemory;
use std::alloc::Global;
use std::marker::Model;

const FRAMES: usize = 1088;

const FRAME_WORDS: usize = 1024;

const WORDS: usize = FRAMES * FRAME_WORDS;

const PIECE: usize = 256;

/// All frames of both domains. Contracts see the list of all words, frame after frame.
#[derive(Drop)]
pub struct Pages {
    words: Vec<u32>,
}

impl Model for Pages {
    ghost use Rattle.std.specs.Prelude.{◌≡◌, ℕ, List, length};

    ghost Value = { List ℕ };

    ghost view = { λ pages. pages.words.items };

    ghost invariant = { λ pages. length pages.words.items ≡ 1114112 };
}

impl Pages {
    /// Memory of which every word is 0, in one allocation.
    pub fn new(alloc: Global) -> Result<Pages, OutOfMemory>
        ensures zero { IfOk result (λ pages. pages ≡ fresh_pages) }
    {
        Ok(Pages {
            words: zeroed(alloc, WORDS / PIECE)?,
        })
    }

    /// The word `word` of the frame `frame`: the one last written there, or 0.
    pub fn read(&self, frame: u32, word: u32) -> u32
        requires frame_in { frame < 1088 }
        requires word_in { word < 1024 }
        ensures { result ≡ word_of self.now frame word }
    {
        self.words[frame as usize * FRAME_WORDS + word as usize]
    }

    /// Writes the word `word` of the frame `frame`, and no other.
    pub fn write(&mut self, frame: u32, word: u32, value: u32)
        requires frame_in { frame < 1088 }
        requires word_in { word < 1024 }
        ensures value { self.new ≡ with_word self.old frame word value }
        ensures only { OnlyChanges self.old self.new frame word value }
    {
        self.words[frame as usize * FRAME_WORDS + word as usize] = value;
    }

    /// As many words of the frame `frame` as `words` has room for, from the word `word` on: what so many
    /// reads give.
    pub fn read_words(&self, frame: u32, word: u32, words: &mut [u32])
        requires frame_in { frame < 1088 }
        requires words_in { word + length words.old ≤ 1024 }
        ensures { words.new ≡ words_of self.now frame word (length words.old) }
    {
        let first = frame as usize * FRAME_WORDS + word as usize;
        words.copy_from_slice(&self.words[first..first + words.len()]);
    }

    /// Writes these words of the frame `frame`, from the word `word` on, and no other: what so many
    /// writes make.
    pub fn write_words(&mut self, frame: u32, word: u32, words: &[u32])
        requires frame_in { frame < 1088 }
        requires words_in { word + length words.now ≤ 1024 }
        ensures value { self.new ≡ with_words self.old frame word words.now }
        ensures only { OnlyChangesWords self.old self.new frame word words.now }
    {
        let first = frame as usize * FRAME_WORDS + word as usize;
        put(&mut self.words, first, words);
    }

    /// The domain that a frame belongs to: 1 for frames 0 to 1023, 2 for frames 1024 to 1087.
    pub fn owner(frame: u32) -> u16
        requires { frame < 1088 }
        ensures { result ≡ owner_of frame }
    {
        if frame < 1024 { 1 } else { 2 }
    }
}

// Puts these words in a list from a place on.
fn put(all: &mut [u32], first: usize, words: &[u32])
    requires { first + length words.now ≤ length all.old }
    ensures len { length all.new ≡ length all.old }
    ensures put { all.new ≡ take first all.old ++ (words.now ++ drop (first + length words.now) all.old) }
{
    all[first..first + words.len()].copy_from_slice(words);
}

// So many pieces of words of 0, one after another. They are short: the C library clears a long stretch by an
// instruction that goes a byte at a time on some machines.
#[tactic(auto, unfolding(crate::specs::Pages::zero_words))]
fn zeroed(alloc: Global, pieces: usize) -> Result<Vec<u32>, OutOfMemory>
    requires { pieces ≤ 4352 }
    ensures zero { IfOk result (λ words. words.items ≡ zero_words (pieces * 256)) }
    ensures len { IfOk result (λ words. length words.items ≡ pieces * 256) }
{
    Ok([0; PIECE].repeat(alloc, pieces)?)
}

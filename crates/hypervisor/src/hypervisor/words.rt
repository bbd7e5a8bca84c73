// Words of a frame, many at once.
ghost use Rattle.std.specs.Prelude.{◌≡◌, ◌+◌, ◌<◌, ◌≤◌, length};
ghost use Rattle.blk_base.specs.declared.parts.Mode.TheVariants.{ReadWrite};
ghost use Rattle.xen_pages.specs.Pages.{words_of, with_words, OnlyChangesWords};
ghost use Rattle.grant_table.specs.Table.{IsLive, frame_of};
ghost use Rattle.hypervisor.specs.Act.{with_pages};

use super::Hypervisor;
use blk_base::Mapping;

impl Hypervisor {
    /// As many words of a frame of the front's memory as `words` has room for, from the word `word` on:
    /// what so many single reads give.
    pub fn read_front_words(&self, frame: u32, word: u32, words: &mut [u32])
        requires frame_in { frame < 1018 }
        requires words_in { word + length words.old ≤ 1024 }
        ensures { words.new ≡ words_of self.now.pages frame word (length words.old) }
    {
        self.pages.read_words(frame, word, words);
    }

    /// Writes these words of a frame of the front's memory, from the word `word` on: what so many single
    /// writes make.
    pub fn write_front_words(&mut self, frame: u32, word: u32, words: &[u32])
        requires frame_in { frame < 1018 }
        requires words_in { word + length words.now ≤ 1024 }
        ensures value { self.new ≡ with_pages self.old (with_words self.old.pages frame word words.now) }
        ensures only { OnlyChangesWords self.old.pages self.new.pages frame word words.now }
    {
        self.pages.write_words(frame, word, words);
    }

    /// As many words through a mapping that lives as `words` has room for, from the word `word` on: what
    /// so many single reads give.
    pub fn read_words(&self, mapping: Mapping, word: u32, words: &mut [u32])
        requires live { IsLive self.now.grants mapping }
        requires words_in { word + length words.old ≤ 1024 }
        ensures { words.new ≡ words_of self.now.pages (frame_of self.now.grants mapping) word (length words.old) }
    {
        self.grants.read_words(&self.pages, mapping, word, words);
    }

    /// Writes these words through a mapping for writing that lives, from the word `word` on: what so
    /// many single writes make.
    pub fn write_words(&mut self, mapping: Mapping, word: u32, words: &[u32])
        requires live { IsLive self.old.grants mapping }
        requires writable { mapping.mode ≡ ReadWrite }
        requires words_in { word + length words.now ≤ 1024 }
        ensures value { self.new ≡ with_pages self.old (with_words self.old.pages (frame_of self.old.grants mapping) word words.now) }
        ensures only { OnlyChangesWords self.old.pages self.new.pages (frame_of self.old.grants mapping) word words.now }
    {
        self.grants
            .write_words(&mut self.pages, mapping, word, words);
    }

    /// The frame that a mapping that lives was given when it was made.
    pub fn frame_of(&self, mapping: Mapping) -> u32
        requires { IsLive self.now.grants mapping }
        ensures frame { result ≡ frame_of self.now.grants mapping }
        ensures grantable { (2 ≤ result) × (result ≤ 1023) }
    {
        self.grants.frame_of(mapping)
    }
}

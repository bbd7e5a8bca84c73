// Words through a mapping, many at once.
ghost use Rattle.std.specs.Prelude.{◌≡◌, ◌+◌, ◌≤◌, length};
ghost use Rattle.blk_base.specs.declared.parts.Mode.TheVariants.{ReadWrite};
ghost use Rattle.xen_pages.specs.Pages.{words_of, with_words, OnlyChangesWords};
ghost use Rattle.grant_table.specs.Table.{IsLive, frame_of};

use super::Grants;
use blk_base::Mapping;
use xen_pages::Pages;

impl Grants {
    /// As many words of a live mapping's frame as `words` has room for, from the word `word` on.
    pub fn read_words(&self, pages: &Pages, mapping: Mapping, word: u32, words: &mut [u32])
        requires live { IsLive self.now mapping }
        requires words_in { word + length words.old ≤ 1024 }
        ensures { words.new ≡ words_of pages.now (frame_of self.now mapping) word (length words.old) }
    {
        pages.read_words(self.frame_of(mapping), word, words);
    }

    /// Writes these words of the frame of a live mapping for writing, from the word `word` on.
    pub fn write_words(&self, pages: &mut Pages, mapping: Mapping, word: u32, words: &[u32])
        requires live { IsLive self.now mapping }
        requires writable { mapping.mode ≡ ReadWrite }
        requires words_in { word + length words.now ≤ 1024 }
        ensures value { pages.new ≡ with_words pages.old (frame_of self.now mapping) word words.now }
        ensures only { OnlyChangesWords pages.old pages.new (frame_of self.now mapping) word words.now }
    {
        pages.write_words(self.frame_of(mapping), word, words);
    }
}

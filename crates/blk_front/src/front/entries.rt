// Words of an entry, many at once.
ghost use Rattle.std.specs.Prelude.{◌≡◌, true, None, IfSome, drop};
ghost use Rattle.blk_front.specs.Keep.{ask_as, step_as};
ghost use Rattle.blk_front.specs.Part.{entry_from, has_word, entry_part, entry_words, HasEntered, AsksEntry, IsEntryWithin, all_written, steps_as, AreTellable};

use super::Front;
use crate::entry_part::EntryPart;
use crate::place;
use crate::stage::FrontStage;

impl Front {
    /// The words of the entry in hand that it writes next, as single asks would name them one after another: up to the
    /// entry's last word, or to the last one of their frame where the entry goes on in the next. `None` where it writes
    /// no entry, and at the first word of an entry with which a request is begun.
    #[inline(always)]
    pub fn entry_part(&self) -> Option<EntryPart>
        ensures value { result ≡ entry_part self.now }
        ensures asked { IfSome result (AsksEntry ask_as step_as self.now (entry_words self.now)) }
        ensures within { IfSome result (IsEntryWithin (entry_words self.now)) }
    {
        match self.stage {
            FrontStage::Slot(k) if self.has_word(k) => Some(self.entry_from(k)),
            _ => None,
        }
    }

    // Whether the entry in hand is whole, and this is one of its words.
    #[inline(always)]
    fn has_word(&self, k: u32) -> bool
        ensures { result ≡ has_word self.now k }
    {
        let count = self.ring.entry.len();
        count == self.shape().entry_words() as usize && (k as usize) < count
    }

    // Its words from word `k` on.
    #[inline(always)]
    fn entry_from(&self, k: u32) -> EntryPart
        requires { has_word self.now k ≡ true }
        ensures value { result ≡ entry_from self.now k }
        ensures within { IsEntryWithin (drop k self.now.ring.entry) result }
    {
        let (frame, word) = place::slot(self.shape(), self.ring.indices.prod(), k);
        EntryPart {
            frame,
            word,
            count: (self.ring.entry.len() as u32 - k).min(1024 - word),
        }
    }

    /// What the words of the entry in hand are to be, from the one that it writes next on up to the entry's last one; none
    /// where it writes no entry.
    #[inline(always)]
    pub fn entry_words(&self) -> &[u32]
        ensures { result.now ≡ entry_words self.now }
    {
        match self.stage {
            FrontStage::Slot(k) => self.ring.entry.as_slice().get(k as usize..).unwrap_or(&[]),
            _ => &[],
        }
    }

    /// So many of the words of the entry that it asks for were written: as many single answers, one after another. Nothing
    /// is told.
    #[inline(always)]
    pub fn tell_entered(&mut self, count: u32)
        requires part { HasEntered (entry_part self.old) count }
        requires told { self.old.told ≡ None }
        ensures front { self.new ≡ steps_as self.old (all_written count) }
        ensures each { AreTellable self.old (all_written count) }
        ensures told { self.new.told ≡ None }
    {
        let FrontStage::Slot(k) = self.stage else {
            return;
        };
        if count != 0 {
            let last = k + (count - 1);
            self.stage = FrontStage::Slot(last);
            self.wrote_slot(last);
        }
    }
}

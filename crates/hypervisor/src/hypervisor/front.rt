// What is done at an ask of the front.
ghost use Rattle.std.specs.Prelude.{◌≡◌, IfOk, OnOk, OnErr};
ghost use Rattle.xen_pages.specs.Pages.{word_of, with_word};
ghost use Rattle.hypervisor.specs.Act.{front_act, front_seen, front_under, front_with_move, with_pages};
ghost use Rattle.hypervisor.specs.May.{FrontMay, FrontTakesMemory, IsPlace};

use super::{Hypervisor, Room};
use blk_base::{End, FrontAnswer, FrontAsk, OutOfMemory};

impl Hypervisor {
    /// Does what the front asks, and gives the answer; `None`, with nothing done, exactly where it
    /// waits and neither an event is pending nor a watch, or writes a key outside its own directory.
    /// Only a key that is set and a watch take memory: after `OutOfMemory` nothing has changed.
    #[inline(always)]
    pub fn front<'a>(
        &mut self,
        ask: &FrontAsk,
        room: &'a mut Room,
    ) -> Result<Option<FrontAnswer<'a>>, OutOfMemory>
        requires may { FrontMay self.old ask.now }
        ensures acted { IfOk result (λ answer. front_with_move ask.now answer ≡ front_seen (front_act self.old ask.now)) }
        ensures under { OnOk result (self.new ≡ front_under self.old (front_act self.old ask.now)) }
        ensures unchanged { OnErr result (self.new ≡ self.old) }
        ensures memory { OnErr result (FrontTakesMemory ask.now) }
    {
        match ask {
            FrontAsk::Wait => Ok(self.front_event(room)),
            FrontAsk::Fence => Ok(Some(FrontAnswer::Done)),
            FrontAsk::Read { frame, word } => {
                Ok(Some(FrontAnswer::Word(self.read_front(*frame, *word))))
            }
            FrontAsk::Write { frame, word, value } => {
                self.write_front(*frame, *word, *value);
                Ok(Some(FrontAnswer::Done))
            }
            FrontAsk::Cas {
                frame,
                word,
                old,
                new,
            } => Ok(self.front_exchange(*frame, *word, *old, *new)),
            FrontAsk::NewPort => Ok(Some(FrontAnswer::Port(self.channels.alloc_unbound().0))),
            FrontAsk::Send => {
                self.channels.send(End::Front);
                Ok(Some(FrontAnswer::Done))
            }
            FrontAsk::ClosePort => {
                self.channels.close(End::Front);
                Ok(Some(FrontAnswer::Done))
            }
            FrontAsk::GetKey(path) => Ok(Some(FrontAnswer::Key(self.key(path.get(), room)))),
            FrontAsk::SetKey(path, text) => {
                if self.set_key(End::Front, path.get(), text.get())? {
                    return Ok(Some(FrontAnswer::Done));
                }
                Ok(None)
            }
            FrontAsk::Watch(path) => {
                self.watch(End::Front, path.get())?;
                Ok(Some(FrontAnswer::Done))
            }
        }
    }

    /// Reads a word of the front's memory, as `front` does where that is asked; the answer is then that
    /// word.
    #[inline(always)]
    pub fn read_front(&self, frame: u32, word: u32) -> u32
        requires place { IsPlace frame word }
        ensures { result ≡ word_of self.now.pages frame word }
    {
        self.pages.read(frame, word)
    }

    /// Writes a word of the front's memory, as `front` does where that is asked; the answer is then
    /// `Done`.
    #[inline(always)]
    pub fn write_front(&mut self, frame: u32, word: u32, value: u32)
        requires place { IsPlace frame word }
        ensures { self.new ≡ with_pages self.old (with_word self.old.pages frame word value) }
    {
        self.pages.write(frame, word, value);
    }

    // The front takes its event, or else its watch, if there is one.
    #[inline(always)]
    fn front_event<'a>(&mut self, room: &'a mut Room) -> Option<FrontAnswer<'a>>
        ensures acted { front_with_move FrontAsk.Wait result ≡ front_seen (front_act self.old FrontAsk.Wait) }
        ensures under { self.new ≡ front_under self.old (front_act self.old FrontAsk.Wait) }
    {
        if self.channels.pending(End::Front) {
            self.channels.take(End::Front);
            return Some(FrontAnswer::Event);
        }
        match self.take_watch(End::Front, room) {
            None => None,
            Some(path) => Some(FrontAnswer::Watched(path)),
        }
    }

    fn front_exchange(
        &mut self,
        frame: u32,
        word: u32,
        old: u32,
        new: u32,
    ) -> Option<FrontAnswer<'static>>
        requires place { IsPlace frame word }
        ensures acted { front_with_move (FrontAsk.Cas frame word old new) result ≡ front_seen (front_act self.old (FrontAsk.Cas frame word old new)) }
        ensures under { self.new ≡ front_under self.old (front_act self.old (FrontAsk.Cas frame word old new)) }
    {
        let seen = self.pages.read(frame, word);
        if seen == old {
            self.pages.write(frame, word, new);
        }
        Some(FrontAnswer::Word(seen))
    }
}

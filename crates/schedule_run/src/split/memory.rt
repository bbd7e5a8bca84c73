// The guest's memory and keys, as a hostile hand overwrites them and as a dump shows its words.
ghost use Rattle.std.specs.Prelude.{◌≡◌, ◌<◌, ◌+◌, ◌/◌, ◌%◌, ◌^◌, ◌∷◌, [], true};
ghost use Rattle.blk_io.specs.Disk.{DiskSeen};
ghost use Rattle.schedule_text.specs.Recorder.{Adds};
ghost use Rattle.xen_pages.specs.Pages.{word_of};
ghost use Rattle.split_model.specs.Happening.{is_guest_word, is_guest_key, word_lines};
ghost use Rattle.split_model.specs.Keys.{front_path};
ghost use Rattle.vbd_model.specs.Happening.{Pokes, OverwritesKey, Dumps};
ghost use Rattle.vbd_model.specs.Leads.{Goes, Is, moment};

use super::Split;
use arrayvec::ArrayString;
use blk_base::{End, FrontAsk, KeyName, Lent, Path, ShortText, Text};
use key_directory::directory_of;
use schedule_text::{Line, RecordStop, Recorder};

// The frame of the ring's first page.
const RING_FRAME: u32 = 2;

impl Split {
    /// A hostile hand overwrites a word of the guest's memory, and that is shown: frames 0 to 1023,
    /// words 0 to 1023.
    pub fn poke<R: Recorder>(
        &mut self,
        frame: u32,
        word: u32,
        value: u32,
        recorder: &mut R,
    ) -> Result<(), RecordStop>
        requires there { is_guest_word frame word ≡ true }
        ensures small { value < 2 ^ 32 }
        ensures goes { (disk : DiskSeen) → Goes (Is (Pokes frame word value ∷ [])) (Is (Pokes frame word value ∷ [])) 0 result
            (moment self.old disk (R.seen recorder.old))
            (moment self.new disk (R.seen recorder.new)) }
    {
        self.under.overwrite(frame, word, value);
        recorder.add(&Line::Poke { frame, word, value })
    }

    /// A hostile hand overwrites a key below the front's directory, with a name and a text of the
    /// grammar, and that is shown; the watch of whoever watches it fires. Where there is no memory for the key
    /// nothing happens.
    pub fn overwrite_key<R: Recorder>(
        &mut self,
        name: &KeyName,
        text: &Text,
        recorder: &mut R,
    ) -> Result<(), RecordStop>
        requires allowed { is_guest_key name.now text.now ≡ true }
        ensures { (disk : DiskSeen) → Goes (Is (OverwritesKey name.now text.now ∷ [])) (Is (OverwritesKey name.now text.now ∷ [])) 0 result
            (moment self.old disk (R.seen recorder.old))
            (moment self.new disk (R.seen recorder.new)) }
    {
        let path = path_of(name);
        let ask = FrontAsk::SetKey(Lent::at(&path), Lent::at(text));
        let Ok(_) = self.under.front(&ask, &mut self.room) else {
            return Err(RecordStop::OutOfMemory);
        };
        recorder.add(&Line::Key {
            name: *name,
            text: *text,
        })
    }

    /// Shows each word of the ring that isn't 0, in order: 1024 words of each of its pages.
    pub fn dump<R: Recorder>(&self, recorder: &mut R) -> Result<(), RecordStop>
        ensures { (disk : DiskSeen) → Goes (Is (Dumps ∷ [])) (Is (Dumps ∷ [])) 0 result
            (moment self.now disk (R.seen recorder.old))
            (moment self.now disk (R.seen recorder.new)) }
    {
        let words = 1024 * self.front.ring_pages();
        let mut place = 0;
        while place < words {
            self.show_word(place, recorder)?;
            place += 1;
        }
        Ok(())
    }

    // Shows the word of the ring at a place, unless it is 0.
    fn show_word<R: Recorder>(&self, place: u32, recorder: &mut R) -> Result<(), RecordStop>
        requires { place < 16384 }
        ensures { Adds (word_lines place (word_of self.now.rings.under.pages (2 + place / 1024) (place % 1024))) result
            (R.seen recorder.old) (R.seen recorder.new) }
    {
        let frame = RING_FRAME + place / 1024;
        let word = place % 1024;
        let value = self.under.read_front(frame, word);
        if value == 0 {
            return Ok(());
        }
        recorder.add(&Line::Word { frame, word, value })
    }
}

// Where the front's key of this name lies.
fn path_of(name: &KeyName) -> Path
    ensures { result ≡ front_path name.now }
{
    let mut path: ArrayString<80> = ArrayString::new();
    path.push_str(directory_of(End::Front));
    path.push_str("/");
    path.push_str(name.as_str());
    ShortText::of(path.as_str())
}

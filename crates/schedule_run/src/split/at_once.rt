// Rounds of nothing but words of sectors and of entries, many at once.
ghost use Rattle.std.specs.Prelude.{◌≡◌, ◌<◌, ◌≤◌};
ghost use Rattle.vbd_model.specs.Leads.{IsReadyFor, moment};
ghost use Rattle.round_laws.specs.AtOnce.{moved};
ghost use Rattle.round_laws.specs.Calls.{MayMoveAtOnce};
ghost use Rattle.schedule_run.specs.Going.{GoesRounds};

use super::Split;
use super::looking::{words_of_back, words_of_front, words_of_jobs};
use super::words::{move_back, move_front, move_jobs};
use blk_io::SectorDisk;
use schedule_text::{Detail, RecordStop, Recorder};

impl Split {
    // Some rounds, that many at most: where it is to look and the recorder keeps no lines of moves, all at
    // once that move nothing but words of sectors and of entries; else one.
    #[inline(always)]
    pub(super) fn some_rounds<D: SectorDisk, R: Recorder>(
        &mut self,
        most: u64,
        looks: bool,
        disk: &mut D,
        recorder: &mut R,
    ) -> Result<u64, RecordStop>
        requires some { 0 < most }
        requires ready { IsReadyFor 42 self.old (D.seen disk.old) }
        ensures { GoesRounds most result
            (moment self.old (D.seen disk.old) (R.seen recorder.old))
            (moment self.new (D.seen disk.new) (R.seen recorder.new)) }
    {
        if looks {
            if let Detail::Lines = recorder.detail() {
                let count = self.rounds_of_words(most);
                if count > 0 {
                    self.move_words(count);
                    return Ok(u64::from(count));
                }
            }
        }
        self.round(disk, recorder)?;
        Ok(1)
    }

    // How many rounds, that many at most, move nothing but words, none of them the last of a sector or of an
    // entry: each job is in the middle of a sector's words, the front of a sector's or of an entry's, and the
    // back of an entry's, or it waits. None elsewhere.
    fn rounds_of_words(&self, most: u64) -> u32
        ensures few { result ≤ most }
        ensures words { 0 < result → MayMoveAtOnce result self.now }
    {
        let mut marks = [0u64; 17];
        let most = if most < 4_294_967_295 {
            most as u32
        } else {
            4_294_967_295
        };
        let count = words_of_front(&self.front, &self.under, most, &mut marks);
        if count == 0 {
            return 0;
        }
        let count = words_of_back(&self.back, &self.under, count, &mut marks);
        if count == 0 {
            return 0;
        }
        words_of_jobs(&self.back, &self.under, count, &mut marks)
    }

    // So many rounds of nothing but words of sectors and of entries.
    fn move_words(&mut self, count: u32)
        requires { MayMoveAtOnce count self.old }
        ensures { self.new ≡ moved count self.old }
    {
        move_back(&mut self.back, &self.under, count);
        move_jobs(&mut self.back, &mut self.under, count);
        move_front(&mut self.front, &mut self.under, count);
    }
}

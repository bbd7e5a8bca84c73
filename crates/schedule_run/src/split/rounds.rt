// Many moves: of one end, of a job, and in rounds.
ghost use Rattle.std.specs.Prelude.{◌*◌, ◌≤◌, ◌∷◌, [], replicate};
ghost use Rattle.blk_io.specs.Disk.{DiskSeen};
ghost use Rattle.blk_front.specs.Submit.{sectors_owed};
ghost use Rattle.vbd_model.specs.World.{is_quiet};
ghost use Rattle.vbd_model.specs.Happening.{FrontMoves, BackMoves, Looks};
ghost use Rattle.vbd_model.specs.Kind.{AreSomeJobMoves, AreFewJobMoves, AreAllJobs, HasEachJobs};
ghost use Rattle.vbd_model.specs.Kind.{most_rounds, IsRound, IsRoundSoFar, AreRounds, never, AreRoundsSoFar, AreRoundsUntilQuiet, IsSettling, IsSettlingSoFar};
ghost use Rattle.vbd_model.specs.Leads.{Goes, Is, IsReadyFor, moment};
ghost use Rattle.schedule_run.specs.Going.{GoesThrough};

use super::Split;
use blk_io::SectorDisk;
use schedule_text::{Line, RecordStop, Recorder};

impl Split {
    /// That many moves of the front, where it has them.
    pub fn front_moves<R: Recorder>(
        &mut self,
        count: u32,
        recorder: &mut R,
    ) -> Result<(), RecordStop>
        ensures { (disk : DiskSeen) → GoesThrough (replicate count FrontMoves) 0 result
            (moment self.old disk (R.seen recorder.old))
            (moment self.new disk (R.seen recorder.new)) }
    {
        for _ in 0..count {
            self.front_move(recorder)?;
        }
        Ok(())
    }

    /// That many moves of the back, where it has them.
    pub fn back_moves<D: SectorDisk, R: Recorder>(
        &mut self,
        count: u32,
        disk: &mut D,
        recorder: &mut R,
    ) -> Result<(), RecordStop>
        requires { IsReadyFor (41 * count) self.old (D.seen disk.old) }
        ensures { GoesThrough (replicate count BackMoves) (41 * count) result
            (moment self.old (D.seen disk.old) (R.seen recorder.old))
            (moment self.new (D.seen disk.new) (R.seen recorder.new)) }
    {
        for _ in 0..count {
            self.back_move(disk, recorder)?;
        }
        Ok(())
    }

    /// That many moves of the job of a number, where it has them.
    pub fn job_moves<D: SectorDisk, R: Recorder>(
        &mut self,
        number: u32,
        count: u32,
        disk: &mut D,
        recorder: &mut R,
    ) -> Result<(), RecordStop>
        requires { IsReadyFor 1 self.old (D.seen disk.old) }
        ensures { Goes (AreSomeJobMoves number count) (AreFewJobMoves number count) 0 result
            (moment self.old (D.seen disk.old) (R.seen recorder.old))
            (moment self.new (D.seen disk.new) (R.seen recorder.new)) }
    {
        for _ in 0..count {
            self.job_move(u64::from(number), disk, recorder)?;
        }
        Ok(())
    }

    // One move of each job, by number.
    #[inline(always)]
    fn each_job<D: SectorDisk, R: Recorder>(
        &mut self,
        disk: &mut D,
        recorder: &mut R,
    ) -> Result<(), RecordStop>
        requires { IsReadyFor 1 self.old (D.seen disk.old) }
        ensures { Goes (AreAllJobs self.old) (λ hs. HasEachJobs self.old hs) 0 result
            (moment self.old (D.seen disk.old) (R.seen recorder.old))
            (moment self.new (D.seen disk.new) (R.seen recorder.new)) }
    {
        let mut last = 0;
        while let Some(number) = self.back.next_job(last) {
            self.job_move(number, disk, recorder)?;
            last = number;
        }
        Ok(())
    }

    // A round: a move of the front, one of the back, then one of each job.
    #[inline(always)]
    pub(super) fn round<D: SectorDisk, R: Recorder>(
        &mut self,
        disk: &mut D,
        recorder: &mut R,
    ) -> Result<(), RecordStop>
        requires { IsReadyFor 42 self.old (D.seen disk.old) }
        ensures { Goes (IsRound self.old) (IsRoundSoFar self.old) 42 result
            (moment self.old (D.seen disk.old) (R.seen recorder.old))
            (moment self.new (D.seen disk.new) (R.seen recorder.new)) }
    {
        self.front_move(recorder)?;
        self.back_move(disk, recorder)?;
        self.each_job(disk, recorder)
    }

    /// That many rounds.
    pub fn turn<D: SectorDisk, R: Recorder>(
        &mut self,
        count: u32,
        disk: &mut D,
        recorder: &mut R,
    ) -> Result<(), RecordStop>
        requires { IsReadyFor (42 * count) self.old (D.seen disk.old) }
        ensures { Goes (AreRounds never count self.old) (AreRoundsSoFar never count self.old) (42 * count) result
            (moment self.old (D.seen disk.old) (R.seen recorder.old))
            (moment self.new (D.seen disk.new) (R.seen recorder.new)) }
    {
        let mut left = u64::from(count);
        let mut looks = true;
        while left > 0 {
            let gone = self.some_rounds(left, looks, disk, recorder)?;
            // After many at once the next one moves a last word.
            looks = gone == 1;
            left -= gone;
        }
        Ok(())
    }

    // Rounds until all is quiet, that many at most.
    fn rounds_until_quiet<D: SectorDisk, R: Recorder>(
        &mut self,
        bound: u64,
        disk: &mut D,
        recorder: &mut R,
    ) -> Result<(), RecordStop>
        requires { IsReadyFor (42 * bound) self.old (D.seen disk.old) }
        ensures { Goes (AreRoundsUntilQuiet bound self.old) (AreRoundsSoFar is_quiet bound self.old) (42 * bound) result
            (moment self.old (D.seen disk.old) (R.seen recorder.old))
            (moment self.new (D.seen disk.new) (R.seen recorder.new)) }
    {
        let mut left = bound;
        let mut looks = true;
        while left > 0 {
            if self.is_quiet() {
                return Ok(());
            }
            let gone = self.some_rounds(left, looks, disk, recorder)?;
            // After many at once the next one moves a last word.
            looks = gone == 1;
            left -= gone;
        }
        Ok(())
    }

    /// Rounds until all is quiet, so many at most as the unfinished requests allow, and what was found.
    pub fn settle<D: SectorDisk, R: Recorder>(
        &mut self,
        disk: &mut D,
        recorder: &mut R,
    ) -> Result<(), RecordStop>
        requires ready { IsReadyFor (42 * most_rounds) self.old (D.seen disk.old) }
        requires owing { sectors_owed self.old.rings.front ≤ 8000 }
        ensures { Goes (IsSettling self.old) (IsSettlingSoFar self.old) (42 * most_rounds) result
            (moment self.old (D.seen disk.old) (R.seen recorder.old))
            (moment self.new (D.seen disk.new) (R.seen recorder.new)) }
    {
        let (requests, sectors) = self.front.owed();
        let bound = 20_000 + 2_000 * u64::from(requests) + 2_000 * sectors;
        self.rounds_until_quiet(bound, disk, recorder)?;
        let line = if self.is_quiet() {
            Line::Quiet
        } else {
            Line::Unsettled
        };
        recorder.add(&line)
    }

    /// Whether all is quiet, said in a line.
    pub fn look<R: Recorder>(&mut self, recorder: &mut R) -> Result<(), RecordStop>
        ensures { (disk : DiskSeen) → Goes (Is (Looks (is_quiet self.old) ∷ [])) (Is (Looks (is_quiet self.old) ∷ [])) 0 result
            (moment self.old disk (R.seen recorder.old))
            (moment self.new disk (R.seen recorder.new)) }
    {
        let line = if self.is_quiet() {
            Line::Quiet
        } else {
            Line::Busy
        };
        recorder.add(&line)
    }
}

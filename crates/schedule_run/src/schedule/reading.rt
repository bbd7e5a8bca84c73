// The schedule's bytes as they come.
ghost use Rattle.std.specs.Prelude.{◌≡◌, ◌≤◌, ◌∷◌, [], Some, length};
ghost use Rattle.blk_io.specs.Disk.{attached_of};
ghost use Rattle.vbd_model.specs.Leads.{moment};
ghost use Rattle.schedule_run.specs.Carrying.{read_so_far, IsFresh, IsReadyToTake, Feeds, Finishes, Takes, ReadsHandedOn, ReadsAll};

use super::{RunStop, stop_of};
use crate::machine::Machine;
use arrayvec::ArrayVec;
use blk_io::{Failed, SectorDisk, Source};
use schedule_text::{BadLine, Recorder, read_event};

// How many bytes are asked of the source at once.
const PIECE: usize = 4096;

/// A machine with the bytes of the line that was begun, and the number of whole lines so far.
#[derive(Drop)]
pub struct Reader {
    pub machine: Machine,
    pub part: ArrayVec<u8, 128>,
    pub lines: u64,
}

impl Reader {
    /// Reads the source to its end, and carries out each line of it. Nothing was read before.
    pub fn read_all<S: Source, D: SectorDisk, R: Recorder>(
        &mut self,
        bytes_limit: u64,
        source: &mut S,
        disk: &mut D,
        recorder: &mut R,
    ) -> Result<(), RunStop>
        requires limit { bytes_limit ≤ 4294967296 }
        requires fresh { IsFresh (read_so_far self.old.machine self.old.part.items self.old.lines (D.seen disk.old) (R.seen recorder.old)) }
        requires attached { attached_of (D.seen disk.old) ≡ Some self.old.machine.world.rings.back.jobs.info.sectors }
        ensures { ReadsAll bytes_limit result (S.seen source.old) (S.seen source.new)
            (moment self.old.machine.world (D.seen disk.old) (R.seen recorder.old))
            (moment self.new.machine.world (D.seen disk.new) (R.seen recorder.new)) }
    {
        let mut piece = [0; PIECE];
        let mut room = bytes_limit;
        while room > 0 {
            let most = room.min(PIECE as u64) as usize;
            let count = match read_handed_on(&mut piece[..most], source, recorder) {
                Ok(count) => count,
                Err(stop) => return Err(stop),
            };
            if count == 0 {
                return self.end(disk, recorder);
            }
            room -= count as u64;
            self.take(&piece[..count], disk, recorder)?;
        }
        Err(RunStop::TooLong)
    }

    // The last line may lack its line feed.
    fn end<D: SectorDisk, R: Recorder>(
        &mut self,
        disk: &mut D,
        recorder: &mut R,
    ) -> Result<(), RunStop>
        requires { IsReadyToTake 0 (read_so_far self.old.machine self.old.part.items self.old.lines (D.seen disk.old) (R.seen recorder.old)) }
        ensures { Finishes result
            (read_so_far self.old.machine self.old.part.items self.old.lines (D.seen disk.old) (R.seen recorder.old))
            (read_so_far self.new.machine self.new.part.items self.new.lines (D.seen disk.new) (R.seen recorder.new)) }
    {
        if self.part.is_empty() {
            return Ok(());
        }
        self.end_line(disk, recorder)
    }

    // Takes bytes as they come.
    fn take<D: SectorDisk, R: Recorder>(
        &mut self,
        piece: &[u8],
        disk: &mut D,
        recorder: &mut R,
    ) -> Result<(), RunStop>
        requires { IsReadyToTake (length piece.now) (read_so_far self.old.machine self.old.part.items self.old.lines (D.seen disk.old) (R.seen recorder.old)) }
        ensures { Takes piece.now result
            (read_so_far self.old.machine self.old.part.items self.old.lines (D.seen disk.old) (R.seen recorder.old))
            (read_so_far self.new.machine self.new.part.items self.new.lines (D.seen disk.new) (R.seen recorder.new)) }
    {
        for byte in piece {
            self.take_byte(*byte, disk, recorder)?;
        }
        Ok(())
    }

    // At a line feed the line is carried out; a line with more than 128 bytes is none.
    fn take_byte<D: SectorDisk, R: Recorder>(
        &mut self,
        byte: u8,
        disk: &mut D,
        recorder: &mut R,
    ) -> Result<(), RunStop>
        requires { IsReadyToTake 1 (read_so_far self.old.machine self.old.part.items self.old.lines (D.seen disk.old) (R.seen recorder.old)) }
        ensures { Takes (byte ∷ []) result
            (read_so_far self.old.machine self.old.part.items self.old.lines (D.seen disk.old) (R.seen recorder.old))
            (read_so_far self.new.machine self.new.part.items self.new.lines (D.seen disk.new) (R.seen recorder.new)) }
    {
        if byte == b'\n' {
            return self.end_line(disk, recorder);
        }
        if self.part.is_full() {
            return Err(RunStop::BadLine(self.lines + 1));
        }
        self.part.push(byte);
        Ok(())
    }

    // Carries out the line.
    fn end_line<D: SectorDisk, R: Recorder>(
        &mut self,
        disk: &mut D,
        recorder: &mut R,
    ) -> Result<(), RunStop>
        requires { IsReadyToTake 0 (read_so_far self.old.machine self.old.part.items self.old.lines (D.seen disk.old) (R.seen recorder.old)) }
        ensures { Feeds result
            (read_so_far self.old.machine self.old.part.items self.old.lines (D.seen disk.old) (R.seen recorder.old))
            (read_so_far self.new.machine self.new.part.items self.new.lines (D.seen disk.new) (R.seen recorder.new)) }
    {
        let number = self.lines + 1;
        let event = match read_event(self.part.as_slice()) {
            Ok(event) => event,
            Err(BadLine) => return Err(RunStop::BadLine(number)),
        };
        if let Some(event) = event {
            if let Err(stop) = self.machine.event(event, disk, recorder) {
                return Err(stop_of(stop));
            }
        }
        self.part.clear();
        self.lines = number;
        Ok(())
    }
}

/// Has the recorder hand on what it keeps back, and then reads some of the source: whoever gives the
/// lines as the report comes has all of it before he is waited for. It stops with `Sink` where the
/// recorder failed, with nothing read, and with `Source` where the source did.
pub fn read_handed_on<S: Source, R: Recorder>(
    piece: &mut [u8],
    source: &mut S,
    recorder: &mut R,
) -> Result<usize, RunStop>
    ensures { ReadsHandedOn piece.new result (S.seen source.old) (S.seen source.new) (R.seen recorder.old) (R.seen recorder.new) }
{
    if recorder.flush().is_err() {
        return Err(RunStop::Sink);
    }
    match source.read(piece) {
        Ok(count) => Ok(count),
        Err(Failed) => Err(RunStop::Source),
    }
}

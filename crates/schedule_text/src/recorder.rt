// Who keeps a report's lines.
ghost use Rattle.std.specs.Prelude.{◌≡◌, ◌∷◌, [], IfSome, is_some};
ghost use Rattle.blk_base.specs.Access.{move_of, is_access};
ghost use Rattle.schedule_text.specs.Recorder.{Adds, HandsOnLines, detail_of};

use crate::line::{Detail, Line};
use blk_base::{Access, Move};
use blk_io::Failed;

/// Why a line wasn't added.
#[derive(Clone, Copy, Debug, PartialEq, Eq)]
pub enum RecordStop {
    /// The sink failed.
    Failed,
    /// There is not enough memory.
    OutOfMemory,
}

/// How a schedule's rounds ended.
#[derive(Clone, Copy, PartialEq, Eq)]
pub enum RoundsEnd {
    Quiet,
    Unsettled,
}

/// How many lines of four kinds there were, each count stopping at 18446744073709551615, and the
/// last word of `quiet` and `unsettled`.
#[derive(Clone, Copy, PartialEq, Eq)]
pub struct Tally {
    pub submitted: u64,
    pub refused: u64,
    pub effects: u64,
    pub answered: u64,
    pub last: Option<RoundsEnd>,
}

/// What the line of a move is made of. Whoever hands it over makes no move of it: the recorder does,
/// where it keeps such lines.
pub trait Shown {
    ghost use Rattle.blk_base.specs.declared.moves.Move.{Move};

    /// The move.
    ghost shown: { Self → Move };

    /// What must be so where the move is made, as that a mapping lives.
    ghost may: { Self → Type 0 } = { λ _. Unit {0} };

    /// The move where it reads or writes a word, as most moves do; `None` where it does something else.
    fn access(&self) -> Option<Access>
        requires { may self.now }
        ensures same { IfSome result (λ access. move_of access ≡ shown self.now) }
        ensures all { is_some result ≡ is_access (shown self.now) };

    /// Makes the move, as a report shows it. A move has room for a path and a text, so an access isn't
    /// made one where its line is written at once.
    fn shown(&self) -> Move
        requires { may self.now }
        ensures { result ≡ shown self.now };
}

/// Who keeps a report's lines, as they come. A call that fails counts a fault, and nothing else does.
pub trait Recorder {
    ghost use Rattle.schedule_text.specs.Recorder.{RecorderSeen};

    /// What it exposes: what it tells of the lines so far; its detail, which never changes; how often
    /// it failed; what a sink under it keeps back; and the reference to a sink that it was lent, which
    /// stays the same, so that what the recorder tells in the end is what its sink then holds.
    ghost seen: { Self → RecorderSeen };

    /// Which lines it keeps. One that keeps no lines of moves tells nothing of them.
    fn detail(&self) -> Detail
        ensures { result ≡ detail_of (seen self.now) };

    /// Adds a line. A `begin` line says this recorder's word, whichever word it has here.
    fn add(&mut self, line: &Line) -> Result<(), RecordStop>
        ensures { Adds (line.now ∷ []) result (seen self.old) (seen self.new) };

    /// Adds the line of a move, where it keeps such lines; where it doesn't, no line is made.
    fn add_move<S: Shown>(&mut self, made: &S) -> Result<(), RecordStop>
        requires { S.may made.now }
        ensures { Adds (Line.Move (S.shown made.now) ∷ []) result (seen self.old) (seen self.new) };

    /// Hands on what a sink under it keeps back.
    fn flush(&mut self) -> Result<(), Failed>
        ensures { HandsOnLines result (seen self.old) (seen self.new) };
}

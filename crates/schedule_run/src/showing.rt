// The lines that a move shows.
ghost use Rattle.std.specs.Prelude.{◌≡◌, ◌∷◌, ◌++◌, [], Some, None, if◌then◌else◌};
ghost use Rattle.schedule_text.specs.Recorder.{Adds};
ghost use Rattle.split_model.specs.Happening.{submit_line};
ghost use Rattle.hypervisor.specs.Act.{front_shown, back_shown};
ghost use Rattle.hypervisor.specs.May.{MayShow};
ghost use Rattle.schedule_run.specs.Following.{Follows, frontend_lines};
ghost use Rattle.vbd_front.specs.View.{heard};
ghost use Rattle.vbd_model.specs.News.{news_lines};
ghost use Rattle.split_model.specs.Shown.{front_lines, back_lines, halt_lines, effect_line};

use blk_back::BackTold;
use blk_base::{
    Access, BackAnswer, BackAsk, BackMover, FrontAnswer, FrontAsk, Halt, Move, Refusal, Submission,
};
use blk_front::Told;
use hypervisor::{Hypervisor, front_access, front_shown};
use schedule_text::{Line, RecordStop, Recorder, Shown};
use vbd_front::Frontend;
use xenbus_state::FrontNews;

/// What the line of a move of the front is made of.
#[derive(Drop)]
pub struct FrontMove<'a, 'b, 'c, 'd> {
    pub ask: &'a FrontAsk<'b>,
    pub answer: &'c FrontAnswer<'d>,
}

impl<'a, 'b, 'c, 'd> Shown for FrontMove<'a, 'b, 'c, 'd> {
    ghost use Rattle.hypervisor.specs.Act.{front_shown};

    ghost shown = { λ m. front_shown m.ask.now m.answer.now };

    #[inline(always)]
    fn access(&self) -> Option<Access> {
        front_access(self.ask, self.answer)
    }

    #[inline(always)]
    fn shown(&self) -> Move {
        front_shown(self.ask, self.answer)
    }
}

/// What the line of a move of the back or of a job is made of.
#[derive(Drop)]
pub struct BackMove<'a, 'b, 'c, 'd, 'e> {
    pub under: &'a Hypervisor,
    pub who: BackMover,
    pub ask: &'b BackAsk<'c>,
    pub answer: &'d BackAnswer<'e>,
}

impl<'a, 'b, 'c, 'd, 'e> Shown for BackMove<'a, 'b, 'c, 'd, 'e> {
    ghost use Rattle.hypervisor.specs.Act.{back_shown};
    ghost use Rattle.hypervisor.specs.May.{MayShow};

    ghost shown = { λ m. back_shown m.under.now m.who m.ask.now m.answer.now };

    ghost may = { λ m. MayShow m.under.now m.ask.now m.answer.now };

    #[inline(always)]
    fn access(&self) -> Option<Access> {
        self.under.back_access(self.who, self.ask, self.answer)
    }

    #[inline(always)]
    fn shown(&self) -> Move {
        self.under.back_shown(self.who, self.ask, self.answer)
    }
}

/// Shows a move of the front, where moves are shown.
#[inline(always)]
pub fn show_front<R: Recorder>(
    recorder: &mut R,
    ask: &FrontAsk,
    answer: &FrontAnswer,
) -> Result<(), RecordStop>
    ensures { Adds (Line.Move (front_shown ask.now answer.now) ∷ []) result (R.seen recorder.old) (R.seen recorder.new) }
{
    recorder.add_move(&FrontMove { ask, answer })
}

/// Shows a move of the back or of a job, where moves are shown.
#[inline(always)]
pub fn show_back<R: Recorder>(
    recorder: &mut R,
    under: &Hypervisor,
    who: BackMover,
    ask: &BackAsk,
    answer: &BackAnswer,
) -> Result<(), RecordStop>
    requires { MayShow under.now ask.now answer.now }
    ensures { Adds (Line.Move (back_shown under.now who ask.now answer.now) ∷ []) result (R.seen recorder.old) (R.seen recorder.new) }
{
    recorder.add_move(&BackMove {
        under,
        who,
        ask,
        answer,
    })
}

// Shows what a move of the front made happen at its end of the ring, after the move.
fn follow_front<R: Recorder>(
    recorder: &mut R,
    shown: Result<(), RecordStop>,
    told: Option<Told>,
) -> Result<(), RecordStop>
    ensures { Follows (front_lines told) shown result (R.seen recorder.old) (R.seen recorder.new) }
{
    shown?;
    match told {
        None => Ok(()),
        Some(told) => say_front(recorder, told),
    }
}

// Says what the front's negotiation made happen in a move, after what was shown of it.
fn follow_news<R: Recorder>(
    recorder: &mut R,
    shown: Result<(), RecordStop>,
    news: Option<FrontNews>,
) -> Result<(), RecordStop>
    ensures { Follows (news_lines news) shown result (R.seen recorder.old) (R.seen recorder.new) }
{
    shown?;
    match news {
        None => Ok(()),
        Some(news) => recorder.add(&news_line(news)),
    }
}

fn news_line(news: FrontNews) -> Line
    ensures { result ∷ [] ≡ news_lines (Some news) }
{
    match news {
        FrontNews::Ready => Line::Ready,
        FrontNews::Closing => Line::Closing,
        FrontNews::Closed => Line::Closed,
        FrontNews::Broken(word) => Line::Broken(word),
    }
}

/// Shows what a move of the front made happen there, where it told something: a sector that is told is
/// long, so it is handed over by few moves.
#[inline(always)]
pub fn follow_told<R: Recorder>(
    front: &mut Frontend,
    recorder: &mut R,
    shown: Result<(), RecordStop>,
) -> Result<(), RecordStop>
    ensures taken { front.new ≡ heard front.old }
    ensures lines { Follows (frontend_lines front.old) shown result (R.seen recorder.old) (R.seen recorder.new) }
{
    if front.has_told() {
        return take_told(front, recorder, shown);
    }
    shown
}

#[inline(never)]
fn take_told<R: Recorder>(
    front: &mut Frontend,
    recorder: &mut R,
    shown: Result<(), RecordStop>,
) -> Result<(), RecordStop>
    ensures taken { front.new ≡ heard front.old }
    ensures lines { Follows (frontend_lines front.old) shown result (R.seen recorder.old) (R.seen recorder.new) }
{
    let (told, news) = front.take_told();
    let said = follow_front(recorder, shown, told);
    follow_news(recorder, said, news)
}

/// Shows what a move of the back made happen there, after the move, and the halt where it made the
/// back halt.
pub fn follow_back<R: Recorder>(
    recorder: &mut R,
    shown: Result<(), RecordStop>,
    told: Option<BackTold>,
    answer: &BackAnswer,
    before: Option<Halt>,
    after: Option<Halt>,
) -> Result<(), RecordStop>
    ensures { Follows (back_lines told answer.now ++ halt_lines before after) shown result (R.seen recorder.old) (R.seen recorder.new) }
{
    follow_job(recorder, shown, told, answer)?;
    match (before, after) {
        (None, Some(halt)) => say_halt(recorder, halt),
        _ => Ok(()),
    }
}

/// Shows what a move of a job made happen to its request, after the move.
#[inline(always)]
pub fn follow_job<R: Recorder>(
    recorder: &mut R,
    shown: Result<(), RecordStop>,
    told: Option<BackTold>,
    answer: &BackAnswer,
) -> Result<(), RecordStop>
    ensures { Follows (back_lines told answer.now) shown result (R.seen recorder.old) (R.seen recorder.new) }
{
    shown?;
    match told {
        None => Ok(()),
        Some(told) => say_back(recorder, told, answer),
    }
}

// Lines have much room and few moves have one else, so whatever makes a line stands in a function of
// its own.
#[inline(never)]
fn say_front<R: Recorder>(recorder: &mut R, told: Told) -> Result<(), RecordStop>
    ensures { Adds (front_lines (Some told)) result (R.seen recorder.old) (R.seen recorder.new) }
{
    recorder.add(&front_line(told))
}

#[inline(never)]
fn say_back<R: Recorder>(
    recorder: &mut R,
    told: BackTold,
    answer: &BackAnswer,
) -> Result<(), RecordStop>
    ensures { Adds (back_lines (Some told) answer.now) result (R.seen recorder.old) (R.seen recorder.new) }
{
    recorder.add(&back_line(told, answer))
}

#[inline(never)]
fn say_halt<R: Recorder>(recorder: &mut R, halt: Halt) -> Result<(), RecordStop>
    ensures { Adds (halt_lines None (Some halt)) result (R.seen recorder.old) (R.seen recorder.new) }
{
    recorder.add(&Line::Halt(halt))
}

// What happened at the front.
fn front_line(told: Told) -> Line
    ensures { result ∷ [] ≡ front_lines (Some told) }
{
    match told {
        Told::Answer { id, status } => Line::Answer {
            id: u64::from(id),
            status,
        },
        Told::Sector { id, index, words } => Line::Data {
            id: u64::from(id),
            index,
            words,
        },
        Told::Broken(word) => Line::Broken(word),
    }
}

// What happened at the back or one of its jobs, by what it was answered.
fn back_line(told: BackTold, answer: &BackAnswer) -> Line
    ensures { result ∷ [] ≡ back_lines (Some told) answer.now }
{
    match told {
        BackTold::Effect { id, index } => effect_line(id, index, answer),
        BackTold::Flushed { id } => Line::Flushed { id },
        BackTold::Trimmed { id } => Line::Trimmed { id },
        BackTold::Fault { id, index } => Line::Fault { id, index },
        BackTold::Reply { id, status } => Line::Reply { id, status },
    }
}

// An effect shows the words of a sector that was read.
fn effect_line(id: u64, index: u32, answer: &BackAnswer) -> Line
    ensures { result ≡ effect_line id index answer.now }
{
    match answer {
        BackAnswer::Sector(words) => Line::EffectRead {
            id,
            index,
            words: *words.get(),
        },
        _ => Line::Effect { id, index },
    }
}

/// The answer to a submission.
pub fn submit_line(submission: Submission, answer: Result<u32, Refusal>) -> Line
    ensures { result ≡ submit_line submission answer }
{
    match answer {
        Ok(number) => Line::Submit {
            id: u64::from(number),
            submission,
        },
        Err(refusal) => Line::Refuse(refusal),
    }
}

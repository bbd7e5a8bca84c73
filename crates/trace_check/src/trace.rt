// What a checker keeps of a report, and what it says of the next line.
ghost use Rattle.std.specs.Prelude.{◌≡◌, IfOk, None};
ghost use Rattle.trace_check.specs.Outline.{outlined};
ghost use Rattle.trace_check.specs.Trace.{start, moved, moves_after, requests_after, seen, allows_touch, broken_request, broken_before, broken_move, broken_while_honest, broken_where_shown, broken_by};

use crate::outline::Outline;
use blk_base::{BackMover, Move, OutOfMemory};
use checked_rules::Rule;
use job_check::JobSight;
use memory_check::Memory;
use request_check::RequestCheck;
use ring_check::RingSight;
use schedule_text::Line;
use std::alloc::Global;
use std::marker::Model;

/// What a checker keeps of the lines of a report: what is open, and no line.
#[derive(Drop)]
pub struct Trace {
    outline: Outline,
    requests: RequestCheck,
    memory: Memory,
    ring: RingSight,
    jobs: JobSight,
}

impl Model for Trace {
    ghost use Rattle.trace_check.specs.Trace.{Trace};

    ghost Value = { Trace };

    ghost view = { λ t. record {
      outline = t.outline;
      requests = t.requests;
      memory = t.memory;
      ring = t.ring;
      jobs = t.jobs;
    } };
}

// The first rule on requests that a line breaks; a move breaks none of them.
fn broken_request(requests: &RequestCheck, line: &Line) -> Option<Rule>
    ensures { result ≡ broken_request requests.now line.now }
{
    if let Line::Move(_) = line {
        None
    } else if !requests.allows_state(line) {
        Some(Rule::State)
    } else if !requests.allows_submit(line) {
        Some(Rule::Submit)
    } else if !requests.allows_refuse(line) {
        Some(Rule::Refuse)
    } else if !requests.allows_effect(line) {
        Some(Rule::Effect)
    } else if !requests.allows_barrier(line) {
        Some(Rule::Barrier)
    } else if !requests.allows_service(line) {
        Some(Rule::Service)
    } else if !requests.allows_reply(line) {
        Some(Rule::Reply)
    } else if !requests.allows_answer(line) {
        Some(Rule::Answer)
    } else if !requests.allows_data(line) {
        Some(Rule::Data)
    } else if !requests.allows_quiet(line) {
        Some(Rule::Quiet)
    } else {
        None
    }
}

impl Trace {
    /// Before the first line.
    pub fn new(alloc: Global) -> Trace
        ensures { result ≡ start }
    {
        Trace {
            outline: Outline::new(),
            requests: RequestCheck::new(alloc),
            memory: Memory::new(alloc),
            ring: RingSight::new(alloc),
            jobs: JobSight::new(alloc),
        }
    }

    /// Whether the last line was `end`.
    pub fn has_ended(&self) -> bool
        ensures { result ≡ self.now.outline.ended }
    {
        self.outline.has_ended()
    }

    // Whether each touch and each map in the line goes by the entries and mappings that stand.
    fn allows_touch(&self, line: &Line) -> bool
        ensures { result ≡ allows_touch self.now line.now }
    {
        self.memory.touches_a_mapping(line) && self.memory.answers_map(line)
    }

    // The first rule on moves that the line breaks, but for what the back's jobs do in it and for an
    // overrun.
    fn broken_before(&self, line: &Line) -> Option<Rule>
        ensures { result ≡ broken_before self.now line.now }
    {
        if !self.memory.shows_what_is_there(line) {
            Some(Rule::Coherent)
        } else if !self.allows_touch(line) {
            Some(Rule::Touch)
        } else if !self.ring.allows_stretch(line) {
            Some(Rule::Fetch)
        } else {
            None
        }
    }

    // The same. Of an access of the front's and of a word that a job reads less is asked: they answer
    // no map, and fetch nothing.
    #[inline(always)]
    fn broken_first(&self, line: &Line) -> Option<Rule>
        ensures { result ≡ broken_before self.now line.now }
    {
        match line {
            Line::Move(Move::FrontRead { .. }) | Line::Move(Move::FrontWrite { .. }) => {
                if self.memory.shows_what_is_there(line) {
                    None
                } else {
                    Some(Rule::Coherent)
                }
            }
            Line::Move(
                Move::Read {
                    who: BackMover::Job(_),
                    ..
                },
            ) => {
                if !self.memory.shows_what_is_there(line) {
                    Some(Rule::Coherent)
                } else if !self.memory.touches_a_mapping(line) {
                    Some(Rule::Touch)
                } else {
                    None
                }
            }
            _ => self.broken_before(line),
        }
    }

    // The first rule on moves that the line breaks. Where it breaks none, it is taken in, as far as it
    // tells of moves.
    #[tactic(auto, using(crate::proofs::Steps::move_by_steps))]
    fn take_move(&mut self, line: &Line) -> Result<Option<Rule>, OutOfMemory>
        ensures told { IfOk result (λ broken. broken ≡ broken_move self.old line.now) }
        ensures taken { IfOk result (λ broken. broken ≡ None → self.new ≡ moved self.old line.now) }
    {
        if let Some(rule) = self.broken_first(line) {
            return Ok(Some(rule));
        }
        if !self.jobs.take(&self.ring, line)? {
            return Ok(Some(Rule::Fetch));
        }
        if !self.ring.allows_overrun(line) {
            return Ok(Some(Rule::Overrun));
        }
        self.ring.see(line)?;
        self.memory.see(line)?;
        Ok(None)
    }

    // Takes in a line, as far as it tells of moves.
    fn see_moves(&mut self, line: &Line) -> Result<(), OutOfMemory>
        ensures { IfOk result (λ _. self.new ≡ moved self.old line.now) }
    {
        self.jobs.see(&self.ring, line)?;
        self.ring.see(line)?;
        self.memory.see(line)?;
        Ok(())
    }

    // The first rule on moves that the line breaks, where moves are shown before it. Where it breaks
    // none, it is taken in, as far as it tells of moves.
    fn take_shown(&mut self, line: &Line) -> Result<Option<Rule>, OutOfMemory>
        ensures told { IfOk result (λ broken. broken ≡ broken_where_shown self.old line.now) }
        ensures taken { IfOk result (λ broken. broken ≡ None → self.new ≡ moves_after self.old line.now) }
    {
        if self.outline.is_shown() {
            return self.take_move(line);
        }
        if self.outline.shows_after(line) {
            self.see_moves(line)?;
        }
        Ok(None)
    }

    // The first rule on requests that the line breaks, up to the first hostile line.
    fn broken_while_honest(&self, line: &Line) -> Option<Rule>
        ensures { result ≡ broken_while_honest self.now line.now }
    {
        if self.outline.is_hostile_after(line) {
            None
        } else {
            broken_request(&self.requests, line)
        }
    }

    // Takes in a line, as far as it doesn't tell of moves. A move tells nothing of requests.
    fn see_rest(&mut self, line: &Line) -> Result<(), OutOfMemory>
        ensures { IfOk result (λ _. self.new ≡ record self.old { outline = outlined self.old.outline line.now; requests = requests_after self.old line.now }) }
    {
        if let Line::Move(_) = line {
            self.outline.see_move();
            return Ok(());
        }
        if !self.outline.is_hostile_after(line) {
            self.requests.see(line)?;
        }
        self.outline.see(line);
        Ok(())
    }

    /// The first rule that the line breaks where it comes next; where it breaks none, it is taken in.
    /// Else, and after want of memory, nothing more can be told of the report.
    pub fn take(&mut self, line: &Line) -> Result<Option<Rule>, OutOfMemory>
        ensures told { IfOk result (λ broken. broken ≡ broken_by self.old line.now) }
        ensures taken { IfOk result (λ broken. broken ≡ None → self.new ≡ seen self.old line.now) }
    {
        if !self.outline.allows(line) {
            return Ok(Some(Rule::Order));
        }
        match self.broken_while_honest(line) {
            Some(rule) => return Ok(Some(rule)),
            None => {}
        }
        if let Some(rule) = self.take_shown(line)? {
            return Ok(Some(rule));
        }
        self.see_rest(line)?;
        Ok(None)
    }
}

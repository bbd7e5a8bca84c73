// The generated schedule, event by event.
ghost use Rattle.std.specs.Prelude.{◌≡◌, ◌∷◌, [], IfSome, IfNone};
ghost use Rattle.bench_load.specs.Generated.{schedule_of};
ghost use Rattle.bench_load.specs.Text.{IsShort};

use crate::words::draw_event;
use rand_pcg::Lcg64Xsh32;
use schedule_text::Event;
use std::marker::Model;

/// What comes next.
#[derive(Clone, Copy)]
pub enum Next {
    /// The first `settle`.
    First,
    /// A line of three words where one is left; else the last `settle`.
    Line,
    /// Nothing.
    Nothing,
}

/// The schedule of a seed and a count, of which only the generator is kept.
#[derive(Drop)]
pub struct BenchSchedule {
    next: Next,
    left: u64,
    generator: Lcg64Xsh32,
}

impl Model for BenchSchedule {
    ghost use Rattle.std.specs.Prelude.{List};
    ghost use Rattle.schedule_text.specs.declared.event.Event.{Event};
    ghost use Rattle.bench_load.specs.Left.{events_left};

    ghost Value = { List Event };

    ghost view = { λ s. events_left s.next s.left s.generator };
}

impl BenchSchedule {
    /// The whole schedule of this seed and this count.
    pub fn new(seed: u64, count: u64) -> BenchSchedule
        ensures { result ≡ schedule_of seed count }
    {
        BenchSchedule {
            next: Next::First,
            left: count,
            generator: Lcg64Xsh32::new(seed, 1),
        }
    }

    /// Takes the next event; `None` where none is left.
    pub fn next_event(&mut self) -> Option<Event>
        ensures some { IfSome result (λ event. self.old ≡ event ∷ self.new) }
        ensures none { IfNone result (self.old ≡ []) }
        ensures left { IfNone result (self.new ≡ []) }
        ensures short { IfSome result IsShort }
    {
        match self.next {
            Next::First => {
                self.next = Next::Line;
                Some(Event::Settle)
            }
            Next::Line if self.left == 0 => {
                self.next = Next::Nothing;
                Some(Event::Settle)
            }
            Next::Line => {
                self.left -= 1;
                Some(draw_event(&mut self.generator))
            }
            Next::Nothing => None,
        }
    }
}

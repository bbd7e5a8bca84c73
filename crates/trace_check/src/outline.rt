// The outline of a report.
ghost use Rattle.std.specs.Prelude.{◌≡◌, not, true};
ghost use Rattle.plain_disk.specs.Honest.{is_honest};
ghost use Rattle.checked_rules.specs.Lines.{is_begin, shows_moves, is_end, is_move};
ghost use Rattle.trace_check.specs.Outline.{no_lines, outlined, allows_order};

use schedule_text::{Detail, Line};
use std::marker::Model;

/// Whether the report has begun and ended, whether it shows moves, and whether a hostile line came.
#[derive(Drop)]
pub struct Outline {
    begun: bool,
    shown: bool,
    hostile: bool,
    ended: bool,
}

impl Model for Outline {
    ghost use Rattle.trace_check.specs.Outline.{Outline};

    ghost Value = { Outline };

    ghost view = { λ o. record { begun = o.begun; shown = o.shown; hostile = o.hostile; ended = o.ended } };
}

fn is_begin(line: &Line) -> bool
    ensures { result ≡ is_begin line.now }
{
    matches!(line, Line::Begin { .. })
}

// Whether `begin` says that moves are shown.
fn shows_moves(line: &Line) -> bool
    ensures { result ≡ shows_moves line.now }
{
    match line {
        Line::Begin { detail, .. } => matches!(detail, Detail::Moves),
        _ => false,
    }
}

fn is_end(line: &Line) -> bool
    ensures { result ≡ is_end line.now }
{
    matches!(line, Line::End)
}

fn is_move(line: &Line) -> bool
    ensures { result ≡ is_move line.now }
{
    matches!(line, Line::Move(_))
}

// Whether a word of memory or a key was overwritten from outside.
fn is_hostile(line: &Line) -> bool
    ensures { result ≡ not (is_honest line.now) }
{
    matches!(line, Line::Poke { .. } | Line::Key { .. })
}

impl Outline {
    /// Before the first line.
    pub fn new() -> Outline
        ensures { result ≡ no_lines }
    {
        Outline {
            begun: false,
            shown: false,
            hostile: false,
            ended: false,
        }
    }

    /// One line further on.
    pub fn see(&mut self, line: &Line)
        ensures { self.new ≡ outlined self.old line.now }
    {
        self.begun = true;
        self.shown = self.shows_after(line);
        self.hostile = self.is_hostile_after(line);
        self.ended = self.ended || is_end(line);
    }

    /// One line further on, which is a move.
    pub fn see_move(&mut self)
        ensures { self.new ≡ record self.old { begun = true } }
    {
        self.begun = true;
    }

    /// Whether moves are shown in the lines before.
    pub fn is_shown(&self) -> bool
        ensures { result ≡ self.now.shown }
    {
        self.shown
    }

    /// Whether moves are shown, by the lines before and this one.
    pub fn shows_after(&self, line: &Line) -> bool
        ensures { result ≡ (outlined self.now line.now).shown }
    {
        self.shown || shows_moves(line)
    }

    /// Whether a hostile line came, this one included.
    pub fn is_hostile_after(&self, line: &Line) -> bool
        ensures { result ≡ (outlined self.now line.now).hostile }
    {
        self.hostile || is_hostile(line)
    }

    /// Whether `end` came.
    pub fn has_ended(&self) -> bool
        ensures { result ≡ self.now.ended }
    {
        self.ended
    }

    /// Whether the line may come next.
    pub fn allows(&self, line: &Line) -> bool
        ensures { result ≡ allows_order self.now line.now }
    {
        let begins = if self.begun {
            !is_begin(line)
        } else {
            is_begin(line)
        };
        begins && !self.ended && (!is_move(line) || self.shown)
    }
}

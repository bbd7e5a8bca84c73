//! The machine of both domains with the negotiation of its ends over the key directory
//! (`io/xenbus.h`, `io/blkif.h`), as a pure function over what happens to it: moves of an end or of
//! a job, submissions, spurious events, hostile words and looks; what each is to the ring's machine, whose lines
//! and effects on the disk it has; and the happenings that each event of a schedule makes. The
//! runner stands on it.
#![tactic(auto)]

ghost use Rattle.std.specs.Prelude.{◌≤◌, ◌≡◌, ℕ, List, [], ◌∷◌, ◌++◌, filter};
ghost use Rattle.blk_io.specs.Disk.{DiskSeen};
ghost use Rattle.schedule_text.specs.declared.event.Event.{Event};
ghost use Rattle.plain_disk.specs.Echo.{AnswersAll, is_echo};
ghost use Rattle.split_model.specs.Happening.{after as ring_after, lines_of as ring_lines, DiskRuns as RingRuns};
ghost use Rattle.machine_pipeline.specs.Submissions.{jobs_of, submitted_of};
ghost use Rattle.vbd_model.specs.World.{World};
ghost use Rattle.vbd_model.specs.Happening.{Happening, after, lines_of, DiskRuns, all_does};
ghost use Rattle.vbd_model.specs.Kind.{AreOfSoFar, AreOfAll};
ghost use Rattle.vbd_model.specs.Possible.{ArePossible};

/// Whatever happens and then happens on: the machine goes on from where it stands, and the lines of
/// the rest come after the others. What happens is a history of the ring's machine too, which goes
/// along, shows the same lines and does the same to the disk.
pub fn a_run_goes_on()
    ensures world { (first rest : List Happening) (w : World) → after (first ++ rest) w ≡ after rest (after first w) }
    ensures lines { (first rest : List Happening) (w : World) → lines_of (first ++ rest) w ≡ lines_of first w ++ lines_of rest (after first w) }
    ensures rings { (history : List Happening) (w : World)
        → (let v : World = after history w in v.rings) ≡ ring_after (all_does history w) w.rings }
    ensures shown { (history : List Happening) (w : World) → lines_of history w ≡ ring_lines (all_does history w) w.rings }
    ensures disk { (history : List Happening) (w : World) (a b : DiskSeen) → DiskRuns history w a b → RingRuns (all_does history w) w.rings a b }
{}

/// What the events of a schedule make happen echoes them: the lines of the kinds that echo are, one
/// for one and in order, those that answer the events. A look shows words of a ring of `2^order` pages,
/// and the front's has no more.
pub fn a_schedule_is_echoed()
    ensures { (order : ℕ) (events : List Event) (w : World) (history : List Happening) → w.rings.front.shape.order ≤ order
        → AreOfAll events w history → AnswersAll order events (filter is_echo (lines_of history w)) }
{}

/// What the events of a schedule make happen is possible, also where the last of them was stopped in
/// its midst.
pub fn what_events_make_may_happen()
    ensures events { (events : List Event) (w : World) (history : List Happening) → AreOfAll events w history → ArePossible history w }
    ensures so_far { (events : List Event) (event : Event) (w : World) (history more : List Happening) → AreOfAll events w history
        → AreOfSoFar event (after history w) more → ArePossible (history ++ more) w }
{}

/// The events of a schedule submit to the ring's machine the requests that they name and no others,
/// in order, also where the last of them was stopped in its midst.
pub fn events_submit_what_they_say()
    ensures events { (events : List Event) (w : World) (history : List Happening) → AreOfAll events w history
        → submitted_of (all_does history w) ≡ jobs_of events }
    ensures so_far { (events : List Event) (event : Event) (w : World) (history more : List Happening) → AreOfAll events w history
        → AreOfSoFar event (after history w) more → submitted_of (all_does (history ++ more) w) ≡ jobs_of (events ++ event ∷ []) }
{}

//! The machine of both domains as a pure function over what happens to it: moves of an end or of a
//! job with their answers, what the negotiation has an end do, submissions and spurious events; and
//! its report, the lines that each happening shows (`grant_table.h`, `io/ring.h`, `io/blkif.h`). The
//! machine with the negotiation of its ends (`vbd_model`) stands on it.
#![tactic(auto)]

ghost use Rattle.std.specs.Prelude.{◌≡◌, ℕ, ◌+◌, ◌^◌, ◌<◌, ◌≤◌, List, ◌++◌, false, length, Some};
ghost use Rattle.blk_base.specs.Options.{Options};
ghost use Rattle.hypervisor.specs.May.{FrontMay, BackMay};
ghost use Rattle.blk_front.specs.Ask.{ask_of as front_ask, StaysInMemory};
ghost use Rattle.back_jobs.specs.Hands.{Names};
ghost use Rattle.back_jobs.specs.Sound.{StaysInPageAndDisk};
ghost use Rattle.blk_back.specs.Ask.{ask_of as back_ask};
ghost use Rattle.blk_back.specs.Step.{job_ask_of};
ghost use Rattle.blk_back.specs.Keeping.{job_ask_keeping, KeepsNone};
ghost use Rattle.blk_back.specs.Hands.{hands_of, all_hands_of, most_held, most_with_kept};
ghost use Rattle.split_model.specs.World.{World, start_of};
ghost use Rattle.split_model.specs.Happening.{Happening, happens, after, lines_of};
ghost use Rattle.split_model.specs.Safe.{IsSafe};
ghost use Rattle.split_model.specs.Kept.{KeepingHappening, back_offers, happens_keeping, after_keeping, IsSafeKeeping, GoesAsWithout, RunsAsWithout};

/// Whatever happens and then happens on: the machine goes on from where it stands, and the lines of
/// the rest come after the others.
pub fn a_run_goes_on()
    ensures world { (first rest : List Happening) (w : World) → after (first ++ rest) w ≡ after rest (after first w) }
    ensures lines { (first rest : List Happening) (w : World) → lines_of (first ++ rest) w ≡ lines_of first w ++ lines_of rest (after first w) }
{}

/// The machine is safe at the start and stays so, whatever happens. While it is, what is asked may
/// be carried out: by the front, a port, and each word of its memory; by the back and its jobs,
/// each word through a mapping that they hold, and each sector of the disk as they know it; and a
/// further mapping while they hold no more than they may and its number is below 2^64.
pub fn every_ask_may_be_carried_out()
    ensures start { (o : Options) → IsSafe (start_of o) }
    ensures kept { (w : World) (h : Happening) → IsSafe w → IsSafe (happens w h) }
    ensures after { (hs : List Happening) (w : World) → IsSafe w → IsSafe (after hs w) }
    ensures front { (w : World) → IsSafe w → StaysInMemory (front_ask w.front) → FrontMay w.under (front_ask w.front) }
    ensures back { (w : World) → IsSafe w → Names (hands_of w.back) (back_ask w.back) → w.under.grants.made + 1 < 2 ^ 64
        → length (hands_of w.back) ≤ most_held → BackMay w.under (Some w.back.jobs.info.sectors) (back_ask w.back) }
    ensures job { (w : World) (number : ℕ) → IsSafe w → Names (hands_of w.back) (job_ask_of w.back number)
        → StaysInPageAndDisk w.back.jobs.info.sectors (job_ask_of w.back number) → w.under.grants.made + 1 < 2 ^ 64
        → length (hands_of w.back) ≤ most_held → BackMay w.under (Some w.back.jobs.info.sectors) (job_ask_of w.back number) }
{}

/// The same of a machine whose back may keep mappings for later requests: those that it keeps live
/// too, and are at most 1000 more.
pub fn every_ask_may_be_carried_out_where_mappings_are_kept()
    ensures start { (o : Options) → IsSafeKeeping (start_of o) }
    ensures kept { (w : World) (h : KeepingHappening) → IsSafeKeeping w → IsSafeKeeping (happens_keeping w h) }
    ensures after { (hs : List KeepingHappening) (w : World) → IsSafeKeeping w → IsSafeKeeping (after_keeping hs w) }
    ensures back { (w : World) → IsSafeKeeping w → Names (hands_of w.back) (back_ask w.back) → w.under.grants.made + 1 < 2 ^ 64
        → length (all_hands_of w.back) ≤ most_with_kept → BackMay w.under (Some w.back.jobs.info.sectors) (back_ask w.back) }
    ensures job { (w : World) (number : ℕ) → IsSafeKeeping w → Names (hands_of w.back) (job_ask_keeping w.back number)
        → StaysInPageAndDisk w.back.jobs.info.sectors (job_ask_keeping w.back number) → w.under.grants.made + 1 < 2 ^ 64
        → length (all_hands_of w.back) ≤ most_with_kept → BackMay w.under (Some w.back.jobs.info.sectors) (job_ask_keeping w.back number) }
{}

/// Where nothing is kept, and the back doesn't say that it keeps grants, whatever happens makes what
/// it makes of a machine that never keeps any, shows the same lines and calls the same of the disk; and
/// so it is after it. So every run of that machine is one of this.
pub fn a_machine_that_keeps_none_goes_as_without()
    ensures happening { (w : World) (h : Happening) → KeepsNone w.back → back_offers w ≡ false → GoesAsWithout w h }
    ensures run { (o : Options) (hs : List Happening) → RunsAsWithout hs (start_of o) }
{}

//! What both ends of a ring, their jobs and the requests on their way have left to do: laws that each
//! move of theirs lowers it, before a hostile hand first overwrites a word (`io/ring.h`, `io/blkif.h`).
//! Whoever shows that settling ends stands on it.
#![tactic(auto)]

ghost use Rattle.std.specs.Prelude.{◌≡◌, ◌≤◌, false, List};
ghost use Rattle.std.specs.List.{list_any};
ghost use Rattle.pipeline_laws.specs.Pipeline.{Pipeline, Step, after_steps};
ghost use Rattle.pipeline_laws.specs.Allowed.{AreAllowed};
ghost use Rattle.ring_settle_laws.specs.Stations.{requests_left, is_anew};

/// Whatever the pipeline does but submit a request or resume the domain, what is left to the requests
/// doesn't rise: none stands at an earlier station of its way again.
pub fn what_is_left_to_the_requests_never_rises()
    ensures { (steps : List Step) (d : Pipeline) → list_any is_anew steps ≡ false → AreAllowed steps d
        → (let p : Pipeline = after_steps steps d in requests_left p.requests ≤ requests_left d.requests) }
{}

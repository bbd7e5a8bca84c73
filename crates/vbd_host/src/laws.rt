// Laws of the histories that a host's moves are.
ghost use Rattle.std.specs.Prelude.{ℕ, ◌≡◌, ◌^◌, ◌<◌};
ghost use Rattle.blk_back.specs.View.{View as RingView, new_of};
ghost use Rattle.back_laws.specs.Run.{BackRun, now};
ghost use Rattle.vbd_back.specs.View.{View};
ghost use Rattle.vbd_host.specs.Moves.{IsRingHistory, IsHistory};

/// A host's moves one after another are one history of the back's end of the ring; and a history from a
/// new end is a run, which the laws of such an end are of (`back_laws`).
pub fn a_hosts_moves_are_a_run()
    ensures on { (u v w : View) → IsHistory u v → IsHistory v w → IsHistory u w }
    ensures run { (start : ℕ) (info : _) (r : RingView) → start < 2 ^ 32 → IsRingHistory (new_of start info) r → (run : BackRun) × (now run ≡ r) }
{}

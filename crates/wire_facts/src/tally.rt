// How many lines of each kind held.

/// The lines of a kind that held.
#[derive(Clone, Copy)]
pub struct Count {
    pub kind: &'static str,
    pub held: u64,
}

/// A count for each kind of line.
#[derive(Drop)]
pub struct Tally {
    counts: [Count; 14],
}

const fn none(kind: &'static str) -> Count {
    Count { kind, held: 0 }
}

impl Tally {
    pub fn new() -> Tally {
        Tally {
            counts: [
                none("ring"),
                none("slot"),
                none("push_req"),
                none("push_rsp"),
                none("free"),
                none("full"),
                none("unconsumed_rsp"),
                none("unconsumed_req"),
                none("prod_over"),
                none("final_req"),
                none("final_rsp"),
                none("words"),
                none("response"),
                none("seg"),
            ],
        }
    }

    /// Counts a line that held.
    pub fn count(&mut self, kind: &str, verdict: Option<bool>) {
        for count in self.counts.iter_mut() {
            if count.kind == kind && verdict == Some(true) {
                count.held = count.held.saturating_add(1);
            }
        }
    }

    pub fn counts(&self) -> &[Count] {
        &self.counts
    }
}

// What the back reckons with its indices.
ghost use Rattle.std.specs.Prelude.{◌≡◌, ◌≢◌, ℕ, ◌+◌, ◌-◌, ◌<◌, ◌≤◌, ◌↔◌, IsTrue, min};
ghost use Rattle.blk_base.specs.Distance.{distance_of, IsDistance};
ghost use Rattle.ring_words.specs.Shape.{entries_of};
ghost use Rattle.ring_words.specs.Ring.{next_of, requests_of, overruns};

use crate::shape::RingShape;
use blk_base::Idx;
use std::marker::Model;

/// The back's own indices of a ring (`struct blkif_back_ring` of `io/ring.h`): its producer of
/// responses, `rsp_prod_pvt`, and its consumer of requests, `req_cons`. Between them are never more
/// requests than the ring has entries.
#[derive(Clone, Copy)]
pub struct BackRing {
    entries: u32,
    prod: u32,
    cons: u32,
}

impl Model for BackRing {
    ghost use Rattle.std.specs.Prelude.{◌≤◌};
    ghost use Rattle.blk_base.specs.Distance.{distance_of};
    ghost use Rattle.ring_words.specs.Ring.{Ring};

    ghost Value = { Ring };

    ghost view = { λ r. record { entries = r.entries; prod = r.prod; cons = r.cons } };

    ghost invariant = { λ r. distance_of r.prod r.cons ≤ r.entries };

    ghost inverse = { λ r. record { entries = r.entries; prod = r.prod; cons = r.cons } };
}

impl BackRing {
    /// A ring without requests, whose indices begin at `s` (`BACK_RING_INIT`, where `s` is 0).
    pub fn attach(shape: RingShape, s: u32) -> BackRing
        ensures { result ≡ record { entries = entries_of shape.order; prod = s; cons = s } }
    {
        BackRing {
            entries: shape.entries(),
            prod: s,
            cons: s,
        }
    }

    /// The index of the next response, `rsp_prod_pvt`.
    pub fn prod(&self) -> u32
        ensures { result ≡ self.now.prod }
    {
        self.prod
    }

    /// The index of the next request, `req_cons`.
    pub fn cons(&self) -> u32
        ensures { result ≡ self.now.cons }
    {
        self.cons
    }

    /// How many requests may be consumed where the shared `req_prod` was read (any number of 32
    /// bits; `RING_HAS_UNCONSUMED_REQUESTS`): those ahead, and no more than there are entries
    /// without a request that waits for its response.
    pub fn unconsumed(&self, req_prod: u32) -> u32
        ensures value { result ≡ requests_of self.now req_prod }
        ensures ahead { (d u : ℕ) → IsDistance self.now.cons req_prod d → IsDistance self.now.prod self.now.cons u
            → result ≡ min d (self.now.entries - u) }
    {
        let ahead = Idx(self.cons).dist(Idx(req_prod));
        ahead.min(self.entries - self.waiting())
    }

    /// Whether the shared `req_prod` that was read can't be right (`RING_REQUEST_PROD_OVERFLOW`): it
    /// is further ahead of the next response than the ring has entries.
    pub fn overran(&self, req_prod: u32) -> bool
        ensures value { result ≡ overruns self.now req_prod }
        ensures further { (d : ℕ) → IsDistance self.now.prod req_prod d → (IsTrue result ↔ (self.now.entries < d)) }
    {
        Idx(self.prod).dist(Idx(req_prod)) > self.entries
    }

    /// How many requests were consumed and wait for their response, 0 to the ring's entries.
    pub fn waiting(&self) -> u32
        ensures between { IsDistance self.now.prod self.now.cons result }
        ensures value { result ≡ distance_of self.now.prod self.now.cons }
        ensures within { result ≤ self.now.entries }
    {
        Idx(self.prod).dist(Idx(self.cons))
    }

    /// Whether another request may be consumed: fewer wait for their response than there are entries.
    pub fn can_consume(&self) -> bool
        ensures { IsTrue result ↔ (distance_of self.now.prod self.now.cons < self.now.entries) }
    {
        self.waiting() < self.entries
    }

    /// Whether a response may be produced: a request waits for it.
    pub fn can_produce(&self) -> bool
        ensures { IsTrue result ↔ (self.now.prod ≢ self.now.cons) }
    {
        self.prod != self.cons
    }

    /// Moves on to the next response. `can_produce()` holds.
    pub fn produce(&mut self)
        requires { self.old.prod ≢ self.old.cons }
        ensures { self.new ≡ record self.old { prod = next_of self.old.prod } }
    {
        self.prod = self.prod.wrapping_add(1);
    }

    /// Moves on to the next request. `can_consume()` holds.
    pub fn consume(&mut self)
        requires { distance_of self.old.prod self.old.cons < self.old.entries }
        ensures { self.new ≡ record self.old { cons = next_of self.old.cons } }
    {
        self.cons = self.cons.wrapping_add(1);
    }
}

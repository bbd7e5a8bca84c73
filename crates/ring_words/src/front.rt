// What the front reckons with its indices.
ghost use Rattle.std.specs.Prelude.{◌≡◌, ◌≢◌, ℕ, ◌+◌, ◌<◌, ◌≤◌, ◌↔◌, IsTrue};
ghost use Rattle.blk_base.specs.Distance.{distance_of, IsDistance};
ghost use Rattle.ring_words.specs.Shape.{entries_of};
ghost use Rattle.ring_words.specs.Ring.{next_of, free_of, responses_of};

use crate::shape::RingShape;
use blk_base::Idx;
use std::marker::Model;

/// The front's own indices of a ring (`struct blkif_front_ring` of `io/ring.h`): its producer of
/// requests, `req_prod_pvt`, and its consumer of responses, `rsp_cons`. Between them are never more
/// requests than the ring has entries.
#[derive(Clone, Copy)]
pub struct FrontRing {
    entries: u32,
    prod: u32,
    cons: u32,
}

impl Model for FrontRing {
    ghost use Rattle.std.specs.Prelude.{◌≤◌};
    ghost use Rattle.blk_base.specs.Distance.{distance_of};
    ghost use Rattle.ring_words.specs.Ring.{Ring};

    ghost Value = { Ring };

    ghost view = { λ r. record { entries = r.entries; prod = r.prod; cons = r.cons } };

    ghost invariant = { λ r. distance_of r.cons r.prod ≤ r.entries };

    ghost inverse = { λ r. record { entries = r.entries; prod = r.prod; cons = r.cons } };
}

impl FrontRing {
    /// A ring without requests, whose indices begin at `s` (`FRONT_RING_INIT`, where `s` is 0).
    pub fn attach(shape: RingShape, s: u32) -> FrontRing
        ensures { result ≡ record { entries = entries_of shape.order; prod = s; cons = s } }
    {
        FrontRing {
            entries: shape.entries(),
            prod: s,
            cons: s,
        }
    }

    /// The index of the next request, `req_prod_pvt`.
    pub fn prod(&self) -> u32
        ensures { result ≡ self.now.prod }
    {
        self.prod
    }

    /// The index of the next response, `rsp_cons`.
    pub fn cons(&self) -> u32
        ensures { result ≡ self.now.cons }
    {
        self.cons
    }

    /// How many requests there is room for, 0 to the ring's entries (`RING_FREE_REQUESTS`).
    pub fn free(&self) -> u32
        ensures value { result ≡ free_of self.now }
        ensures room { (d : ℕ) → IsDistance self.now.cons self.now.prod d → result + d ≡ self.now.entries }
    {
        self.entries - Idx(self.cons).dist(Idx(self.prod))
    }

    /// How many responses are ahead where the shared `rsp_prod` was read (any number of 32 bits,
    /// where the other end is hostile; `RING_HAS_UNCONSUMED_RESPONSES`).
    pub fn unconsumed(&self, rsp_prod: u32) -> u32
        ensures value { result ≡ responses_of self.now rsp_prod }
        ensures ahead { IsDistance self.now.cons rsp_prod result }
    {
        Idx(self.cons).dist(Idx(rsp_prod))
    }

    /// Whether a response may be consumed: a request is between the two indices.
    pub fn can_consume(&self) -> bool
        ensures { IsTrue result ↔ (self.now.prod ≢ self.now.cons) }
    {
        self.prod != self.cons
    }

    /// Moves on to the next request. `free()` is above 0.
    pub fn produce(&mut self)
        requires { 0 < free_of self.old }
        ensures { self.new ≡ record self.old { prod = next_of self.old.prod } }
    {
        self.prod = self.prod.wrapping_add(1);
    }

    /// Moves on to the next response. `can_consume()` holds.
    pub fn consume(&mut self)
        requires { self.old.prod ≢ self.old.cons }
        ensures { self.new ≡ record self.old { cons = next_of self.old.cons } }
    {
        self.cons = self.cons.wrapping_add(1);
    }
}

// What a job makes of the mappings that are kept (`feature-persistent` of `io/blkif.h`).
ghost use Rattle.std.specs.Prelude.{◌≡◌, ◌∷◌, ◌++◌, true, IsPermutation};
ghost use Rattle.persist_grants.specs.KeptMappings.{may_keep, mappings_of};
ghost use Rattle.back_jobs.specs.Hands.{hand_of};
ghost use Rattle.back_jobs.specs.Keeping.{settled, takes, AreKeepable, IsWritableAt, MapsUnkept};
ghost use Rattle.back_jobs.specs.declared.stage.JobStage.TheVariants as stage;

use super::HeldJob;
use crate::stage::JobStage;
use blk_base::{Mapping, Status};
use persist_grants::{Kept, PutBack};

impl HeldJob {
    // Where it comes to a segment takes the mapping that is kept of its reference; where it is done
    // with one, or the disk failed, puts the segment's mapping back, and unmaps what is handed out.
    #[inline(always)]
    pub(super) fn settle(&mut self, kept: &mut Kept)
        requires keepable { AreKeepable kept.old }
        requires writable { may_keep kept.old ≡ true → IsWritableAt self.old.stage }
        ensures job { self.new ≡ (settled kept.old self.old).job }
        ensures kept { kept.new ≡ (settled kept.old self.old).kept }
        ensures hands { IsPermutation (hand_of self.old ++ mappings_of kept.old) (hand_of self.new ++ mappings_of kept.new) }
        ensures unkept { MapsUnkept kept.new self.new }
    {
        match self.stage {
            JobStage::Map => self.take(kept),
            JobStage::Unmap(mapping) => self.put_back(mapping, kept),
            JobStage::Abort(mapping) => self.fail(mapping, kept),
            _ => {}
        }
    }

    // Takes the mapping that is kept of the present segment's reference.
    fn take(&mut self, kept: &mut Kept)
        requires stage { self.old.stage ≡ stage.Map }
        requires keepable { AreKeepable kept.old }
        ensures job { self.new ≡ (takes kept.old self.old.rest self.old).job }
        ensures kept { kept.new ≡ (takes kept.old self.old.rest self.old).kept }
        ensures hands { IsPermutation (mappings_of kept.old) (hand_of self.new ++ mappings_of kept.new) }
        ensures unkept { MapsUnkept kept.new self.new }
    {
        let Some(segment) = self.rest.as_slice().first() else {
            return;
        };
        if let Some(mapping) = kept.take(segment.gref) {
            self.begin_sector(mapping);
        }
    }

    // Puts back the mapping of a segment that is done.
    #[inline(never)]
    fn put_back(&mut self, mapping: Mapping, kept: &mut Kept)
        requires stage { self.old.stage ≡ stage.Unmap mapping }
        requires keepable { AreKeepable kept.old }
        requires writable { may_keep kept.old ≡ true → IsWritableAt self.old.stage }
        ensures job { self.new ≡ (settled kept.old self.old).job }
        ensures kept { kept.new ≡ (settled kept.old self.old).kept }
        ensures hands { IsPermutation (mapping ∷ mappings_of kept.old) (hand_of self.new ++ mappings_of kept.new) }
        ensures unkept { MapsUnkept kept.new self.new }
    {
        match kept.put_back(mapping.gref, mapping) {
            PutBack::Out(out) => self.stage = JobStage::Unmap(out),
            PutBack::Kept => {
                self.next_segment();
                if let JobStage::Map = self.stage {
                    self.take(kept);
                }
            }
        }
    }

    // Puts back the mapping in hand after the disk failed.
    #[inline(never)]
    fn fail(&mut self, mapping: Mapping, kept: &mut Kept)
        requires stage { self.old.stage ≡ stage.Abort mapping }
        requires keepable { AreKeepable kept.old }
        requires writable { may_keep kept.old ≡ true → IsWritableAt self.old.stage }
        ensures job { self.new ≡ (settled kept.old self.old).job }
        ensures kept { kept.new ≡ (settled kept.old self.old).kept }
        ensures hands { IsPermutation (mapping ∷ mappings_of kept.old) (hand_of self.new ++ mappings_of kept.new) }
    {
        match kept.put_back(mapping.gref, mapping) {
            PutBack::Out(out) => self.stage = JobStage::Abort(out),
            PutBack::Kept => self.stage = JobStage::Done(Status::Error),
        }
    }
}

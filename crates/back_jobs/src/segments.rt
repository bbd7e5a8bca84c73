// The segments of a job.
ghost use Rattle.std.specs.Prelude.{◌≡◌, ◌<◌, ◌≤◌, ◌++◌, [], ◌∷◌, true, false, is_some, length};
ghost use Rattle.back_jobs.specs.Work.{rest_of};

use arrayvec::ArrayVec;
use blk_layout::Segment;
use std::marker::Model;

/// Room for the segments that are copied for an indirect request: as many as one may have.
pub(crate) type SegmentVec = Box<ArrayVec<Segment, 960>>;

/// The segments that a job isn't done with, in order: those of an entry, or those that are copied into
/// a vector of their own.
#[derive(Drop)]
pub struct SegmentList {
    few: ArrayVec<Segment, 11>,
    long: Option<SegmentVec>,
}

impl Model for SegmentList {
    ghost use Rattle.std.specs.Prelude.{is_some, unwrap_or};
    ghost use Rattle.std.specs.Option.{option_map};
    ghost use Rattle.back_jobs.specs.Segments.{Listed};

    ghost Value = { Listed };

    ghost view = { λ s. record { items = unwrap_or (option_map (λ b. b.value.items) s.long) s.few.items; is_long = is_some s.long } };
}

impl SegmentList {
    /// These segments of an entry.
    pub(crate) fn of(segments: &[Segment]) -> SegmentList
        requires { length segments.now ≤ 11 }
        ensures { result ≡ record { items = segments.now; is_long = false } }
    {
        let mut few = ArrayVec::new();
        let _ = few.try_extend_from_slice(segments);
        SegmentList { few, long: None }
    }

    /// No segment yet of those that are copied into this vector.
    pub(crate) fn copied_into(long: SegmentVec) -> SegmentList
        ensures { result ≡ record { items = []; is_long = true } }
    {
        let mut long = long;
        long.clear();
        SegmentList {
            few: ArrayVec::new(),
            long: Some(long),
        }
    }

    /// The segments.
    #[inline(always)]
    pub(crate) fn as_slice(&self) -> &[Segment]
        ensures { result.now ≡ self.now.items }
    {
        match &self.long {
            None => self.few.as_slice(),
            Some(long) => long.as_slice(),
        }
    }

    /// Copies one more.
    pub(crate) fn push(&mut self, segment: Segment)
        requires is_long { self.old.is_long ≡ true }
        requires fits { length self.old.items < 960 }
        ensures { self.new ≡ record self.old { items = self.old.items ++ segment ∷ [] } }
    {
        if let Some(long) = &mut self.long {
            long.push(segment);
        }
    }

    /// Removes the first one, if there is one.
    pub(crate) fn remove_first(&mut self)
        ensures { self.new ≡ record self.old { items = rest_of self.old.items } }
    {
        match &mut self.long {
            None => {
                if !self.few.is_empty() {
                    self.few.remove(0);
                }
            }
            Some(long) => {
                if !long.is_empty() {
                    long.remove(0);
                }
            }
        }
    }

    /// The vector that they are in, if it is one of their own.
    pub(crate) fn into_vec(self) -> Option<SegmentVec>
        ensures { is_some result ≡ self.is_long }
    {
        self.long
    }
}

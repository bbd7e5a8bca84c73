// The lists of the requests' frames.
ghost use Rattle.std.specs.Prelude.{◌≡◌, ◌<◌, ◌≤◌, ◌++◌, [], ◌∷◌, ◌+◌, ◌==◌, length, slice_get, IfOk};

use crate::pool::PoolFrame;
use blk_base::OutOfMemory;
use std::alloc::Global;
use std::marker::Model;

/// The frames of a request, 962 at most: those of the data of 960 segments, and two indirect pages.
/// After `new` it takes no memory.
#[derive(Drop)]
pub struct FrameList {
    frames: Vec<PoolFrame>,
}

impl Model for FrameList {
    ghost use Rattle.std.specs.Prelude.{◌≤◌, length, vec_capacity};
    ghost use Rattle.blk_front.specs.Frames.{Frames};

    ghost Value = { Frames };

    ghost view = { λ f. record { items = f.frames.items } };

    ghost invariant = { λ f. (962 ≤ vec_capacity f.frames) × (length f.frames.items ≤ 962) };
}

impl FrameList {
    /// A list of no frames. It fails only where there is not enough memory.
    pub fn new(alloc: Global) -> Result<FrameList, OutOfMemory>
        ensures { IfOk result (λ frames. frames.items ≡ []) }
    {
        Ok(FrameList {
            frames: Vec::with_capacity(alloc, 962)?,
        })
    }

    /// How many frames it has.
    pub fn len(&self) -> usize
        ensures value { result ≡ length self.now.items }
        ensures few { result ≤ 962 }
    {
        self.frames.len()
    }

    /// Whether it has none.
    pub fn is_empty(&self) -> bool
        ensures { result ≡ (length self.now.items == 0) }
    {
        self.frames.is_empty()
    }

    /// Its frame of this place; `None` where there is none.
    pub fn get(&self, place: usize) -> Option<PoolFrame>
        ensures { result ≡ slice_get self.now.items place }
    {
        self.frames.get(place).copied()
    }

    /// Puts a frame at its end.
    pub fn push(&mut self, frame: PoolFrame)
        requires { length self.old.items < 962 }
        ensures { self.new.items ≡ self.old.items ++ frame ∷ [] }
    {
        self.frames.push(frame).unwrap();
    }

    /// Has no frame from now on.
    pub fn clear(&mut self)
        ensures { self.new.items ≡ [] }
    {
        self.frames.clear();
    }

    /// All of them.
    pub fn as_slice(&self) -> &[PoolFrame]
        ensures all { result.now ≡ self.now.items }
        ensures few { length result.now ≤ 962 }
    {
        self.frames.as_slice()
    }
}

/// The lists that no request has, 513 at most: one more than a ring has entries. After `new` it takes
/// no memory.
#[derive(Drop)]
pub(crate) struct SpareLists {
    lists: Vec<FrameList>,
}

impl Model for SpareLists {
    ghost use Rattle.std.specs.Prelude.{ℕ, ◌≤◌, length, vec_capacity};

    ghost Value = { ℕ };

    ghost view = { λ s. length s.lists.items };

    ghost invariant = { λ s. 513 ≤ vec_capacity s.lists };
}

impl SpareLists {
    /// So many lists. It fails only where there is not enough memory.
    pub(crate) fn new(alloc: Global, count: u32) -> Result<SpareLists, OutOfMemory>
        requires { count ≤ 513 }
        ensures { IfOk result (λ spare. spare ≡ count) }
    {
        let mut lists = Vec::with_capacity(alloc, 513)?;
        for _ in 0..count {
            lists.push_reserved(FrameList::new(alloc)?);
        }
        Ok(SpareLists { lists })
    }

    /// Takes one.
    pub(crate) fn take(&mut self) -> FrameList
        requires { 0 < self.old }
        ensures { self.new + 1 ≡ self.old }
    {
        self.lists.pop().unwrap()
    }

    /// Gives one back.
    pub(crate) fn give(&mut self, frames: FrameList)
        requires { self.old < 513 }
        ensures { self.new ≡ self.old + 1 }
    {
        self.lists.push_reserved(frames);
    }
}

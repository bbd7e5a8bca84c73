// Which frames are marked, one bit for each: memory has 1088 frames, 64 in each of 17 words.
ghost use Rattle.std.specs.Prelude.{◌≡◌, ◌<◌, ◌||◌, ◌==◌, ℕ};
ghost use Rattle.schedule_run.specs.Marks.{is_marked};

/// Marks a frame, and says whether it was marked before.
#[inline(always)]
pub(super) fn mark(marks: &mut [u64; 17], frame: u32) -> bool
    requires { frame < 1088 }
    ensures before { result ≡ is_marked marks.old frame }
    ensures marked { (other : ℕ) → is_marked marks.new other ≡ (other == frame || is_marked marks.old other) }
{
    let at = (frame / 64) as usize;
    let bit = frame % 64;
    let word = marks[at];
    marks[at] = word | 1u64 << bit;
    word >> bit & 1 == 1
}

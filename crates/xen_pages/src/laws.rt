// What holds of words that are read and written many at once.
ghost use Rattle.xen_pages.specs.Apart.{WordsGoOn, FramesAreApart};

/// Many words of a frame are one word after another: one word more is read, or written, after them.
pub fn words_of_a_frame_go_one_by_one()
    ensures { WordsGoOn }
{}

/// Words of two frames are written in either order, and what is read of the one frame is as before the
/// other was written.
pub fn words_of_two_frames_are_apart()
    ensures { FramesAreApart }
{}

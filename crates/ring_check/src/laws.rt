// What is kept decides the rules.
ghost use Rattle.ring_check.specs.Kept.{WhatIsKept, StretchesAreDecided, OverrunsAreDecided};

/// What is kept, line by line, is what the rules' definitions say of all lines before, where those
/// touch memory through mappings that stand, and no map gives a number again.
pub fn what_is_kept_is_what_the_lines_say()
    ensures { WhatIsKept }
{}

/// A line may come next by the rule on stretches exactly where what is kept allows it.
pub fn stretches_are_decided_line_by_line()
    ensures { StretchesAreDecided }
{}

/// A line may come next by the rule on overruns exactly where what is kept allows it.
pub fn overruns_are_decided_line_by_line()
    ensures { OverrunsAreDecided }
{}

// What is kept decides the rules.
ghost use Rattle.job_check.specs.Laws.{JobsAreTakenOn, StepsAreDecided, EffectsAreDecided, DataAreDecided, RepliesAreDecided};

/// What is kept of some lines is what `JobSight::see` keeps of them, one line after another, beside
/// what is kept of the ring.
pub fn what_is_kept_is_taken_on_by_one_line()
    ensures { JobsAreTakenOn }
{}

/// A line may come next by the rule on steps exactly where what is kept allows it. The premises of
/// this law and the next ones are those on which a job is found again: that the lines before keep the
/// rules on touches, maps and steps.
pub fn steps_are_decided_line_by_line()
    ensures { StepsAreDecided }
{}

/// A line may come next by the rule on effects exactly where what is kept allows it.
pub fn effects_are_decided_line_by_line()
    ensures { EffectsAreDecided }
{}

/// A line that is a step may come next by the rule on data exactly where what is kept allows it.
pub fn data_are_decided_line_by_line()
    ensures { DataAreDecided }
{}

/// A line may come next by the rule on replies exactly where what is kept allows it.
pub fn replies_are_decided_line_by_line()
    ensures { RepliesAreDecided }
{}

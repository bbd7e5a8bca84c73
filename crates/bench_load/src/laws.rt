// What holds of every generated schedule.
ghost use Rattle.bench_load.specs.Grammar.{EachIsSpoken};
ghost use Rattle.bench_load.specs.Text.{EachIsBrief};

/// Each line of a generated schedule is in the grammar of schedules, and its text is read as that
/// line and as no other: so the text asks for exactly this schedule.
pub fn the_schedule_is_in_the_grammar()
    ensures { EachIsSpoken }
{}

/// A generated schedule has at most 129 bytes a line, so one of 100000 lines is far below the limit of
/// a schedule's bytes.
pub fn the_schedule_is_brief()
    ensures { EachIsBrief }
{}

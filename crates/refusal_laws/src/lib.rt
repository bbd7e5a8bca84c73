//! Why a submission is refused, in every report of the machine whose ends negotiate, also after a
//! hostile hand overwrote a word or a key: the lines before it say whether the front is connected,
//! closes or is broken, and which requests are open (the limits of `io/blkif.h`, the states of
//! `io/xenbus.h`). The plain disk says so of the lines before the first hostile one alone. The runner
//! stands on it.
#![tactic(auto)]

ghost use Rattle.std.specs.Prelude.{◌≡◌, ℕ, true, List, [], ◌∷◌, ◌++◌};
ghost use Rattle.blk_base.specs.Options.{Options};
ghost use Rattle.blk_base.specs.declared.config.Submission.{Submission};
ghost use Rattle.blk_base.specs.declared.config.Submission.TheVariants.{Read, Write};
ghost use Rattle.schedule_text.specs.declared.line.Detail.{Detail};
ghost use Rattle.schedule_text.specs.declared.line.Line.{Line};
ghost use Rattle.refusal_laws.specs.Ruled.{AreRuled};
ghost use Rattle.refusal_laws.specs.Laws.{EachReportIsRuled, EachEndedIsRuled};
ghost use Rattle.refusal_laws.specs.Wrong.{full_though_empty, taken_while_closing, range_though_read_only};

/// Each submission has the answer of the first rule that applies, as the report's lines before it say,
/// whatever happens: it is refused by that rule, and accepted where none applies. The report is one
/// with moves or without, and it may have any hostile lines, suspends and closes.
pub fn each_submission_is_answered_by_the_first_rule()
    ensures report { EachReportIsRuled }
    ensures ended { EachEndedIsRuled }
    ensures before { (submissions : List Submission) (first more : List Line) → AreRuled submissions (first ++ more) → AreRuled submissions first }
{}

/// After a hostile line the rule refuses a report that refuses a read as one too many where none is
/// open, one that accepts it while the front closes, and one that refuses a write to a disk that is
/// read-only as past its end.
pub fn wrong_answers_are_refused()
    ensures full { (config : Options) (detail : Detail) → ¬ AreRuled (Read 0 1 ∷ []) (full_though_empty config detail) }
    ensures closing { (config : Options) (detail : Detail) → ¬ AreRuled (Read 0 1 ∷ []) (taken_while_closing config detail) }
    ensures read_only { (config : Options) (detail : Detail) (tag : ℕ) → config.read_only ≡ true
        → ¬ AreRuled (Write 0 1 tag ∷ []) (range_though_read_only config detail) }
{}

// What the state tells after some lines is what the definitions of `report_rules` say of them, so
// its verdicts on the next line are those of the rules. The premise of most laws is that the maps of
// these lines were answered by the rule: then no two mappings that stand have one number.
ghost use Rattle.std.specs.Prelude.{◌≡◌, ℕ, List};
ghost use Rattle.std.specs.Bool.{Decides};
ghost use Rattle.std.specs.Map.{values_of};
ghost use Rattle.schedule_text.specs.declared.line.Line.{Line};
ghost use Rattle.report_rules.specs.Standing.{standing_after, numbered, others_of, other_writers_of};
ghost use Rattle.report_rules.specs.Value.{value_before};
ghost use Rattle.report_rules.specs.Coherent.{IsCoherentAt};
ghost use Rattle.report_rules.specs.Mapped.{IsMapAnswerAt, AreMapAnswers, was_made};
ghost use Rattle.report_rules.specs.Touch.{IsTouchAt};
ghost use Rattle.memory_check.specs.Numbers.{has};
ghost use Rattle.memory_check.specs.State.{state_after, word_at, standing_at};
ghost use Rattle.memory_check.specs.Verdicts.{shows_what_is_there, answers_map, touches_a_mapping};

/// The state has the value of each word.
pub fn the_value_is_told()
    ensures { (before : List Line) → AreMapAnswers before → (frame word : ℕ)
        → word_at (state_after before) frame word ≡ value_before before frame word }
{}

/// The state has the mapping of each number, and how many stand of each reference, but for one.
pub fn the_mappings_are_told()
    ensures found { (before : List Line) → AreMapAnswers before → (number : ℕ)
        → standing_at (state_after before).standing number ≡ numbered number (standing_after before) }
    ensures others { (before : List Line) → AreMapAnswers before → (gref number : ℕ)
        → others_of gref number (values_of (state_after before).standing) ≡ others_of gref number (standing_after before) }
    ensures writers { (before : List Line) → AreMapAnswers before → (gref number : ℕ)
        → other_writers_of gref number (values_of (state_after before).standing) ≡ other_writers_of gref number (standing_after before) }
{}

/// The state has the numbers that mappings ever had, whatever the lines are.
pub fn the_numbers_are_told()
    ensures { (before : List Line) (number : ℕ) → has (state_after before).numbers number ≡ was_made before number }
{}

/// The verdict on what a line shows of memory is the rule of coherent reads.
pub fn the_verdict_on_coherence_is_the_rule()
    ensures { (before : List Line) (line : Line) → AreMapAnswers before
        → Decides (shows_what_is_there (state_after before) line) (IsCoherentAt before line) }
{}

/// The verdict on what a map is answered is the rule of maps.
pub fn the_verdict_on_map_answers_is_the_rule()
    ensures { (before : List Line) (line : Line) → AreMapAnswers before
        → Decides (answers_map (state_after before) line) (IsMapAnswerAt before line) }
{}

/// The verdict on a touch is the rule of touches.
pub fn the_verdict_on_touches_is_the_rule()
    ensures { (before : List Line) (line : Line) → AreMapAnswers before
        → Decides (touches_a_mapping (state_after before) line) (IsTouchAt before line) }
{}

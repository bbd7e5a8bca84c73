// What the rules on moves say, one by one.
ghost use Rattle.report_rules.specs.Coherent.{IsCoherent};
ghost use Rattle.report_rules.specs.Touch.{AreTouches};
ghost use Rattle.report_rules.specs.Mapped.{AreMapAnswers};
ghost use Rattle.report_rules.specs.Stretch.{AreStretches};
ghost use Rattle.report_rules.specs.Steps.{AreSteps};
ghost use Rattle.report_rules.specs.Effect.{AreEffects};
ghost use Rattle.report_rules.specs.Data.{AreData};
ghost use Rattle.report_rules.specs.Reply.{AreReplies};
ghost use Rattle.report_rules.specs.Overrun.{IsOverrunRule};
ghost use Rattle.checked_rules.specs.Shown.{OfShown};

/// A report whose first line says that moves are shown, and that keeps the rules on moves, obeys each
/// rule that these join, from its first line on.
pub fn a_report_that_shows_its_moves_obeys_the_rules_on_them()
    ensures coherent { OfShown IsCoherent }
    ensures touches { OfShown AreTouches }
    ensures answers { OfShown AreMapAnswers }
    ensures stretches { OfShown AreStretches }
    ensures steps { OfShown AreSteps }
    ensures effects { OfShown AreEffects }
    ensures given { OfShown AreData }
    ensures replies { OfShown AreReplies }
    ensures overruns { OfShown IsOverrunRule }
{}

// What a run promises, as the rules of a report.
ghost use Rattle.legal_laws.specs.Unknown.{KnownIsUnknown, RunIsUnknown};
ghost use Rattle.legal_laws.specs.Kept.{RunSoFarIsKept, RunIsKept};
ghost use Rattle.legal_laws.specs.Legal.{HonestPartIsLegal, KeptIsLegal};
ghost use Rattle.legal_laws.specs.Order.{AnswersAreInOrder, EchoIsInOrder};
ghost use Rattle.legal_laws.specs.Found.{LegalIsFoundLegal};
ghost use Rattle.legal_laws.specs.Promised.{JobsCanBeAsked, PromisedSoFarIsLegal, PromisedIsLegal, PromisedIsFoundLegal};
ghost use Rattle.legal_laws.specs.Runs.{LawfulIsKept, LawfulIsFoundLegal};

/// A run of the plain disk, whatever its sectors hold at first, is one from sectors of which nothing
/// is known (`disk`): its requests, places, notes and writes are the same. So is a report that a run
/// promises, whether the disk exposes what it holds or not (`run`).
pub fn a_run_from_a_disk_is_a_run_from_an_unknown_one()
    ensures disk { KnownIsUnknown }
    ensures run { RunIsUnknown }
{}

/// A report of a run keeps the ten rules on requests, where each job that was submitted is one that a
/// schedule can ask for, and no line is `unsettled`. So does the beginning of one (`so_far`).
pub fn a_report_of_a_run_keeps_the_rules_on_requests()
    ensures so_far { RunSoFarIsKept }
    ensures run { RunIsKept }
{}

/// A report whose lines keep the rules one by one is legal: the order, the rules on requests up to the
/// first hostile line (`honest`) or in all of it (`whole`), and, where `begin` says that moves are
/// shown, the rules on moves.
pub fn a_report_that_keeps_the_rules_line_by_line_is_legal()
    ensures honest { HonestPartIsLegal }
    ensures whole { KeptIsLegal }
{}

/// A report that echoes its schedule is in order: `begin` is its first line alone, no line follows
/// `end`, and moves stand only where `begin` says so. So are lines before `end` that answer the events
/// so far (`so_far`).
pub fn a_report_that_echoes_its_schedule_is_in_order()
    ensures so_far { AnswersAreInOrder }
    ensures whole { EchoIsInOrder }
{}

/// The jobs whose numbers are those of the grammar are ones that a schedule can ask for.
pub fn the_jobs_of_a_schedule_can_be_asked()
    ensures { JobsCanBeAsked }
{}

/// A check finds the text of a report legal whose lines keep all rules and whose last is `end`, and
/// calls no line of it bad, unless it stops before its end.
pub fn a_check_finds_the_text_of_a_legal_report_legal()
    ensures { LegalIsFoundLegal }
{}

/// A report as a run promises it is legal: all its lines keep all rules, and the last is `end`
/// (`whole`); so do the lines before `end` (`so_far`). A check finds its text legal, unless it stops
/// before its end (`found`).
pub fn a_report_as_a_run_promises_it_is_legal()
    ensures so_far { PromisedSoFarIsLegal }
    ensures whole { PromisedIsLegal }
    ensures found { PromisedIsFoundLegal }
{}

/// A lawful report that echoes its schedule keeps all rules, whatever a hostile hand overwrites, and
/// its last line is `end` (`kept`); so a check finds its text legal, unless it stops before its end
/// (`found`). Premises: the disk is one, as `run` asks for; and each submission has numbers of the
/// grammar, as `run` promises (`IsLawfulRun`: `widths`).
pub fn the_report_of_a_run_is_legal()
    ensures kept { LawfulIsKept }
    ensures found { LawfulIsFoundLegal }
{}

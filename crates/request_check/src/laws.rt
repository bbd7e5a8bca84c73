// What the rules on requests are together.
ghost use Rattle.request_check.specs.Laws.{KeptIsRun, RunIsKept, StatesAreDecided, TheVerdictsAreTheRules, KeptWhereAllowed};

/// A report that keeps the ten rules is a run of the plain disk.
pub fn a_report_that_keeps_the_rules_is_a_run_of_the_plain_disk()
    ensures { KeptIsRun }
{}

/// A run of the plain disk whose submissions and refusals are by the limits, and whose states come in
/// order, keeps the ten rules.
pub fn a_run_of_the_plain_disk_keeps_the_rules()
    ensures { RunIsKept }
{}

/// After any lines, the state tells of each line but `closed` whether the front may tell its state so.
pub fn the_verdict_on_states_decides_all_but_closed()
    ensures { StatesAreDecided }
{}

/// After lines that keep the rules, what the state says of the next line is what the rules say of it,
/// each verdict of its rule.
pub fn the_verdicts_are_the_rules()
    ensures { TheVerdictsAreTheRules }
{}

/// A report keeps the rules where the verdicts allow each of its lines after those before it, and
/// nowhere else.
pub fn a_report_keeps_the_rules_where_each_line_is_allowed()
    ensures { KeptWhereAllowed }
{}

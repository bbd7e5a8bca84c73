//! What a run reports is what a check finds legal: the promises of a run (`pipeline_laws`) are the
//! rules on requests (`request_check`), line by line. Between them stands the plain disk
//! (`plain_disk`), whose sectors a run knows and a reader of the report doesn't. So each lawful report
//! of `run` (`schedule_run`) is legal.
#![tactic(auto)]

mod laws;

pub use laws::{
    a_check_finds_the_text_of_a_legal_report_legal, a_report_as_a_run_promises_it_is_legal,
    a_report_of_a_run_keeps_the_rules_on_requests, a_report_that_echoes_its_schedule_is_in_order,
    a_report_that_keeps_the_rules_line_by_line_is_legal,
    a_run_from_a_disk_is_a_run_from_an_unknown_one, the_jobs_of_a_schedule_can_be_asked,
    the_report_of_a_run_is_legal,
};

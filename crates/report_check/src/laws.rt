//! A law over the definitions, the contract of a function that does nothing.
ghost use Rattle.report_check.specs.Reports.{RunReportsAreTexts};

/// What is written of a report over command files is the text of that report, as `read_report` takes it.
pub fn run_reports_are_texts()
    ensures { RunReportsAreTexts }
{}

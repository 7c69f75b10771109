//! Laws over the definitions, each the contract of a function that does nothing.
ghost use Rattle.lin_report.specs.Text.{ByBeginSorts};
ghost use Rattle.lin_report.specs.Writing.{ReportTextFits};
ghost use Rattle.lin_report.specs.Tellable.{ObjectsAreTellable};
ghost use Rattle.lin_report.specs.Sequence.{SequentialReportIsReport, SequentialReportIsLinearizable, SequentialReportCanBeWritten};

/// What one seat did alone, one operation after another, is a report over its file.
pub fn sequential_report_is_report()
    ensures { SequentialReportIsReport }
{}

/// What one seat did alone, one operation after another, is linearizable.
pub fn sequential_report_is_linearizable()
    ensures { SequentialReportIsLinearizable }
{}

/// What one seat did alone can be written, where its operations are commands of one object.
pub fn sequential_report_can_be_written()
    ensures { SequentialReportCanBeWritten }
{}

/// The objects of the four clients can be told in reports: they serve commands alone, a command that comes after commands
/// has one of the replies that it may be given, and none says that no block was left.
pub fn objects_are_tellable()
    ensures { ObjectsAreTellable }
{}

/// The lines of a report are those of its calls, in rising order of begin.
pub fn calls_by_begin_rise()
    ensures { ByBeginSorts }
{}

/// The text of a report has at most 64 bytes for each call and 128 for the summary line.
pub fn report_text_fits()
    ensures { ReportTextFits }
{}

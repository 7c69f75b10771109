//! The reports of the runs of a client with its laws, and what their calls are told.
ghost use Rattle.run_reports.specs.Files.{FilesReport};
ghost use Rattle.run_reports.specs.Linearized.{FilesLinearizable, RepliesFit, ExhaustedOnlyWhere, ExhaustedWonNone};

use normal_traits::Normalized;

/// In any order of the seats the receipts and the calls that run are a report over the command files.
pub fn files_report<C: Normalized>()
    ensures { FilesReport C.form }
{}

/// In any order of the seats this report is linearizable.
pub fn files_linearizable<C: Normalized>()
    ensures { FilesLinearizable C.form }
{}

/// In any order of the seats each reply is one that its command may be given, with its value in range.
pub fn replies_fit<C: Normalized>()
    ensures { RepliesFit C.form }
{}

/// A call is told that it found no block only where none was left before it drew its end tick. It made no change,
/// and where a list of it won an exchange, that entry makes no change and the list is given up.
pub fn exhausted_only<C: Normalized>()
    ensures { ExhaustedOnlyWhere C.form }
{}

/// Where the first entry of each list makes its change, no list of such a call won an exchange.
pub fn exhausted_won_none<C: Normalized>()
    ensures { ExhaustedWonNone C.form }
{}

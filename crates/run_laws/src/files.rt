//! A run over command files makes their commands.
ghost use Rattle.run_laws.specs.Files.{FilesRun};

use normal_traits::Normalized;

/// Over files of the client's commands, one for each seat, and in any order of the seats, each move can
/// follow those before it, and call n of a seat is the n-th command of its file.
pub fn files_run<C: Normalized>()
    ensures { FilesRun C.form }
{}

//! What is so of every generated file.
ghost use Rattle.generated_files.specs.Generated.{EachRuns};

/// Each generated file is one that a seat can run: of commands of the client, no more than a seat can number.
pub fn each_runs()
    ensures { EachRuns }
{}

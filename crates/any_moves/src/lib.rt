//! What any moves that can follow each other come to, for any client with its laws: all that a run of command files
//! comes to, where no files are fixed before. The commands that the moves begin stand in the place of the files, so
//! that it is of calls that come one after the other from anywhere, as of those of a handle.
#![tactic(auto)]

pub mod headline;

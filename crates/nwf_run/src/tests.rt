//! The top calls on files and sinks in memory, by subject, and the call on bytes.
mod buckets;
mod bytes;
mod faults;
mod least_keys;
mod lists;
mod loads;
mod meeting;
mod peeks;
mod queues;
mod refusals;
mod rows;
mod runs;
mod slow;
mod sweeps;
mod trees;

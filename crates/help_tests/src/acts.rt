//! What seats do one after another, and the lines that they return.
use crate::play::Play;
use lin_report::{Op, Path, Reply};
use normal_traits::Normalized;

/// What one seat does.
#[derive(Clone, Copy, Debug, PartialEq, Eq)]
pub enum Act {
    /// Begins a call, its first step not made yet.
    Calls(u32, Op),
    /// Makes so many steps.
    Steps(u32, u32),
    /// Makes a step, and more up to the exchange of an entry of a list, without that one.
    Reaches(u32),
    /// Makes the steps up to the end of its call, with this reply, these ticks and this path.
    Ends(u32, Reply, u64, u64, Path),
}

/// Whether the seat did it.
fn does<C: Normalized>(play: &mut Play<C>, act: Act) -> bool {
    match act {
        Act::Calls(seat, op) => play.begin(seat, op),
        Act::Steps(seat, count) => play.steps(seat, count).is_some(),
        Act::Reaches(seat) => play.reach_listed(seat),
        Act::Ends(seat, reply, begin, end, path) => match play.finish(seat) {
            Some(line) => line.reply == reply
                && line.begin == begin
                && line.end == end
                && line.path == path,
            None => false,
        },
    }
}

/// The number of the first act that was not done.
pub fn first_undone<C: Normalized>(play: &mut Play<C>, acts: &[Act]) -> Option<usize> {
    for (number, act) in acts.iter().enumerate() {
        if !does(play, *act) {
            return Some(number);
        }
    }
    None
}

//! Where a call stands of which a try was made in one piece.

use lin_report::Reply;

/// Where a call stands after a try that was made in one piece. `S` is the state of a generator and `W` that of a wrap-up.
#[derive(Drop)]
pub enum Tried<S, W> {
    /// The end tick is left to draw, with this reply.
    Ended(Reply),
    /// The try failed. The next search begins, or at the limit of failures the call is announced.
    Failed,
    /// The search goes on.
    Searching(S),
    /// The wrap-up goes on.
    Wrapping(W),
}

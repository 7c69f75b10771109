//! The call of each seat that is published and has not completed.
ghost use Rattle.std.specs.Prelude.{◌≡◌, ◌≢◌, ◌<◌, ◌≤◌, ◌+◌, ◌^◌, ℕ, length, slice_set};
ghost use Rattle.overtaking_law.specs.OpenCalls.{open_call_of, overtaken_so_far, without, after_return};

/// A published call that has not completed, and how often it was overtaken so far.
#[derive(Clone, Copy)]
pub struct OpenCall {
    pub number: u32,
    pub overtaken: u64,
}

/// A call of the seat completes.
pub fn complete(calls: &mut [Option<OpenCall>], seat: usize, number: u32)
    requires { seat < length calls.old }
    ensures { calls.new ≡ slice_set calls.old seat (without number (open_call_of calls.old seat)) }
{
    if let Some(call) = calls[seat]
        && call.number == number
    {
        calls[seat] = None;
    }
}

/// A call of the seat returns: the open calls of other seats are overtaken once more. The greatest count of
/// theirs, 0 where there are none.
pub fn overtake(calls: &mut [Option<OpenCall>], seat: usize) -> u64
    requires { (place : ℕ) → overtaken_so_far (open_call_of calls.old place) + 1 < 2 ^ 64 }
    ensures calls { (place : ℕ) → open_call_of calls.new place ≡ after_return seat place (open_call_of calls.old place) }
    ensures bound { (place : ℕ) → place ≢ seat → overtaken_so_far (open_call_of calls.new place) ≤ result }
    ensures reached { 0 < result → (place : ℕ) × (place ≢ seat) × (overtaken_so_far (open_call_of calls.new place) ≡ result) }
{
    let mut most = 0;
    for place in 0..calls.len() {
        if place != seat
            && let Some(call) = calls[place]
        {
            let overtaken = call.overtaken + 1;
            calls[place] = Some(OpenCall { overtaken, ..call });
            most = most.max(overtaken);
        }
    }
    most
}

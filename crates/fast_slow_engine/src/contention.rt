//! How often a call has failed on its fast path.
ghost use Rattle.std.specs.Prelude.{◌≡◌, ◌+◌, ◌<◌, ◌≤◌, ◌↔◌, IsTrue, min};

/// The failures of a call, of which there may be as many as its limit.
#[derive(Clone, Copy, Debug, PartialEq, Eq)]
pub struct Contention {
    pub failures: u32,
    pub limit: u32,
    pub ghost within: { failures ≤ limit },
}

impl Contention {
    /// No failure yet.
    pub fn new(limit: u32) -> Contention
        ensures none { result.failures ≡ 0 }
        ensures limit { result.limit ≡ limit }
    {
        Contention { failures: 0, limit }
    }

    /// Whether the call may try once more: exactly below the limit.
    pub fn may_try(&self) -> bool
        ensures { IsTrue result ↔ (self.now.failures < self.now.limit) }
    {
        self.failures < self.limit
    }

    /// Counts a failure. At the limit the count stays.
    pub fn count(&mut self)
        ensures failures { self.new.failures ≡ min (self.old.failures + 1) self.old.limit }
        ensures limit { self.new.limit ≡ self.old.limit }
    {
        if self.may_try() {
            self.failures += 1;
        }
    }
}

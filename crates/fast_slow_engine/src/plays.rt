//! What steps are made on.
use step_memory::{Request, Seen};

/// What a machine makes its steps on, in one piece: the request is made where the machine asks for it, so that a step
/// asks once what it is for. Implementors say which requests they serve, and what a step leaves.
pub trait Plays {
    ghost use Rattle.step_memory.specs.declared.steps.Request.{Request};
    ghost use Rattle.step_memory.specs.declared.steps.Seen.{Seen};

    /// Whether the request may be made.
    ghost can: { Self → Request → Type 0 };

    /// The request is made: what there is before, after, and what the step saw.
    ghost makes: { Self → Request → Self → Seen → Type 0 };

    /// Makes one atomic step.
    fn play(&mut self, request: Request) -> Seen
        requires { can self.old request }
        ensures { makes self.old request self.new result };
}

/// A step that was made already, and saw this.
#[derive(Clone, Copy, Debug, PartialEq, Eq)]
pub struct Made {
    pub seen: Seen,
}

impl Plays for Made {
    ghost use Rattle.std.specs.Prelude.{◌≡◌};

    ghost can = { λ made request. Unit {0} };

    ghost makes = { λ made request after seen. seen ≡ made.seen };

    #[inline(always)]
    fn play(&mut self, _request: Request) -> Seen {
        self.seen
    }
}

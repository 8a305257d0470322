// Where a D item stands.
ghost use Rattle.std.specs.Prelude.{◌≡◌};
ghost use Rattle.terms.specs.Stages.{before_steps, among_steps};

#[derive(Clone, Copy, PartialEq, Eq)]
pub enum Stage {
    // In a message without steps.
    Free,
    // In a message of steps, before the first of them.
    BeforeSteps,
    // From the first step on.
    AmongSteps,
}

impl Stage {
    pub(crate) fn is_before_steps(self) -> bool
        ensures { result ≡ before_steps self }
    {
        self == Stage::BeforeSteps
    }

    pub(crate) fn is_among_steps(self) -> bool
        ensures { result ≡ among_steps self }
    {
        self == Stage::AmongSteps
    }
}

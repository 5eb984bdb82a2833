// The two ways of a step.
ghost use Rattle.std.specs.Prelude.{◌≡◌};
ghost use Rattle.vectors.specs.Steps.{number_from};

// To the next shape, or to the one before.
#[derive(Clone, Copy)]
pub enum Way {
    On,
    Back,
}

impl Way {
    // What stands before the answer of such a step.
    pub(crate) fn label(self) -> &'static [u8] {
        match self {
            Way::On => b"on",
            Way::Back => b"back",
        }
    }

    // The number that the step comes to.
    pub fn leads_from(self, number: u64) -> u64
        ensures { result ≡ number_from self number }
    {
        match self {
            Way::On => number.wrapping_add(1),
            Way::Back => number.wrapping_sub(1),
        }
    }
}

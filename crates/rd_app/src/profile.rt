//! Profiles: how much of the kernel an application asks for.

ghost use Rattle.std.specs.Prelude.{◌≡◌, ◌≤◌};
ghost use Rattle.rd_app.specs.Profiles.{has_interrupts, max_cores};
ghost use Rattle.rd_app.specs.declared.profile.TheConstants.{MAX_CORES};

/// How many cores an application of any profile has at the most (`configNUMBER_OF_CORES`).
pub const MAX_CORES: usize = 16;

/// What an application may have, by the number in its file.
#[derive(Clone, Copy)]
pub enum Profile {
    /// Profile 1: 1 to 8 cores, and no interrupts.
    One,
    /// Profile 2: 1 to 16 cores, and interrupts between the moves of tasks.
    Two,
}

impl Profile {
    /// How many cores an application of this profile has at the most.
    pub fn max_cores(self) -> usize
        ensures exact { result ≡ max_cores self }
        ensures within { result ≤ MAX_CORES }
    {
        match self {
            Profile::One => 8,
            Profile::Two => 16,
        }
    }

    /// Whether an application of this profile has interrupts.
    pub fn has_interrupts(self) -> bool
        ensures { result ≡ has_interrupts self }
    {
        match self {
            Profile::One => false,
            Profile::Two => true,
        }
    }
}

//! What a task waits for at an event group.

ghost use Rattle.std.specs.Prelude.{◌≡◌, ◌≤◌};
ghost use Rattle.rd_group.specs.Wishes.{is_met, left_of};

/// The bits of an event group: 24 of them can be used (`configTICK_TYPE_WIDTH_IN_BITS` is 32).
pub const MAX_BITS: u32 = 0xFF_FFFF;

/// Whether a task waits for any of its bits, or for all (`xWaitForAllBits`).
#[derive(Clone, Copy, PartialEq, Eq)]
pub enum WaitFor {
    /// Any one of them is enough.
    Any,
    /// All must be set.
    All,
}

/// What becomes of the bits that a task waited for, once they have come (`xClearOnExit`).
#[derive(Clone, Copy, PartialEq, Eq)]
pub enum OnMet {
    /// They stay as they are.
    Keep,
    /// They are cleared.
    Clear,
}

/// What a task waits for (`xEventGroupWaitBits`).
#[derive(Clone, Copy, PartialEq, Eq)]
pub struct Wish {
    /// The bits (`uxBitsToWaitFor`).
    pub bits: u32,
    /// Any of them, or all.
    pub wait_for: WaitFor,
    /// What becomes of them.
    pub on_met: OnMet,
}

impl Wish {
    /// Whether these bits of a group are what the task waits for.
    pub fn is_met(self, bits: u32) -> bool
        ensures { result ≡ is_met bits self }
    {
        match self.wait_for {
            WaitFor::Any => bits & self.bits != 0,
            WaitFor::All => bits & self.bits == self.bits,
        }
    }

    /// These bits of a group, once the wish is met: without those of the wish where it clears them.
    pub fn left_of(self, bits: u32) -> u32
        ensures left { result ≡ left_of bits self }
        ensures no_others { result ≤ bits }
    {
        match self.on_met {
            OnMet::Keep => bits,
            OnMet::Clear => bits & !self.bits,
        }
    }
}

/// For contracts alone: the bits that can be used, as a number.
pub fn limit_of_bits()
    ensures { MAX_BITS ≡ 16777215 }
{}

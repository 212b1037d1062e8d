//! Views: what a session can be shown.

use rd_text::kind::Kind;

/// What is shown of the debugger itself.
#[derive(Clone, Copy)]
pub enum Overview {
    /// `show moves`: how many moves were made, and how many of them taken back.
    Moves,
    /// `show wheel`: which session has the wheel.
    Wheel,
    /// `show watches`: which of the session's watches hold.
    Watches,
}

/// What is shown.
#[derive(Clone, Copy)]
pub enum View {
    /// `show KIND NAME`: the thing of that kind with this number.
    Thing { kind: Kind, number: usize },
    /// `show cores`: who runs, who is ready, the tick and the turn.
    Cores,
    /// What names nothing, and is of the debugger.
    Overview { of: Overview },
}

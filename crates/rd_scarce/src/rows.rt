//! What is asked, and what must be answered.

/// Who asks, where two are there.
#[derive(Clone, Copy, PartialEq, Eq)]
pub enum Who {
    First,
    Second,
}

/// A line that is asked, and its reply.
#[derive(Clone, Copy)]
pub struct ReplyRow {
    pub who: Who,
    pub line: &'static str,
    pub reply: &'static str,
}

/// What one session asks in `runs_to_a_condition`.
pub const RUNS: [ReplyRow; 15] = [
    ReplyRow {
        who: Who::First,
        line: "step 0",
        reply: "ok at 1\n",
    },
    ReplyRow {
        who: Who::First,
        line: "step 0",
        reply: "ok at 2\n",
    },
    ReplyRow {
        who: Who::First,
        line: "step 0",
        reply: "ok at 3\n",
    },
    ReplyRow {
        who: Who::First,
        line: "step 0",
        reply: "ok at 4\n",
    },
    ReplyRow {
        who: Who::First,
        line: "step 0",
        reply: "ok at 5\n",
    },
    ReplyRow {
        who: Who::First,
        line: "step 0",
        reply: "ok at 6\n",
    },
    ReplyRow {
        who: Who::First,
        line: "step 0",
        reply: "ok at 7\n",
    },
    ReplyRow {
        who: Who::First,
        line: "back until count q0 = 1",
        reply: "ok at 5 met\n",
    },
    ReplyRow {
        who: Who::First,
        line: "back until count q0 = 1",
        reply: "ok at 2 met\n",
    },
    ReplyRow {
        who: Who::First,
        line: "back until count q0 = 1",
        reply: "ok at 0 start\n",
    },
    ReplyRow {
        who: Who::First,
        line: "until count q0 = 1 9",
        reply: "ok at 3 met\n",
    },
    ReplyRow {
        who: Who::First,
        line: "until count q0 = 2 1",
        reply: "ok at 4 limit\n",
    },
    ReplyRow {
        who: Who::First,
        line: "trim 2",
        reply: "ok at 4\n",
    },
    ReplyRow {
        who: Who::First,
        line: "back 3",
        reply: "no TooFar 2\n",
    },
    ReplyRow {
        who: Who::First,
        line: "step 0",
        reply: "ok at 5\n",
    },
];

/// What two sessions ask in `the_wheel`.
pub const WHEEL: [ReplyRow; 5] = [
    ReplyRow {
        who: Who::First,
        line: "wheel take",
        reply: "ok wheel\n",
    },
    ReplyRow {
        who: Who::Second,
        line: "step 0",
        reply: "no Held 1\n",
    },
    ReplyRow {
        who: Who::Second,
        line: "show wheel",
        reply: "wheel 1\n",
    },
    ReplyRow {
        who: Who::First,
        line: "poke reg t0 0 7",
        reply: "ok at 1\n",
    },
    ReplyRow {
        who: Who::First,
        line: "show task t0",
        reply: "task t0 core 0 pc 0 phase run regs 7,0,0,0,0,0,0,0 data - notes 0:idle\n",
    },
];

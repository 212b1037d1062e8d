//! Laws of going on and back, of the room for it, and of trims, in their own words.

ghost use Rattle.rd_timeline.specs.RunLaws.{BackFindsTheLast, EditsLeaveNoTrace, RedoUndoesBack};
ghost use Rattle.rd_timeline.specs.RunLaws.{KeptGoesAsBefore, OnlyTrimsMoveTheBase, RedoHasRoom};
ghost use Rattle.rd_timeline.specs.RunLaws.{RefusedRequestsLeaveAll, RunsAddUp, TrimLeavesMoves};
ghost use Rattle.rd_timeline.specs.RunLaws.{BaseIsWithinMoves, RunHasRoom, TrimsMeet};

/// A law: moves that are taken back and then made again leave the target, the moves done and the
/// moves undone as they were before, and how many moves are kept.
pub fn redo_undoes_back()
    ensures { RedoUndoesBack }
{}

/// A law: a run and then another give the same as one run that is as long as both.
pub fn runs_add_up()
    ensures { RunsAddUp }
{}

/// A law: where a search back ends well, the condition holds, and at no later place before the one
/// where the search began. Where it doesn't end well, the condition holds at no earlier place that
/// records lead back to.
pub fn back_finds_the_last()
    ensures { BackFindsTheLast }
{}

/// A law: an edit that is taken back leaves no trace in the target, in the moves done and in how
/// many of them are kept.
pub fn edits_leave_no_trace()
    ensures { EditsLeaveNoTrace }
{}

/// A law: where there is room for as many of the longest records as there are moves to be made
/// again, `redo` has no need of memory.
pub fn redo_has_room()
    ensures { RedoHasRoom }
{}

/// A law: with that room, where there is room for as many moves more and none is undone, `forward`
/// and `until` have no need of memory.
pub fn run_has_room()
    ensures { RunHasRoom }
{}

/// A law: a refused request of any kind leaves the moves done, so the target too, the moves undone
/// and how many moves are kept.
pub fn refused_requests_leave_all()
    ensures { RefusedRequestsLeaveAll }
{}

/// A law: a trim leaves the target, the moves done and the moves undone.
pub fn trim_leaves_moves()
    ensures { TrimLeavesMoves }
{}

/// A law: a trim and then another are one to the smaller of both numbers.
pub fn trims_meet()
    ensures { TrimsMeet }
{}

/// A law: what a trim keeps can be undone, with the same target, moves done and moves undone as
/// without it, and then be redone.
pub fn kept_goes_as_before()
    ensures { KeptGoesAsBefore }
{}

/// A law: how many of the moves done have no record any more is changed by trims alone, which never
/// make it less.
pub fn only_trims_move_the_base()
    ensures { OnlyTrimsMoveTheBase }
{}

/// A law: no more moves lack a record than are done, whatever is asked.
pub fn base_is_within_moves()
    ensures { BaseIsWithinMoves }
{}

//! Laws of queue sets, in their own words.

ghost use Rattle.rd_queue_calls.specs.QueueSetLaws.{FailedSendsLeaveAll, HandlesGoByCalls};
ghost use Rattle.rd_queue_calls.specs.QueueSetLaws.{OverwritesPostOnce};

/// A law: a send into a member with space adds just one handle, its number at the back of its set's;
/// a select that returns a number takes just the one at the front; no other call changes handles.
pub fn handles_go_by_calls()
    ensures { HandlesGoByCalls }
{}

/// A law: an overwrite of an item that is there, in a member of a set, changes that item and
/// nothing else: it neither posts nor wakes anybody.
pub fn overwrites_post_once()
    ensures { OverwritesPostOnce }
{}

/// A law: a send that fails leaves everything as it was: into a full queue, where it may not wait,
/// and into a member of a set that has no space for its handle.
pub fn failed_sends_leave_all()
    ensures { FailedSendsLeaveAll }
{}

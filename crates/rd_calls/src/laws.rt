//! Laws of moves, in their own words.

ghost use Rattle.rd_calls.specs.HandleMoves.{HandlesGoByMoves};
ghost use Rattle.rd_calls.specs.Received.{ReceivedStays};
ghost use Rattle.rd_calls.specs.Sleeping.{ReadersSleep};

/// A law: handles of queue sets come by sends into members and go by selects, and by nothing else:
/// a move changes them as the call that it makes is written to, and no other move changes any.
/// Ticks, edits, local instructions, and what becomes of callers and of those who are woken change
/// none.
pub fn handles_go_by_moves()
    ensures { HandlesGoByMoves }
{}

/// A law: a notification that has come stays until its own task takes or waits for it, or somebody
/// clears its state: whatever other move is made, its entry still has received after it.
pub fn received_stays()
    ensures { ReceivedStays }
{}

/// A law: no reader is woken below the trigger level but by its time, or by a notification of its
/// entry 0: whatever move is made, but for an edit of its own, a task that waits as the reader of a
/// stream buffer sleeps on if fewer bytes than that are there afterwards. One that waits for a
/// message sleeps on until one comes.
pub fn readers_sleep()
    ensures { ReadersSleep }
{}

//! Laws of the sequential debugger, in their own words.

ghost use Rattle.rd_desk.specs.Laws.{BackGivesTheTargetBack, RefusedCommandsChangeNothing};
ghost use Rattle.rd_desk.specs.Laws.{TheHistoryStays, TheHolderTookTheWheelLast};
ghost use Rattle.rd_desk.specs.Laws.{TrimmingIsSeenInMovesAlone};
ghost use Rattle.rd_desk.specs.Laws.{WatchesAreDroppedByTheirSession, WatchesAreSeenByTheirSession};

/// A law: a command that is refused changes nothing.
pub fn refused_commands_change_nothing()
    ensures { RefusedCommandsChangeNothing }
{}

/// A law: taking back a move gives back the whole target before it.
pub fn back_gives_the_target_back()
    ensures { BackGivesTheTargetBack }
{}

/// A law: trimming is seen in `show moves`, and in nothing else that is shown.
pub fn trimming_is_seen_in_moves_alone()
    ensures { TrimmingIsSeenInMovesAlone }
{}

/// A law: who has the wheel is the last who took it, and neither gave it nor left.
pub fn the_holder_took_the_wheel_last()
    ensures { TheHolderTookTheWheelLast }
{}

/// A law: a watch is its own session's: no other sees it, and no other drops it.
pub fn watches_are_ones_own()
    ensures seen { WatchesAreSeenByTheirSession }
    ensures dropped { WatchesAreDroppedByTheirSession }
{}

/// A law: no entry of the history is lost or changed.
pub fn the_history_stays()
    ensures { TheHistoryStays }
{}

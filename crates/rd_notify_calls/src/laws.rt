//! Laws of notifications, in their own words.

ghost use Rattle.rd_notify_calls.specs.NotifyLaws.{NotificationsArrive, NothingIsOverwritten};
ghost use Rattle.rd_notify_calls.specs.NotifyLaws.{TakesCountDown};

/// A law: a notification that isn't refused is not lost: its entry has received, and a task that
/// waited for it doesn't wait any more.
pub fn notifications_arrive()
    ensures { NotificationsArrive }
{}

/// A law: a notification that is not to overwrite leaves everything as it was where its entry has
/// received (`eSetValueWithoutOverwrite`).
pub fn nothing_is_overwritten()
    ensures { NothingIsOverwritten }
{}

/// A law: a take that counts down takes one from a value that isn't 0, and leaves 0
/// (`ulTaskNotifyTake` with `pdFALSE`).
pub fn takes_count_down()
    ensures { TakesCountDown }
{}

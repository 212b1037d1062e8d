//! Laws of interrupts, in their own words.

ghost use Rattle.rd_interrupts.specs.InterruptLaws.{NotificationsArriveByInterrupt};
ghost use Rattle.rd_interrupts.specs.InterruptLaws.{RefusedInterruptsChangeNothing};
ghost use Rattle.rd_interrupts.specs.InterruptLaws.{SendsWakeTheFirst};

/// A law: an interrupt that answers 0 changes nothing where nothing is left to schedule: it was
/// made, and that is all.
pub fn refused_interrupts_change_nothing()
    ensures { RefusedInterruptsChangeNothing }
{}

/// A law: an item that an interrupt puts into a queue in no set wakes the first who waits to
/// receive, if somebody does: that task waits nowhere any more.
pub fn sends_wake_the_first()
    ensures { SendsWakeTheFirst }
{}

/// A law: once an interrupt has notified an entry, it has received, whatever the action and the
/// answer.
pub fn notifications_arrive_by_interrupt()
    ensures { NotificationsArriveByInterrupt }
{}

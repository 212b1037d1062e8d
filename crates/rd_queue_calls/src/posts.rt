//! Queue sets: what an item that was put makes known, and to whom.

ghost use Rattle.std.specs.Prelude.{◌≡◌, ◌+◌, ◌<◌, length, false, IfOk, IfSome, OnErr};
ghost use Rattle.rd_app.specs.Application.{priorities_of};
ghost use Rattle.rd_kernel.specs.Costs.{waking_cost};
ghost use Rattle.rd_kernel.specs.Outcomes.{DoesCall};
ghost use Rattle.rd_kernel.specs.Waking.{ReadyHasRoom};
ghost use Rattle.rd_queue_calls.specs.Posts.{is_in_full_queue_set, list_posted_to, posted};
ghost use Rattle.rd_state.specs.EditingView.{GivesUp};
ghost use Rattle.rd_state.specs.Waiting.{waiting_at};

use rd_app::app::Program;
use rd_bytes::no_memory::NoMemory;
use rd_kernel::outcome::Outcome;
use rd_kernel::waking::pass;
use rd_queue::queue_set_change::QueueSetChange;
use rd_queue::waiting_list::WaitingList;
use rd_state::editing::Editing;
use rd_state::objects::ObjectChange;
use rd_state::phase::Listed;
use rd_state::state::State;

/// Has the set that a queue is a member of, if it is one, no space for one handle more?
pub fn is_in_full_queue_set(state: &State, queue_set: Option<usize>) -> bool
    requires { IfSome queue_set (λ queue_set. queue_set < length state.now.objects.queue_sets) }
    ensures { result ≡ is_in_full_queue_set state.now queue_set }
{
    match queue_set {
        None => false,
        Some(queue_set) => state.queue_set(queue_set).spaces() == 0,
    }
}

/// Ends what has put an item into a queue: of a member the set gets a handle, and the first who
/// waits to select is woken; else the first who waits to receive. It needs no caller, only room in
/// the ready list where somebody waits there.
pub fn post(
    app: &Program,
    editing: &mut Editing,
    queue: usize,
    queue_set: Option<usize>,
) -> Result<Outcome, NoMemory>
    requires queue { queue < length editing.old.now.objects.queues }
    requires queue_set { IfSome queue_set
        (λ queue_set. queue_set < length editing.old.now.objects.queue_sets) }
    requires space { is_in_full_queue_set editing.old.now queue_set ≡ false }
    requires ready { 0 < length (waiting_at editing.old.now (list_posted_to queue queue_set))
        → ReadyHasRoom editing.old.now }
    requires priorities { length (priorities_of app.now) ≡ length editing.old.now.tasks }
    ensures ok { IfOk result (DoesCall editing.old editing.new
        (posted (priorities_of app.now) editing.old.now queue queue_set) (1 + waking_cost)) }
    ensures err { OnErr result (GivesUp editing.old editing.new (1 + waking_cost)) }
{
    let Some(queue_set) = queue_set else {
        let list = WaitingList::Receiving;
        return pass(editing, app.priorities(), Listed::Queue { queue, list });
    };
    let _ = editing.state().queue_set(queue_set);
    let change = QueueSetChange::PushHandle { queue };
    let change = ObjectChange::QueueSet { queue_set, change };
    editing.change_object(change)?;
    pass(editing, app.priorities(), Listed::QueueSet { queue_set })
}

//! The objects of a file, which its instructions name. A kind has its array, read value by value,
//! and a row or a field in what is said of all kinds.

ghost use Rattle.std.specs.Prelude.{◌≡◌, ◌≤◌, [], ◌++◌, length, nat_eq, IfOk};
ghost use Rattle.std.specs.List.{list_any};
ghost use Rattle.serde_json.specs.View.{view, items_view};
ghost use Rattle.rd_app.specs.Objects.{members_of, objects_view};
ghost use Rattle.rd_names.specs.Names.{lists_view};
ghost use Rattle.rd_script.specs.Named.{names_with, shapes_of};
ghost use Rattle.rd_script.specs.Objects.{array_view, drafts_view, file_keys, objects_of};
ghost use Rattle.rd_script.specs.Objects.{queue_of, queues_after};
ghost use Rattle.rd_script.specs.Objects.{member_of, members_after, queue_set_of, queue_sets_after};
ghost use Rattle.rd_script.specs.Objects.{message_of, messages_after, stream_of, streams_after};
ghost use Rattle.rd_script.specs.Objects.{group_of, groups_after};
ghost use Rattle.rd_script.specs.Values.{Gives, nothing_named};
ghost use Rattle.rd_text.specs.Words.{texts};

use crate::error::AppError;
use crate::reader::index_of;
use crate::values::{array_or_empty, field, new_name, number, object_with};
use arrayvec::ArrayVec;
use rd_app::both::both;
use rd_app::objects::{
    GroupShape, MAX_GROUPS, MAX_MESSAGE_BUFFERS, MAX_QUEUE_SETS, MAX_QUEUES, MAX_STREAMS,
    MessageShape, ObjectShapes, QueueSetShape, QueueShape, StreamShape,
};
use rd_names::names::NameLists;
use rd_queue::item::MAX_ITEM_SIZE;
use rd_queue::queue::MAX_ITEMS;
use rd_queue::queue_set::MAX_HANDLES;
use rd_stream::message_buf::{MAX_MESSAGE_BUFFER_SIZE, MIN_MESSAGE_BUFFER_SIZE};
use rd_stream::stream_buf::MAX_STREAM_SIZE;
use rd_text::words::is_name;
use serde_json::Value;
use std::alloc::{AllocError, Global};
use std::marker::Model;

/// The keys of a file, among them one for each kind of object.
pub(crate) const FILE_KEYS: [&str; 10] = [
    "profile", "cores", "notes", "tick", "queues", "sets", "streams", "messages", "groups", "tasks",
];

/// Things of one kind in a file, with their names, which lie in its value. They go by number: the
/// index in both.
#[derive(Drop)]
pub(crate) struct NamedArray<'a, T, const N: usize> {
    pub(crate) names: ArrayVec<&'a str, N>,
    pub(crate) things: ArrayVec<T, N>,
}

/// A queue set's room, and its members, each of them once.
#[derive(Default, Drop)]
pub(crate) struct QueueSetDraft {
    pub(crate) capacity: usize,
    pub(crate) members: ArrayVec<usize, MAX_QUEUES>,
}

impl Model for QueueSetDraft {
    ghost use Rattle.rd_app.specs.QueueSetShapeView.{QueueSetShapeView};

    ghost Value = { QueueSetShapeView };

    ghost view = { λ s. record { capacity = s.capacity; members = s.members.items } };
}

/// What the instructions of a file name, each kind in its order.
#[derive(Drop)]
pub(crate) struct ObjectDrafts<'a> {
    pub(crate) queues: NamedArray<'a, QueueShape, MAX_QUEUES>,
    pub(crate) queue_sets: NamedArray<'a, QueueSetDraft, MAX_QUEUE_SETS>,
    pub(crate) streams: NamedArray<'a, StreamShape, MAX_STREAMS>,
    pub(crate) messages: NamedArray<'a, MessageShape, MAX_MESSAGE_BUFFERS>,
    pub(crate) groups: NamedArray<'a, GroupShape, MAX_GROUPS>,
}

#[tactic(auto, unfolding(crate::specs::Objects::queue_of))]
fn read_queue<'a>(value: &'a Value, names: &[&str]) -> Result<(&'a str, QueueShape), AppError>
    ensures { Gives (λ queue. (queue.0.now, queue.1))
        result (queue_of (texts names.now) (view value.now)) }
{
    object_with(value, &["name", "length", "item"])?;
    let name = field(value, "name")?;
    let capacity = field(value, "length")?;
    let item_size = field(value, "item")?;
    let name = new_name(name, names)?;
    let capacity = number(capacity, 1, MAX_ITEMS as u64)? as usize;
    let item_size = number(item_size, 1, MAX_ITEM_SIZE as u64)? as usize;
    Ok((
        name,
        QueueShape {
            capacity,
            item_size,
        },
    ))
}

fn read_queues(values: &[Value]) -> Result<NamedArray<'_, QueueShape, MAX_QUEUES>, AppError>
    requires { length values.now ≤ MAX_QUEUES }
    ensures { Gives array_view result (queues_after nothing_named (items_view values.now)) }
{
    let mut names = ArrayVec::new();
    let mut things = ArrayVec::new();
    for value in values {
        let (name, shape) = read_queue(value, names.as_slice())?;
        names.push(name);
        things.push(shape);
    }
    Ok(NamedArray { names, things })
}

// Is the queue a member of one of these sets?
fn is_member(queue: usize, queue_sets: &[QueueSetDraft]) -> bool
    ensures { result
        ≡ list_any (λ queue_set. list_any (nat_eq queue) queue_set.members) queue_sets.now }
{
    queue_sets
        .iter()
        .any(|queue_set| queue_set.members.as_slice().contains(&queue))
}

// Is the queue a member of one of these sets, or one of these?
#[tactic(auto, using(crate::proofs::QueueSetLaws::taken_is))]
fn is_taken(queue: usize, queue_sets: &[QueueSetDraft], members: &[usize]) -> bool
    ensures { result ≡ list_any (nat_eq queue) (members_of queue_sets.now ++ members.now) }
{
    is_member(queue, queue_sets) || members.contains(&queue)
}

// The number of the queue of that name, which is no member of these sets, and none of these.
fn read_member(
    value: &Value,
    queues: &[&str],
    queue_sets: &[QueueSetDraft],
    members: &[usize],
) -> Result<usize, AppError>
    ensures { result
        ≡ member_of (texts queues.now) (members_of queue_sets.now ++ members.now) (view value.now) }
{
    let name = value.as_str().ok_or(AppError::Shape)?;
    if !is_name(name.as_bytes()) {
        return Err(AppError::Name);
    }
    let queue = index_of(name, queues)?;
    if is_taken(queue, queue_sets, members) {
        return Err(AppError::Name);
    }
    Ok(queue)
}

fn read_members(
    values: &[Value],
    queues: &[&str],
    queue_sets: &[QueueSetDraft],
) -> Result<ArrayVec<usize, MAX_QUEUES>, AppError>
    requires { length queues.now ≤ MAX_QUEUES }
    ensures { Gives (λ members. members.items) result
        (members_after (texts queues.now) (members_of queue_sets.now) [] (items_view values.now)) }
{
    let mut members = ArrayVec::new();
    for value in values {
        members.push(read_member(value, queues, queue_sets, members.as_slice())?);
    }
    Ok(members)
}

#[tactic(auto, unfolding(crate::specs::Objects::queue_set_of))]
fn read_queue_set<'a>(
    value: &'a Value,
    queues: &[&str],
    names: &[&str],
    queue_sets: &[QueueSetDraft],
) -> Result<(&'a str, QueueSetDraft), AppError>
    requires { length queues.now ≤ MAX_QUEUES }
    ensures { Gives (λ queue_set. (queue_set.0.now, queue_set.1))
        result (queue_set_of (texts queues.now)
        (record { names = texts names.now; things = queue_sets.now })
        (view value.now)) }
{
    object_with(value, &["name", "length", "members"])?;
    let name = field(value, "name")?;
    let capacity = field(value, "length")?;
    let members = field(value, "members")?;
    let name = new_name(name, names)?;
    let capacity = number(capacity, 1, MAX_HANDLES as u64)? as usize;
    let members = members.as_array().ok_or(AppError::Shape)?;
    let members = read_members(members.as_slice(), queues, queue_sets)?;
    Ok((name, QueueSetDraft { capacity, members }))
}

fn read_queue_sets<'a>(
    values: &'a [Value],
    queues: &[&str],
) -> Result<NamedArray<'a, QueueSetDraft, MAX_QUEUE_SETS>, AppError>
    requires queue_sets { length values.now ≤ MAX_QUEUE_SETS }
    requires queues { length queues.now ≤ MAX_QUEUES }
    ensures { Gives array_view
        result (queue_sets_after (texts queues.now) nothing_named (items_view values.now)) }
{
    let mut names = ArrayVec::new();
    let mut things = ArrayVec::new();
    for value in values {
        let (name, draft) = read_queue_set(value, queues, names.as_slice(), things.as_slice())?;
        names.push(name);
        things.push(draft);
    }
    Ok(NamedArray { names, things })
}

#[tactic(auto, unfolding(crate::specs::Objects::stream_of))]
fn read_stream<'a>(value: &'a Value, names: &[&str]) -> Result<(&'a str, StreamShape), AppError>
    ensures { Gives (λ stream. (stream.0.now, stream.1))
        result (stream_of (texts names.now) (view value.now)) }
{
    object_with(value, &["name", "size", "trigger"])?;
    let name = field(value, "name")?;
    let capacity = field(value, "size")?;
    let trigger = field(value, "trigger")?;
    let name = new_name(name, names)?;
    let capacity = number(capacity, 1, MAX_STREAM_SIZE as u64)? as usize;
    let trigger = number(trigger, 0, capacity as u64)? as usize;
    Ok((name, StreamShape { capacity, trigger }))
}

fn read_streams(values: &[Value]) -> Result<NamedArray<'_, StreamShape, MAX_STREAMS>, AppError>
    requires { length values.now ≤ MAX_STREAMS }
    ensures { Gives array_view result (streams_after nothing_named (items_view values.now)) }
{
    let mut names = ArrayVec::new();
    let mut things = ArrayVec::new();
    for value in values {
        let (name, shape) = read_stream(value, names.as_slice())?;
        names.push(name);
        things.push(shape);
    }
    Ok(NamedArray { names, things })
}

#[tactic(auto, unfolding(crate::specs::Objects::message_of))]
fn read_message<'a>(value: &'a Value, names: &[&str]) -> Result<(&'a str, MessageShape), AppError>
    ensures { Gives (λ buffer. (buffer.0.now, buffer.1))
        result (message_of (texts names.now) (view value.now)) }
{
    object_with(value, &["name", "size"])?;
    let name = field(value, "name")?;
    let capacity = field(value, "size")?;
    let name = new_name(name, names)?;
    let (least, most) = (MIN_MESSAGE_BUFFER_SIZE, MAX_MESSAGE_BUFFER_SIZE);
    let capacity = number(capacity, least as u64, most as u64)? as usize;
    Ok((name, MessageShape { capacity }))
}

fn read_messages(
    values: &[Value],
) -> Result<NamedArray<'_, MessageShape, MAX_MESSAGE_BUFFERS>, AppError>
    requires { length values.now ≤ MAX_MESSAGE_BUFFERS }
    ensures { Gives array_view result (messages_after nothing_named (items_view values.now)) }
{
    let mut names = ArrayVec::new();
    let mut things = ArrayVec::new();
    for value in values {
        let (name, shape) = read_message(value, names.as_slice())?;
        names.push(name);
        things.push(shape);
    }
    Ok(NamedArray { names, things })
}

#[tactic(auto, unfolding(crate::specs::Objects::group_of))]
fn read_group<'a>(value: &'a Value, names: &[&str]) -> Result<(&'a str, GroupShape), AppError>
    ensures { Gives (λ group. (group.0.now, group.1))
        result (group_of (texts names.now) (view value.now)) }
{
    object_with(value, &["name"])?;
    let name = field(value, "name")?;
    let name = new_name(name, names)?;
    Ok((name, GroupShape {}))
}

fn read_groups(values: &[Value]) -> Result<NamedArray<'_, GroupShape, MAX_GROUPS>, AppError>
    requires { length values.now ≤ MAX_GROUPS }
    ensures { Gives array_view result (groups_after nothing_named (items_view values.now)) }
{
    let mut names = ArrayVec::new();
    let mut things = ArrayVec::new();
    for value in values {
        let (name, shape) = read_group(value, names.as_slice())?;
        names.push(name);
        things.push(shape);
    }
    Ok(NamedArray { names, things })
}

/// The objects of a file, the queues before the sets, whose members they are.
pub(crate) fn read_objects(file: &Value) -> Result<ObjectDrafts<'_>, AppError>
    ensures { Gives drafts_view result (objects_of (view file.now)) }
{
    let queues = read_queues(array_or_empty(file.get("queues"), MAX_QUEUES)?)?;
    let queue_sets = array_or_empty(file.get("sets"), MAX_QUEUE_SETS)?;
    let queue_sets = read_queue_sets(queue_sets, queues.names.as_slice())?;
    let streams = read_streams(array_or_empty(file.get("streams"), MAX_STREAMS)?)?;
    let messages = read_messages(array_or_empty(file.get("messages"), MAX_MESSAGE_BUFFERS)?)?;
    let groups = read_groups(array_or_empty(file.get("groups"), MAX_GROUPS)?)?;
    Ok(ObjectDrafts {
        queues,
        queue_sets,
        streams,
        messages,
        groups,
    })
}

// The shapes of queue sets.
fn keep_shapes(alloc: Global, drafts: &[QueueSetDraft]) -> Result<Vec<QueueSetShape>, AllocError>
    ensures { IfOk result (λ queue_sets. queue_sets.items ≡ drafts.now) }
{
    let mut queue_sets = Vec::new(alloc);
    for draft in drafts {
        let draft: &QueueSetDraft = draft;
        let members = draft.members.as_slice().to_vec(alloc)?;
        queue_sets.push(QueueSetShape::new(draft.capacity, members))?;
    }
    Ok(queue_sets)
}

impl<T: Clone + Drop, const N: usize> NamedArray<'_, T, N> {
    // The same things, in memory of their own.
    fn keep(&self, alloc: Global) -> Result<Vec<T>, AllocError>
        ensures { IfOk result (λ things.
            ((x y : T) → T.is_clone x y → y ≡ x) → things.items ≡ self.now.things.items) }
    {
        self.things.as_slice().to_vec(alloc)
    }
}

impl ObjectDrafts<'_> {
    /// The names of the objects, with those of the tasks.
    pub(crate) fn lists<'b>(&'b self, tasks: &'b [&'b str]) -> NameLists<'b>
        ensures { lists_view result ≡ names_with (drafts_view self.now) (texts tasks.now) }
    {
        NameLists {
            queues: self.queues.names.as_slice(),
            queue_sets: self.queue_sets.names.as_slice(),
            streams: self.streams.names.as_slice(),
            messages: self.messages.names.as_slice(),
            groups: self.groups.names.as_slice(),
            tasks,
        }
    }
}

/// The shapes of the objects of drafts.
pub(crate) fn keep_objects(
    alloc: Global,
    drafts: &ObjectDrafts<'_>,
) -> Result<ObjectShapes, AllocError>
    ensures { IfOk result (λ objects.
        objects_view objects ≡ shapes_of (drafts_view drafts.now)) }
{
    let ObjectDrafts {
        queues,
        queue_sets,
        streams,
        messages,
        groups,
    } = drafts;
    let queue_sets = keep_shapes(alloc, queue_sets.things.as_slice());
    let ((queues, queue_sets), (streams, (messages, groups))) = both(
        both(queues.keep(alloc), queue_sets),
        both(
            streams.keep(alloc),
            both(messages.keep(alloc), groups.keep(alloc)),
        ),
    )?;
    Ok(ObjectShapes {
        queues,
        queue_sets,
        streams,
        messages,
        groups,
    })
}

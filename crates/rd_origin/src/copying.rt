//! What runs of an application, once more, for a timeline that keeps its own.

ghost use Rattle.std.specs.Prelude.{◌≡◌, IfOk};
ghost use Rattle.rd_app.specs.Inside.{application_of};
ghost use Rattle.rd_app.specs.Objects.{objects_view};

use rd_app::app::{Parts, Program, Script};
use rd_app::both::both;
use rd_app::instr::{Instr, LocalInstr};
use rd_app::objects::{ObjectShapes, QueueSetShape};
use rd_bytes::bytes::Bytes;
use std::alloc::{AllocError, Global};

// An equal queue set.
fn copy_of_set(alloc: Global, queue_set: &QueueSetShape) -> Result<QueueSetShape, AllocError>
    ensures { IfOk result (λ copy. copy ≡ queue_set.now) }
{
    let members = Vec::from_slice(alloc, queue_set.members())?;
    Ok(QueueSetShape::new(queue_set.capacity(), members))
}

// Equal queue sets.
fn copies_of_sets(
    alloc: Global,
    queue_sets: &[QueueSetShape],
) -> Result<Vec<QueueSetShape>, AllocError>
    ensures { IfOk result (λ copies. copies.items ≡ queue_sets.now) }
{
    let mut copies = Vec::with_capacity(alloc, queue_sets.len())?;
    for queue_set in queue_sets {
        copies.push_reserved(copy_of_set(alloc, queue_set)?);
    }
    Ok(copies)
}

// Equal objects.
fn copy_of_objects(alloc: Global, objects: &ObjectShapes) -> Result<ObjectShapes, AllocError>
    ensures { IfOk result (λ copy. objects_view copy ≡ objects_view objects.now) }
{
    let queues = both(
        Vec::from_slice(alloc, objects.queues()),
        copies_of_sets(alloc, objects.queue_sets()),
    );
    let buffers = both(
        Vec::from_slice(alloc, objects.streams()),
        Vec::from_slice(alloc, objects.messages()),
    );
    let groups = Vec::from_slice(alloc, objects.groups());
    let (queues, (buffers, groups)) = both(queues, both(buffers, groups))?;
    Ok(ObjectShapes {
        queues: queues.0,
        queue_sets: queues.1,
        streams: buffers.0,
        messages: buffers.1,
        groups,
    })
}

// An equal instruction.
fn copy_of_local(instr: &LocalInstr) -> LocalInstr
    ensures { result ≡ instr.now }
{
    match instr {
        LocalInstr::Set { register, value } => LocalInstr::Set {
            register: *register,
            value: *value,
        },
        LocalInstr::Add { register, value } => LocalInstr::Add {
            register: *register,
            value: *value,
        },
        LocalInstr::Move { into, from } => LocalInstr::Move {
            into: *into,
            from: *from,
        },
        LocalInstr::Data { bytes } => LocalInstr::Data {
            bytes: Bytes::from_slice(bytes.as_slice()),
        },
        LocalInstr::Pack { register } => LocalInstr::Pack {
            register: *register,
        },
        LocalInstr::Unpack { register } => LocalInstr::Unpack {
            register: *register,
        },
        LocalInstr::Jump { target } => LocalInstr::Jump { target: *target },
        LocalInstr::JumpZero { register, target } => LocalInstr::JumpZero {
            register: *register,
            target: *target,
        },
        LocalInstr::End => LocalInstr::End,
    }
}

// An equal instruction, of any kind.
fn copy_of_instr(instr: &Instr) -> Instr
    ensures { result ≡ instr.now }
{
    match instr {
        Instr::Local { instr } => Instr::Local {
            instr: copy_of_local(instr),
        },
        Instr::Queue { queue, call } => Instr::Queue {
            queue: *queue,
            call: *call,
        },
        Instr::QueueSet { queue_set, call } => Instr::QueueSet {
            queue_set: *queue_set,
            call: *call,
        },
        Instr::Stream { stream, call } => Instr::Stream {
            stream: *stream,
            call: *call,
        },
        Instr::Message { message, call } => Instr::Message {
            message: *message,
            call: *call,
        },
        Instr::Group { group, call } => Instr::Group {
            group: *group,
            call: *call,
        },
        Instr::Notify { call } => Instr::Notify { call: *call },
    }
}

// Equal instructions.
fn copies_of_code(alloc: Global, code: &[Instr]) -> Result<Vec<Instr>, AllocError>
    ensures { IfOk result (λ copies. copies.items ≡ code.now) }
{
    let mut copies = Vec::with_capacity(alloc, code.len())?;
    for instr in code {
        copies.push_reserved(copy_of_instr(instr));
    }
    Ok(copies)
}

// The scripts of an equal program.
fn copies_of_scripts(alloc: Global, program: &Program) -> Result<Vec<Script>, AllocError>
    ensures { IfOk result (λ copies. copies.items ≡ program.now.tasks) }
{
    let priorities = program.priorities();
    let count = priorities.len();
    let mut copies = Vec::with_capacity(alloc, count)?;
    for task in 0..count {
        let code = copies_of_code(alloc, program.code(task))?;
        copies.push_reserved(Script::new(priorities[task], code));
    }
    Ok(copies)
}

/// An equal program. An `Err` says that there is no memory for it.
pub(crate) fn copy_of(alloc: Global, program: &Program) -> Result<Program, AllocError>
    ensures { IfOk result (λ copy. copy ≡ program.now) }
{
    program.limits();
    let (objects, tasks) = both(
        copy_of_objects(alloc, program.objects()),
        copies_of_scripts(alloc, program),
    )?;
    let parts = Parts {
        profile: program.profile(),
        cores: program.cores(),
        entries: program.entries(),
        tick: program.tick(),
        objects,
        tasks,
    };
    Program::new(alloc, parts)
}

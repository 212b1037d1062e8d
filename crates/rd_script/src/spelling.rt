//! Reads an instruction from its words.

ghost use Rattle.std.specs.Prelude.{◌≡◌};
ghost use Rattle.rd_text.specs.Words.{words_of};
ghost use Rattle.rd_script.specs.Keywords.{local_row, notify_row, queue_row, row_of};
ghost use Rattle.rd_script.specs.Keywords.{group_row, message_row, queue_set_row, stream_row};
ghost use Rattle.rd_script.specs.Objects.{drafts_view};
ghost use Rattle.rd_script.specs.Draft.{scope_view};
ghost use Rattle.rd_script.specs.Spelling.{instr_made, is_call_for, is_for_queue, instr_of};

use crate::error::AppError;
use crate::keyword::{
    GroupKeyword, Keyword, LocalKeyword, MessageKeyword, NotifyKeyword, QueueKeyword,
    QueueSetKeyword, StreamKeyword, keyword_of,
};
use crate::objects::ObjectDrafts;
use crate::reader::Reader;
use crate::scope::Scope;
use rd_app::instr::{
    GroupCall, Instr, LocalInstr, MessageCall, NotifyCall, QueueCall, QueueSetCall, StreamCall,
};
use rd_app::objects::QueueShape;
use rd_queue::end::End;
use rd_text::kind::Kind;
use rd_text::words::Words;

// An instruction that touches nothing but its own task, of the words after its keyword.
fn local_instr(keyword: LocalKeyword, reader: &mut Reader<'_>) -> Option<Instr>
    ensures { result ≡ instr_made (local_row keyword) reader.old }
{
    let instr = match keyword {
        LocalKeyword::Set => LocalInstr::Set {
            register: reader.register()?,
            value: reader.number()?,
        },
        LocalKeyword::Add => LocalInstr::Add {
            register: reader.register()?,
            value: reader.number()?,
        },
        LocalKeyword::Move => LocalInstr::Move {
            into: reader.register()?,
            from: reader.register()?,
        },
        LocalKeyword::Data => LocalInstr::Data {
            bytes: reader.data()?,
        },
        LocalKeyword::Pack => LocalInstr::Pack {
            register: reader.register()?,
        },
        LocalKeyword::Unpack => LocalInstr::Unpack {
            register: reader.register()?,
        },
        LocalKeyword::Jump => LocalInstr::Jump {
            target: reader.target()?,
        },
        LocalKeyword::JumpZero => LocalInstr::JumpZero {
            register: reader.register()?,
            target: reader.target()?,
        },
        LocalKeyword::End => LocalInstr::End,
    };
    Some(Instr::Local { instr })
}

// A call of a queue, of the words after its keyword.
fn queue_instr(keyword: QueueKeyword, reader: &mut Reader<'_>) -> Option<Instr>
    ensures { result ≡ instr_made (queue_row keyword) reader.old }
{
    let queue = reader.named(Kind::Queue)?;
    let call = match keyword {
        QueueKeyword::Send => QueueCall::Send {
            end: End::Back,
            wait: reader.time()?,
        },
        QueueKeyword::Front => QueueCall::Send {
            end: End::Front,
            wait: reader.time()?,
        },
        QueueKeyword::Receive => QueueCall::Receive {
            wait: reader.time()?,
        },
        QueueKeyword::Peek => QueueCall::Peek {
            wait: reader.time()?,
        },
        QueueKeyword::Overwrite => QueueCall::Overwrite,
        QueueKeyword::Reset => QueueCall::Reset,
        QueueKeyword::Count => QueueCall::Count,
        QueueKeyword::Spaces => QueueCall::Spaces,
        QueueKeyword::AddToSet => QueueCall::AddToSet {
            queue_set: reader.named(Kind::QueueSet)?,
        },
        QueueKeyword::RemoveFromSet => QueueCall::RemoveFromSet {
            queue_set: reader.named(Kind::QueueSet)?,
        },
    };
    Some(Instr::Queue { queue, call })
}

// A call of a queue set, of the words after its keyword.
fn queue_set_instr(keyword: QueueSetKeyword, reader: &mut Reader<'_>) -> Option<Instr>
    ensures { result ≡ instr_made (queue_set_row keyword) reader.old }
{
    let queue_set = reader.named(Kind::QueueSet)?;
    let call = match keyword {
        QueueSetKeyword::Select => QueueSetCall::Select {
            wait: reader.time()?,
        },
    };
    Some(Instr::QueueSet { queue_set, call })
}

// A call of a stream buffer, of the words after its keyword.
fn stream_instr(keyword: StreamKeyword, reader: &mut Reader<'_>) -> Option<Instr>
    ensures { result ≡ instr_made (stream_row keyword) reader.old }
{
    let stream = reader.named(Kind::Stream)?;
    let call = match keyword {
        StreamKeyword::Write => StreamCall::Write {
            wait: reader.time()?,
        },
        StreamKeyword::Read => StreamCall::Read {
            room: reader.room()?,
            wait: reader.time()?,
        },
        StreamKeyword::Reset => StreamCall::Reset,
        StreamKeyword::SetTrigger => StreamCall::SetTrigger {
            trigger: reader.operand()?,
        },
        StreamKeyword::Count => StreamCall::Count,
        StreamKeyword::Spaces => StreamCall::Spaces,
    };
    Some(Instr::Stream { stream, call })
}

// A call of a message buffer, of the words after its keyword.
fn message_instr(keyword: MessageKeyword, reader: &mut Reader<'_>) -> Option<Instr>
    ensures { result ≡ instr_made (message_row keyword) reader.old }
{
    let message = reader.named(Kind::Message)?;
    let call = match keyword {
        MessageKeyword::Write => MessageCall::Write {
            wait: reader.time()?,
        },
        MessageKeyword::Read => MessageCall::Read {
            room: reader.room()?,
            wait: reader.time()?,
        },
        MessageKeyword::Reset => MessageCall::Reset,
        MessageKeyword::Spaces => MessageCall::Spaces,
        MessageKeyword::NextLength => MessageCall::NextLength,
    };
    Some(Instr::Message { message, call })
}

// A call of an event group, of the words after its keyword.
fn group_instr(keyword: GroupKeyword, reader: &mut Reader<'_>) -> Option<Instr>
    ensures { result ≡ instr_made (group_row keyword) reader.old }
{
    let group = reader.named(Kind::Group)?;
    let call = match keyword {
        GroupKeyword::Set => GroupCall::Set {
            bits: reader.operand()?,
        },
        GroupKeyword::Clear => GroupCall::Clear {
            bits: reader.operand()?,
        },
        GroupKeyword::Get => GroupCall::Get,
        GroupKeyword::Wait => GroupCall::Wait {
            bits: reader.operand()?,
            wait_for: reader.wait_for()?,
            on_met: reader.on_met()?,
            wait: reader.time()?,
        },
        GroupKeyword::Sync => GroupCall::Sync {
            set: reader.operand()?,
            bits: reader.operand()?,
            wait: reader.time()?,
        },
    };
    Some(Instr::Group { group, call })
}

// A call that notifies a task, or looks at an entry, of the words after its keyword.
fn notify_instr(keyword: NotifyKeyword, reader: &mut Reader<'_>) -> Option<Instr>
    ensures { result ≡ instr_made (notify_row keyword) reader.old }
{
    let call = match keyword {
        NotifyKeyword::Notify => NotifyCall::Notify {
            task: reader.named(Kind::Task)?,
            index: reader.index()?,
            value: reader.operand()?,
            action: reader.action()?,
        },
        NotifyKeyword::Query => NotifyCall::Query {
            task: reader.named(Kind::Task)?,
            index: reader.index()?,
            value: reader.operand()?,
            action: reader.action()?,
        },
        NotifyKeyword::Take => NotifyCall::Take {
            index: reader.index()?,
            exit: reader.on_exit()?,
            wait: reader.time()?,
        },
        NotifyKeyword::Wait => NotifyCall::Wait {
            index: reader.index()?,
            entry_bits: reader.operand()?,
            exit_bits: reader.operand()?,
            wait: reader.time()?,
        },
        NotifyKeyword::ClearState => NotifyCall::ClearState {
            task: reader.named(Kind::Task)?,
            index: reader.index()?,
        },
        NotifyKeyword::ClearValue => NotifyCall::ClearValue {
            task: reader.named(Kind::Task)?,
            index: reader.index()?,
            bits: reader.operand()?,
        },
    };
    Some(Instr::Notify { call })
}

// The instruction of a keyword and the words after it, if each stands for something.
fn instr_made(keyword: Keyword, reader: &mut Reader<'_>) -> Option<Instr>
    ensures { result ≡ instr_made (row_of keyword) reader.old }
{
    match keyword {
        Keyword::Local(keyword) => local_instr(keyword, reader),
        Keyword::Queue(keyword) => queue_instr(keyword, reader),
        Keyword::QueueSet(keyword) => queue_set_instr(keyword, reader),
        Keyword::Stream(keyword) => stream_instr(keyword, reader),
        Keyword::Message(keyword) => message_instr(keyword, reader),
        Keyword::Group(keyword) => group_instr(keyword, reader),
        Keyword::Notify(keyword) => notify_instr(keyword, reader),
    }
}

// Is the call one for a queue of that shape? Only a queue with room for one item is overwritten.
fn is_call_for(shape: &QueueShape, call: &QueueCall) -> bool
    ensures { result ≡ is_call_for shape.now call.now }
{
    match call {
        QueueCall::Overwrite => shape.capacity == 1,
        QueueCall::Send { .. }
        | QueueCall::Receive { .. }
        | QueueCall::Peek { .. }
        | QueueCall::Reset
        | QueueCall::Count
        | QueueCall::Spaces
        | QueueCall::AddToSet { .. }
        | QueueCall::RemoveFromSet { .. } => true,
    }
}

// The same of an instruction, over these objects: any but a call of a queue is.
fn is_for_queue(instr: &Instr, objects: &ObjectDrafts<'_>) -> bool
    ensures { result ≡ is_for_queue (drafts_view objects.now) instr.now }
{
    let Some((queue, call)) = instr.queue_call() else {
        return true;
    };
    let shape = objects.queues.things.get(queue).copied();
    is_call_for(&shape.unwrap_or_default(), &call)
}

/// The instruction of a text, in that scope, in a script of that length. A fault in the form of a
/// word comes before a name that nothing has, and that before a queue that the call is not for.
#[tactic(auto, unfolding(crate::specs::Spelling::instr_of))]
pub(crate) fn read_instr(text: &[u8], scope: Scope<'_>, len: usize) -> Result<Instr, AppError>
    ensures { result ≡ instr_of (scope_view scope.entry) len (words_of text.now) }
{
    let mut words = Words::new(text);
    let word = words.next().ok_or(AppError::Instr)?;
    let (parameters, keyword) = keyword_of(word).ok_or(AppError::Instr)?;
    let mut reader = Reader::new(scope, len, words);
    if !reader.are_formed(parameters) {
        return Err(AppError::Instr);
    }
    let instr = instr_made(keyword, &mut reader).ok_or(AppError::Name)?;
    if is_for_queue(&instr, scope.objects) {
        Ok(instr)
    } else {
        Err(AppError::OverwriteLength)
    }
}

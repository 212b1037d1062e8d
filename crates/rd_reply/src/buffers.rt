//! The views of stream buffers and of message buffers, and what their places are called.
#![tactic(auto, using(crate::proofs::PageLaws::appends_then))]

ghost use Rattle.std.specs.Prelude.{◌≡◌, ◌++◌, ◌≤◌, length, OnErr, OnOk};
ghost use Rattle.hex.specs.Hex.{encode_lower};
ghost use Rattle.rd_state.specs.Waiting.{IsHeld};
ghost use Rattle.rd_reply.specs.Names.{numbers_named};
ghost use Rattle.rd_reply.specs.Names.{HoldersAreNamed, IsNamedOrNone};
ghost use Rattle.rd_reply.specs.Pages.{Appends, PageFrontStays, LacksRoom};
ghost use Rattle.rd_reply.specs.Replies.{bytes_text, holders_text, line_of, list_text};
ghost use Rattle.rd_reply.specs.Replies.{held_text, message_side_name, stream_side_name};
ghost use Rattle.rd_reply.specs.Replies.{message_contents_text, message_text};
ghost use Rattle.rd_reply.specs.Replies.{stream_contents_text, stream_text};

use crate::page::Page;
use crate::parts::{
    Appended, append_comma, append_counts, append_name, append_name_or_dash, append_number,
};
use rd_names::names::Names;
use rd_state::phase::Held;
use rd_stream::message_buf::{MessageBuf, limits_of_messages};
use rd_stream::side::Side;
use rd_stream::stream_buf::{StreamBuf, limit_of_streams};
use rd_text::kind::Kind;

// What the place at a side of a stream buffer is called.
fn stream_side_name(side: Side) -> &'static str
    ensures { result.now ≡ stream_side_name side }
{
    match side {
        Side::Reader => "sread",
        Side::Writer => "swrite",
    }
}

// What the place at a side of a message buffer is called.
fn message_side_name(side: Side) -> &'static str
    ensures { result.now ≡ message_side_name side }
{
    match side {
        Side::Reader => "mread",
        Side::Writer => "mwrite",
    }
}

// The place of a buffer, at which a task waits.
pub(crate) fn append_held(page: &mut Page<'_>, names: &Names, held: Held)
    requires { IsHeld (numbers_named names.now) held }
    ensures { Appends page.old page.new (held_text names.now held) }
{
    match held {
        Held::Stream { stream, side } => {
            page.append(stream_side_name(side));
            page.append(":");
            append_name(page, names, Kind::Stream, stream);
        }
        Held::Message { message, side } => {
            page.append(message_side_name(side));
            page.append(":");
            append_name(page, names, Kind::Message, message);
        }
    }
}

// How many bytes a buffer has room for at the most, of either kind.
const MAX_PIECE: usize = 1024;

// Two digits a byte.
fn append_digits(page: &mut Page<'_>, bytes: &[u8])
    requires { length bytes.now ≤ MAX_PIECE }
    ensures { Appends page.old page.new (encode_lower bytes.now) }
{
    let mut digits = [0; 2 * MAX_PIECE];
    let digits = &mut digits[..2 * bytes.len()];
    hex::encode_to_slice(bytes, digits).unwrap();
    page.append_raw(digits);
}

// Bytes in two pieces that follow one another, two digits a byte; `-` for none.
fn append_pieces(page: &mut Page<'_>, front: &[u8], back: &[u8])
    requires front { length front.now ≤ MAX_PIECE }
    requires back { length back.now ≤ MAX_PIECE }
    ensures { Appends page.old page.new (bytes_text (front.now ++ back.now)) }
{
    if front.is_empty() && back.is_empty() {
        return page.append("-");
    }
    append_digits(page, front);
    append_digits(page, back);
}

// Whom the places of a buffer name.
fn append_holders(page: &mut Page<'_>, names: &Names, reader: Option<usize>, writer: Option<usize>)
    requires reader { IsNamedOrNone names.now.tasks reader }
    requires writer { IsNamedOrNone names.now.tasks writer }
    ensures { Appends page.old page.new (holders_text names.now reader writer) }
{
    page.append(" reader ");
    append_name_or_dash(page, names, Kind::Task, reader);
    page.append(" writer ");
    append_name_or_dash(page, names, Kind::Task, writer);
}

/// Appends the view of a stream buffer. An `Err` says that there is no memory for it, and comes
/// only where the page has no room for it; the page may then have some part of it after what it
/// had.
pub fn show_stream(page: &mut Vec<u8>, names: &Names, name: &str, stream: &StreamBuf) -> Appended
    requires { HoldersAreNamed names.now stream.now.holders }
    ensures text { OnOk result (page.new.items
        ≡ page.old.items ++ line_of (stream_text names.now name.now stream.now)) }
    ensures full { OnErr result
        (LacksRoom page.old (line_of (stream_text names.now name.now stream.now))) }
    ensures front { PageFrontStays page.old page.new }
{
    let mut line = Page::new(page);
    append_stream(&mut line, names, name, stream);
    line.end()
}

// The line of a stream buffer.
fn append_stream(page: &mut Page<'_>, names: &Names, name: &str, stream: &StreamBuf)
    requires { HoldersAreNamed names.now stream.now.holders }
    ensures { Appends page.old page.new (line_of (stream_text names.now name.now stream.now)) }
{
    page.append("stream ");
    page.append(name);
    page.append(" ");
    append_stream_contents(page, stream);
    append_holders(page, names, stream.reader(), stream.writer());
    page.append("\n");
}

// What is in a stream buffer, with its trigger level.
fn append_stream_contents(page: &mut Page<'_>, stream: &StreamBuf)
    ensures { Appends page.old page.new (stream_contents_text stream.now) }
{
    append_counts(page, stream.len(), stream.capacity());
    page.append(" trigger ");
    append_number(page, stream.trigger());
    page.append(" bytes ");
    append_stream_bytes(page, stream);
}

// The bytes in a stream buffer.
fn append_stream_bytes(page: &mut Page<'_>, stream: &StreamBuf)
    ensures { Appends page.old page.new (bytes_text stream.now.bytes) }
{
    limit_of_streams();
    stream.sizes();
    let (front, back) = stream.bytes();
    append_pieces(page, front, back);
}

/// Appends the view of a message buffer. An `Err` says that there is no memory for it, and comes
/// only where the page has no room for it; the page may then have some part of it after what it
/// had.
pub fn show_message(page: &mut Vec<u8>, names: &Names, name: &str, buffer: &MessageBuf) -> Appended
    requires { HoldersAreNamed names.now buffer.now.holders }
    ensures text { OnOk result (page.new.items
        ≡ page.old.items ++ line_of (message_text names.now name.now buffer.now)) }
    ensures full { OnErr result
        (LacksRoom page.old (line_of (message_text names.now name.now buffer.now))) }
    ensures front { PageFrontStays page.old page.new }
{
    let mut line = Page::new(page);
    append_message_buffer(&mut line, names, name, buffer);
    line.end()
}

// The line of a message buffer.
fn append_message_buffer(page: &mut Page<'_>, names: &Names, name: &str, buffer: &MessageBuf)
    requires { HoldersAreNamed names.now buffer.now.holders }
    ensures { Appends page.old page.new (line_of (message_text names.now name.now buffer.now)) }
{
    page.append("message ");
    page.append(name);
    page.append(" ");
    append_message_contents(page, buffer);
    append_holders(page, names, buffer.reader(), buffer.writer());
    page.append("\n");
}

// What is in a message buffer.
fn append_message_contents(page: &mut Page<'_>, buffer: &MessageBuf)
    ensures { Appends page.old page.new (message_contents_text buffer.now) }
{
    append_counts(page, buffer.held(), buffer.capacity());
    page.append(" messages ");
    append_messages(page, buffer);
}

// The messages in a message buffer.
fn append_messages(page: &mut Page<'_>, buffer: &MessageBuf)
    ensures { Appends page.old page.new (list_text bytes_text buffer.now.messages) }
{
    limits_of_messages();
    if buffer.count() == 0 {
        return page.append("-");
    }
    for index in 0..buffer.count() {
        append_comma(page, index);
        let (front, back) = buffer.message(index);
        append_pieces(page, front, back);
    }
}

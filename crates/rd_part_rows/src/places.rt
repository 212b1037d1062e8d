//! The places of buffers, each for one task that waits there: its reader's and its writer's.

use crate::asserts::assert_same;
use rd_stream::message_buf::MessageBuf;
use rd_stream::side::Side;
use rd_stream::stream_buf::StreamBuf;
use std::test::Fail;

#[test]
fn places_of_a_stream(rt: HostRuntime) -> Result<(), Fail> {
    let mut stream = StreamBuf::new(rt.alloc(), 4, 1, 3)?;
    stream.set_holder(Side::Reader, Some(2));
    assert_same(&rt, (stream.reader(), stream.writer()), (Some(2), None));
    stream.set_holder(Side::Writer, Some(1));
    assert_same(&rt, (stream.reader(), stream.writer()), (Some(2), Some(1)));
    stream.set_holder(Side::Reader, None);
    assert_same(&rt, (stream.reader(), stream.writer()), (None, Some(1)));
    Ok(())
}

#[test]
fn places_of_a_message_buffer(rt: HostRuntime) -> Result<(), Fail> {
    let mut buffer = MessageBuf::new(rt.alloc(), 8, 3)?;
    buffer.set_holder(Side::Writer, Some(0));
    assert_same(&rt, (buffer.reader(), buffer.writer()), (None, Some(0)));
    buffer.set_holder(Side::Reader, Some(2));
    assert_same(&rt, (buffer.reader(), buffer.writer()), (Some(2), Some(0)));
    buffer.set_holder(Side::Writer, None);
    assert_same(&rt, (buffer.reader(), buffer.writer()), (Some(2), None));
    Ok(())
}

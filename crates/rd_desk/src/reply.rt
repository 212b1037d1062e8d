//! What is replied to an event.

ghost use Rattle.std.specs.Prelude.{◌≡◌, IfOk};

use crate::text::Text;
use rd_bytes::no_memory::NoMemory;
use rd_reply::reply::Reply as Short;
use std::alloc::Global;

/// What is replied to an event.
#[derive(Drop)]
pub enum DeskReply {
    /// To a session that enters or leaves. No line is written for it.
    Done,
    /// In a few words.
    Told { told: Short },
    /// A view, by its line. Nothing has changed.
    Shown { text: Text },
}

impl DeskReply {
    /// An equal reply. An `Err` says that there is no memory for the text of a view.
    pub fn copy(&self, alloc: Global) -> Result<DeskReply, NoMemory>
        ensures { IfOk result (λ reply. reply ≡ self.now) }
    {
        match self {
            DeskReply::Done => Ok(DeskReply::Done),
            DeskReply::Told { told } => Ok(DeskReply::Told { told: *told }),
            DeskReply::Shown { text } => Ok(DeskReply::Shown {
                text: text.copy(alloc)?,
            }),
        }
    }
}

//! What the instructions of a file can name.

ghost use Rattle.std.specs.Prelude.{◌≡◌};
ghost use Rattle.rd_script.specs.Named.{names_in};
ghost use Rattle.rd_script.specs.Objects.{drafts_view};
ghost use Rattle.rd_text.specs.Words.{texts};

use crate::objects::ObjectDrafts;
use rd_text::kind::Kind;

/// What the instructions of a file can name: its objects and its tasks, and of each task so many
/// notification entries.
#[derive(Clone, Copy)]
pub(crate) struct Scope<'a> {
    pub(crate) objects: &'a ObjectDrafts<'a>,
    pub(crate) tasks: &'a [&'a str],
    pub(crate) entries: usize,
}

impl<'a> Scope<'a> {
    /// The names of a kind.
    pub(crate) fn names(self, kind: Kind) -> &'a [&'a str]
        ensures { texts result.now
            ≡ names_in (drafts_view self.entry.objects.now) (texts self.entry.tasks.now) kind }
    {
        match kind {
            Kind::Queue => self.objects.queues.names.as_slice(),
            Kind::QueueSet => self.objects.queue_sets.names.as_slice(),
            Kind::Stream => self.objects.streams.names.as_slice(),
            Kind::Message => self.objects.messages.names.as_slice(),
            Kind::Group => self.objects.groups.names.as_slice(),
            Kind::Task => self.tasks,
        }
    }
}

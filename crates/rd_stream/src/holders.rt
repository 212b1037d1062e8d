//! The two places of a buffer, each for one task.

ghost use Rattle.std.specs.Prelude.{◌≡◌, ◌↔◌, ◌<◌, IfSome, IsTrue};
ghost use Rattle.rd_stream.specs.Holders.{holder_of, no_holders, with_holder_of, IsSizedHolders};

use crate::side::Side;
use std::marker::Model;

/// Whom the reader's place of a buffer names, and the writer's. A place that names a task goes on
/// doing so after the task was woken, until it tries its call again.
#[derive(Drop)]
pub struct Holders {
    reader: Option<usize>,
    writer: Option<usize>,
    task_count: usize,
}

impl Model for Holders {
    ghost use Rattle.std.specs.Prelude.{◌<◌, IfSome};
    ghost use Rattle.rd_stream.specs.Holders.{HoldersView};

    ghost Value = { HoldersView };

    ghost view = { λ h. record {
      reader = h.reader;
      writer = h.writer;
      task_count = h.task_count;
    } };

    // Whoever is named is a task.
    ghost invariant = { λ h. IfSome h.reader (λ task. task < h.task_count)
        × IfSome h.writer (λ task. task < h.task_count) };
}

impl Holders {
    /// Two places that name nobody, for `task_count` tasks.
    pub fn new(task_count: usize) -> Holders
        ensures { result ≡ no_holders task_count }
    {
        Holders {
            reader: None,
            writer: None,
            task_count,
        }
    }

    /// Equal places.
    pub fn copy(&self) -> Holders
        ensures { result ≡ self.now }
    {
        Holders {
            reader: self.reader,
            writer: self.writer,
            task_count: self.task_count,
        }
    }

    /// Whether the other places name the same tasks, of as many.
    pub fn same(&self, other: &Holders) -> bool
        ensures { IsTrue result ↔ (self.now ≡ other.now) }
    {
        self.reader == other.reader
            && self.writer == other.writer
            && self.task_count == other.task_count
    }

    /// For contracts alone: the sizes that the places of every buffer keep.
    pub fn sizes(&self)
        ensures { IsSizedHolders self.now }
    {
        let _ = &self.task_count;
    }

    /// Whom the place at a side names, if anybody.
    pub fn get(&self, side: Side) -> Option<usize>
        ensures holder { result ≡ holder_of side self.now }
        ensures task { IfSome result (λ task. task < self.now.task_count) }
    {
        match side {
            Side::Reader => self.reader,
            Side::Writer => self.writer,
        }
    }

    /// Has the place at a side name this task, or nobody.
    pub fn set(&mut self, side: Side, task: Option<usize>)
        requires { IfSome task (λ t. t < self.old.task_count) }
        ensures { self.new ≡ with_holder_of side task self.old }
    {
        match side {
            Side::Reader => self.reader = task,
            Side::Writer => self.writer = task,
        }
    }
}

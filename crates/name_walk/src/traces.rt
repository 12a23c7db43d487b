//! The state of a walk: marks, the path, and the order of the closed names.

ghost use Rattle.std.specs.Prelude.{◌≡◌, ◌+◌, ◌^◌, ◌<◌, [], length, slice_get, Some, MatchOption, OnOk, OnErr};
ghost use Rattle.name_walk.specs.Traces.{AreWalkNamesEntered, no_walk_traces, walk_trace_with_names};
ghost use Rattle.name_walk.specs.Traces.{walk_trace_with_entered, walk_trace_with_closed, walk_trace_with_frame};
ghost use Rattle.name_walk.specs.Traces.{IsClearedWalk, walk_trace_without_order};

use crate::mark::Mark;
use std::alloc::{AllocError, Global};
use std::marker::Model;

// A name on the path, and the place of the step by which the path goes on.
#[derive(Clone, Copy, Drop)]
pub(crate) struct Frame {
    pub(crate) name: usize,
    pub(crate) place: usize,
}

impl Frame {
    // Returns a frame for `name` at its first step.
    pub(crate) fn first(name: usize) -> Frame
        ensures { result ≡ record { name = name; place = 0 } }
    {
        Frame { name, place: 0 }
    }

    // Returns a frame for the same name at the next step.
    pub(crate) fn next(self) -> Frame
        requires { self.place + 1 < 2 ^ 64 }
        ensures { result ≡ record { name = self.name; place = self.place + 1 } }
    {
        Frame {
            place: self.place + 1,
            ..self
        }
    }
}

// The mark of each name; the names that were entered, whose marks `clean` resets; the names that were closed, in
// order; and the path above the current name.
#[derive(Drop)]
pub(crate) struct Traces {
    marks: Vec<Mark>,
    entered: Vec<usize>,
    order: Vec<usize>,
    frames: Vec<Frame>,
}

impl Model for Traces {
    ghost use Rattle.name_walk.specs.Traces.{WalkTrace};

    ghost Value = { WalkTrace };

    ghost view = { λ t. record {
      marks = t.marks.items;
      entered_names = t.entered.items;
      order = t.order.items;
      frames = t.frames.items;
    } };
}

impl Traces {
    // Returns traces of no names. They allocate no memory.
    pub(crate) fn new(alloc: Global) -> Traces
        ensures { result ≡ no_walk_traces }
    {
        Traces {
            marks: Vec::new(alloc),
            entered: Vec::new(alloc),
            order: Vec::new(alloc),
            frames: Vec::new(alloc),
        }
    }

    // Makes room for the marks of exactly `names` names. New names are open. On an error nothing changes.
    pub(crate) fn cover(&mut self, names: usize) -> Result<(), AllocError>
        ensures ok { OnOk result (self.new ≡ walk_trace_with_names names self.old) }
        ensures err { OnErr result (self.new ≡ self.old) }
    {
        self.marks.resize(names, Mark::Open)
    }

    // Returns the mark of a name.
    pub(crate) fn mark(&self, name: usize) -> Mark
        requires { name < length self.now.marks }
        ensures { slice_get self.now.marks name ≡ Some result }
    {
        self.marks[name]
    }

    // Returns the names that were closed, in order.
    pub(crate) fn order(&self) -> &[usize]
        ensures { result.now ≡ self.now.order }
    {
        &self.order
    }

    // Returns the names that were entered. All names with a mark other than open are among them.
    pub(crate) fn entered_names(&self) -> &[usize]
        ensures { result.now ≡ self.now.entered_names }
    {
        &self.entered
    }

    // Returns the number of names that have a mark, including open names.
    pub(crate) fn len(&self) -> usize
        ensures { result ≡ length self.now.marks }
    {
        self.marks.len()
    }

    // Returns the path above the current name, outermost first.
    pub(crate) fn frames(&self) -> &[Frame]
        ensures { result.now ≡ self.now.frames }
    {
        &self.frames
    }

    // Marks a name as on the path. On an error nothing changes.
    pub(crate) fn enter(&mut self, name: usize) -> Result<(), AllocError>
        requires { name < length self.old.marks }
        ensures ok { OnOk result (self.new ≡ walk_trace_with_entered self.old name) }
        ensures err { OnErr result (self.new ≡ self.old) }
    {
        self.entered.push(name)?;
        self.marks[name] = Mark::OnPath;
        Ok(())
    }

    // Closes a name. On an error nothing changes.
    pub(crate) fn close(&mut self, name: usize) -> Result<(), AllocError>
        requires { name < length self.old.marks }
        ensures ok { OnOk result (self.new ≡ walk_trace_with_closed self.old name) }
        ensures err { OnErr result (self.new ≡ self.old) }
    {
        self.order.push(name)?;
        self.marks[name] = Mark::Closed;
        Ok(())
    }

    // Goes down one name: `frame` becomes the last frame above the current name. On an error nothing changes.
    pub(crate) fn push(&mut self, frame: Frame) -> Result<(), AllocError>
        ensures ok { OnOk result (self.new ≡ walk_trace_with_frame self.old frame) }
        ensures err { OnErr result (self.new ≡ self.old) }
    {
        self.frames.push(frame)?;
        Ok(())
    }

    // Goes up one name, and returns its frame, or `None` at the top.
    pub(crate) fn pop(&mut self) -> Option<Frame>
        ensures { MatchOption result ((self.new ≡ self.old) × (self.old.frames ≡ []))
            (λ frame. self.old ≡ walk_trace_with_frame self.new frame) }
    {
        self.frames.pop()
    }

    // Forgets the order of the previous walk.
    pub(crate) fn forget_order(&mut self)
        ensures { self.new ≡ walk_trace_without_order self.old }
    {
        self.order.clear();
    }

    // Resets the marks and the path. The cost is proportional to the number of entered names. The memory of the entered
    // names and of the path is freed: a long walk is rare, and the work after it needs memory of its own.
    pub(crate) fn clean(&mut self, alloc: Global)
        requires { AreWalkNamesEntered self.old.marks self.old.entered_names }
        ensures { IsClearedWalk self.old self.new }
    {
        while let Some(name) = self.entered.pop() {
            self.marks[name] = Mark::Open;
        }
        self.entered = Vec::new(alloc);
        self.frames = Vec::new(alloc);
    }
}

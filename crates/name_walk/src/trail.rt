//! The ways from names to their faults.

ghost use Rattle.std.specs.Prelude.{◌≡◌, ◌<◌, length, ℕ, slice_get, nat_eq, Contains};
ghost use Rattle.std.specs.List.{IsDistinct};
ghost use Rattle.name_walk.specs.PathRecords.{ArePathFaultsNoted, path_end_for, path_ending_above};
ghost use Rattle.name_walk.specs.Traces.{path_of_frames, walk_trace_without_frames};

use crate::step::Step;
use crate::traces::Traces;

// What is known about a name with a fault: the first of its steps that has a fault, and the name at which the fault
// occurs. That is the name with a word that leads nowhere, or else the first name of the ring to which the steps lead.
#[derive(Clone, Copy, Drop)]
pub(crate) struct FaultyStep {
    pub(crate) step: Step,
    pub(crate) end: usize,
}

// How the names of a path come to a fault.
#[derive(Clone, Copy, Drop)]
pub(crate) enum Ending {
    // The fault of each name on the path occurs at this name.
    At(usize),
    // The path leads back to this name. Each name from there on is in the ring, and its fault begins with itself.
    Ring(usize),
}

impl Ending {
    // Returns the name at which the fault of `name` occurs, if `name` is the last name of the path.
    fn end(self, name: usize) -> usize
        ensures { result ≡ path_end_for self name }
    {
        match self {
            Ending::At(end) => end,
            Ending::Ring(_) => name,
        }
    }

    // Returns how the names above `name` come to the fault.
    fn above(self, name: usize) -> Ending
        ensures { result ≡ path_ending_above self name }
    {
        match self {
            Ending::At(end) => Ending::At(end),
            Ending::Ring(first) => {
                if name == first {
                    return Ending::At(first);
                }
                Ending::Ring(first)
            }
        }
    }
}

// Records how each name on the path leads to the fault: the last name by `last_step`, each other name by its step to
// the next. Afterwards the path is empty.
pub(crate) fn note_path(
    traces: &mut Traces,
    faults: &mut Vec<Option<FaultyStep>>,
    last: usize,
    last_step: Step,
    last_ending: Ending,
)
    requires once { IsDistinct nat_eq (path_of_frames traces.old.frames last) }
    requires there { (n : ℕ) → Contains (path_of_frames traces.old.frames last) n → n < length faults.old.items }
    ensures noted { ArePathFaultsNoted faults.new.items last_ending last_step (path_of_frames traces.old.frames last) }
    ensures others { (n : ℕ) → (Contains (path_of_frames traces.old.frames last) n → ⊥)
        → slice_get faults.new.items n ≡ slice_get faults.old.items n }
    ensures size { length faults.new.items ≡ length faults.old.items }
    ensures traces { traces.new ≡ walk_trace_without_frames traces.old }
{
    let mut name = last;
    let mut step = last_step;
    let mut ending = last_ending;
    loop {
        let end = ending.end(name);
        faults[name] = Some(FaultyStep { step, end });
        let Some(frame) = traces.pop() else {
            return;
        };
        ending = ending.above(name);
        step = Step::To(name);
        name = frame.name;
    }
}

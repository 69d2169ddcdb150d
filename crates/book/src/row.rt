//! The runs of one symbol.

ghost use Rattle.std.specs.Prelude.{◌≡◌, ◌+◌, ◌<◌, true, [], nat_le};
ghost use Rattle.std.specs.List.{find};
ghost use Rattle.fixed.specs.Items.{piled};
ghost use Rattle.book.specs.Runs.{left, formed, Pushed, Popped};

use crate::run::Run;
use fixed::Stack;

/// As many runs as 255 steps can have of one symbol, a step between each two.
const MOST: usize = 128;

/// The runs of one symbol, the newest on top.
#[derive(Clone, Copy)]
pub(crate) struct Row {
    runs: Stack<Run, MOST>,
}

/// The newest of the runs that begins no later than the step.
fn newest_before(runs: &[Run], step: usize) -> Option<Run>
    ensures { result ≡ find (λ run. nat_le run.start step) runs.now }
{
    runs.iter()
        .copied()
        .find(|run| usize::from(run.start) <= step)
}

impl Row {
    pub(crate) fn new() -> Row
        ensures { piled result.runs ≡ [] }
    {
        Row {
            runs: Stack::new(Run { start: 0, count: 0 }),
        }
    }

    /// Says of the step behind the last whether it carries the symbol: if so, the newest run goes
    /// on or a new one begins.
    pub(crate) fn push(&mut self, step: u8, carried: bool)
        requires room { step < 255 }
        requires formed { formed step (piled self.old.runs) ≡ true }
        ensures { Pushed step carried (piled self.old.runs) (piled self.new.runs) }
    {
        if !carried {
            return;
        }
        match self.runs.top() {
            Some(newest) if newest.end() == usize::from(step) => self.runs.turn(Run {
                start: newest.start,
                count: newest.count + 1,
            }),
            _ => self.runs.push(Run {
                start: step,
                count: 1,
            }),
        }
    }

    /// Forgets the last step: a run that ends with it is shorter, or goes.
    pub(crate) fn pop(&mut self, step: u8)
        requires { formed (step + 1) (piled self.old.runs) ≡ true }
        ensures { Popped step (piled self.old.runs) (piled self.new.runs) }
    {
        let Some(newest) = self.runs.top() else {
            return;
        };
        if newest.end() <= usize::from(step) {
            return;
        }
        if newest.count == 1 {
            self.runs.pop();
        } else {
            self.runs.turn(Run {
                start: newest.start,
                count: newest.count - 1,
            });
        }
    }

    /// How many steps of a run are left from the step on. It goes back over the runs until one
    /// begins no later than the step.
    pub(crate) fn run(&self, step: usize) -> usize
        ensures { result ≡ left (piled self.now.runs) step }
    {
        newest_before(self.runs.as_slice(), step).map_or(0, |run| run.end().saturating_sub(step))
    }
}

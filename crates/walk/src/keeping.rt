//! What is kept of each record is made once, parts before wholes.

ghost use Rattle.std.specs.Prelude.{◌≡◌, ℕ, ◌+◌, ◌<◌, ◌≤◌, true, length};
ghost use Rattle.query.specs.declared.node.Role.{Role};
ghost use Rattle.query.specs.declared.node.Role.TheVariants.{Shape};
ghost use Rattle.query.specs.Stands.{next_at};
ghost use Rattle.steps.specs.Meaning.{steps_of};
ghost use Rattle.wholes.specs.declared.view.View.TheVariants.{Own};
ghost use Rattle.wholes.specs.Shows.{Shows};
ghost use Rattle.walk.specs.declared.kept.Entry.{Entry};
ghost use Rattle.walk.specs.Walk.{Stands, Somehow, Ready, entry, rule};
ghost use Rattle.walk.specs.Walk.{KeptNext, KeptRepeat, KeptOwn, RightFrom};

use crate::kept::{Entry, Kept};
use crate::many::many_of;
use crate::sight::Sight;
use crate::walk::Walk;
use ends::Ends;
use query::{Node, Role};
use steps::Steps;
use tables::Table;
use wholes::View;

impl Kept {
    /// Nothing is kept yet.
    pub fn empty() -> Kept {
        let nothing = Entry {
            next: 0,
            own: Table::empty(),
            later: Table::empty(),
            stops: Ends::empty(),
        };
        Kept {
            entries: [nothing; 64],
        }
    }
}

// The record after the query at record i, where that of each later record is kept.
fn record_after(records: &[Node], kept: &Kept, i: usize) -> usize
    requires stands { Somehow records.now i }
    requires few { length records.now ≤ 64 }
    requires nexts { (x : ℕ) → i < x → (r : Role) → Stands 16 records.now r x → (d : Entry) → (entry kept.now x d).next ≡ next_at 16 records.now x }
    ensures { result ≡ next_at 16 records.now i }
{
    // No `Places` here: what is wanted is the record behind the parts, and what a walk at i rests on is kept only after it.
    let mut next = i + 1;
    for k in 0..records[i].parts {
        next = kept.entries[next].next;
    }
    next
}

// Keeps the record after the query at record i.
fn keep_next(kept: &mut Kept, i: usize, next: usize)
    requires { i < 64 }
    ensures { KeptNext kept.old kept.new i next }
{
    kept.entries[i].next = next;
}

// Keeps what may follow the first piece of a repeat, and where it may stop.
fn keep_repeat(kept: &mut Kept, records: &[Node], steps: &Steps, i: usize)
    requires stands { Somehow records.now i }
    requires right { RightFrom kept.old records.now (steps_of steps.now) (i + 1) }
    ensures { KeptRepeat kept.old kept.new records.now (steps_of steps.now) i }
{
    let node = records[i];
    if !node.kind.is_repeat() {
        return;
    }
    let own = kept.entries[i + 1].own;
    let later = wholes::later(&own, many_of(node), steps.len() as u8);
    let stops = wholes::stops(&own, steps.len() as u8);
    kept.entries[i] = Entry {
        later,
        stops,
        ..kept.entries[i]
    };
}

// What the shape at record i fits, each stretch seen from its own start.
fn found(kept: &Kept, records: &[Node], steps: &Steps, i: usize) -> Table
    requires stands { Stands 16 records.now Shape i }
    requires right { RightFrom kept.now records.now (steps_of steps.now) (i + 1) }
    requires ready { Ready kept.now records.now (steps_of steps.now) i }
    ensures { Shows result (rule (steps_of steps.now) records.now i) Own (length (steps_of steps.now)) (length (steps_of steps.now)) }
{
    let sight = Sight {
        walk: Walk {
            records,
            steps,
            kept,
            from: i,
        },
        view: View::Own,
        to: steps.len() as u8,
    };
    sight.seen(i, 16)
}

// Keeps what a shape fits, each stretch seen from its own start.
fn keep_own(kept: &mut Kept, records: &[Node], steps: &Steps, i: usize)
    requires stands { Somehow records.now i }
    requires right { RightFrom kept.old records.now (steps_of steps.now) (i + 1) }
    requires ready { Ready kept.old records.now (steps_of steps.now) i }
    ensures { KeptOwn kept.old kept.new records.now (steps_of steps.now) i }
{
    if !records[i].kind.may_stand(Role::Shape) {
        return;
    }
    let own = found(kept, records, steps, i);
    kept.entries[i].own = own;
}

// Keeps all of record i.
pub fn keep(kept: &mut Kept, records: &[Node], steps: &Steps, i: usize)
    requires stands { Somehow records.now i }
    requires right { RightFrom kept.old records.now (steps_of steps.now) (i + 1) }
    ensures { RightFrom kept.new records.now (steps_of steps.now) i }
{
    let next = record_after(records, kept, i);
    keep_next(kept, i, next);
    keep_repeat(kept, records, steps, i);
    keep_own(kept, records, steps, i);
}

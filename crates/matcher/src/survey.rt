//! The stretches that a query fits, seen from the line's first position.

ghost use Rattle.std.specs.Prelude.{◌≡◌, ℕ, ◌+◌, ◌≤◌, length};
ghost use Rattle.shape.specs.Fits.{fits};
ghost use Rattle.shape.specs.Listing.{listing};
ghost use Rattle.ends.specs.Member.{member};
ghost use Rattle.tables.specs.Holds.{holds};
ghost use Rattle.wholes.specs.declared.view.View.TheVariants.{From};
ghost use Rattle.wholes.specs.Shows.{Shows};
ghost use Rattle.matcher.specs.Answers.{Listed, Puts, in_front, room_for, list_out, stretches};
ghost use Rattle.matcher.specs.Searching.{all, line, sought};

use crate::faults::ListFault;
use crate::found::Found;
use crate::search::Search;
use ends::Ends;
use shape::Stretch;
use tables::Table;
use walk::{Kept, Sight, Walk, keep};
use wholes::View;

// Writes the stretches from a to each end of the row at a place, and answers the place behind them.
#[tactic(auto, using(crate::proofs::Writing::length_stretches))]
fn write_row(a: u8, row: &Ends, out: &mut [Stretch], place: usize) -> usize
    requires { place + length (stretches a row.now) ≤ length out.old }
    ensures written { Puts out.old out.new (stretches a row.now) place }
    ensures next { result ≡ place + length (stretches a row.now) }
{
    for (i, b) in row.iter().enumerate() {
        out[place + i] = Stretch { start: a, end: b };
    }
    place + row.len()
}

impl Found {
    // The ends of those that begin at a position.
    fn row(&self, start: u8) -> Ends
        ensures { (k : ℕ) → member result k ≡ holds self.now.table start k }
    {
        self.table.row(start)
    }

    // How many they are.
    fn count(&self) -> usize
        ensures { result ≡ length (all self.now) }
    {
        self.table.inside(0, self.n, &wholes::range(0, self.n))
    }

    // Writes them by start and then by end.
    fn write(&self, out: &mut [Stretch])
        requires { length (all self.now) ≤ length out.old }
        ensures { out.new ≡ in_front (all self.now) out.old }
    {
        let mut place = 0;
        for a in 0..self.n {
            let row = self.row(a);
            place = write_row(a, &row, out, place);
        }
    }
}

impl Search<'_> {
    // The stretches that the query fits, null ones too.
    #[tactic(auto, unfolding(query::specs::Stands::query_in))]
    fn survey(&self) -> Table
        ensures { Shows result (fits (line self.now) (sought self.now)) (From 0) (length (line self.now)) (length (line self.now)) }
    {
        let mut kept = Kept::empty();
        for i in (0..self.records.len()).rev() {
            keep(&mut kept, self.records, self.steps, i);
        }
        let sight = Sight {
            walk: Walk {
                records: self.records,
                steps: self.steps,
                kept: &kept,
                from: 0,
            },
            view: View::From(0),
            to: self.steps.len() as u8,
        };
        sight.seen(0, 16)
    }

    // Whether the query fits the stretch.
    #[tactic(auto, using(std::proofs::lemmas::Bool::Decides::same_from_decides))]
    pub(crate) fn fits(&self, a: u8, b: u8) -> bool
        requires up { a ≤ b }
        requires on_line { b ≤ length (line self.now) }
        ensures { result ≡ fits (line self.now) (sought self.now) 0 a b }
    {
        self.survey().contains(a, b)
    }

    // The stretches that the query fits, but for null ones.
    #[tactic(auto, using(crate::proofs::Writing::inside_shown), unfolding(shape::specs::Listing::listing))]
    fn not_null(&self) -> Found
        ensures { all result ≡ listing (line self.now) (sought self.now) }
    {
        Found {
            table: self.survey().rising(),
            n: self.steps.len() as u8,
        }
    }

    // Lists the stretches that the query fits, but for null ones.
    pub(crate) fn list(&self, out: &mut [Stretch]) -> Result<usize, ListFault>
        ensures listed { Listed (line self.now) (sought self.now) out.old out.new result }
        ensures answer { result ≡ room_for (length (listing (line self.now) (sought self.now))) (length out.old) }
        ensures out { out.new ≡ list_out result (listing (line self.now) (sought self.now)) out.old }
    {
        let found = self.not_null();
        let count = found.count();
        if count > out.len() {
            return Err(ListFault::Buffer(count));
        }
        found.write(out);
        Ok(count)
    }
}

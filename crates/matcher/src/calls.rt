//! Fitting and listing by a bound query in a lent sheet.

ghost use Rattle.std.specs.Prelude.{◌≡◌, length, take};
ghost use Rattle.query.specs.Stands.{query_in};
ghost use Rattle.shape.specs.Listing.{listing};
ghost use Rattle.steps.specs.Meaning.{steps_of};
ghost use Rattle.matcher.specs.Answers.{fit_refusal, list_refusal};
ghost use Rattle.matcher.specs.Answers.{fit_number, fit_returned, fit_answer};
ghost use Rattle.matcher.specs.Answers.{list_number, list_returned, ListsSheet, list_answer, list_out};

use crate::faults::{FitFault, ListFault};
use crate::search::Search;
use query::Node;
use refusal::Refusal;
use shape::Stretch;
use steps::Steps;
use text::{BoundShape, SheetFault};

impl From<SheetFault> for FitFault {
    ghost from_gives = { λ fault told. told ≡ fit_refusal fault };

    fn from(fault: SheetFault) -> FitFault {
        match fault {
            SheetFault::Short => FitFault::Sheet,
            SheetFault::Unbound => FitFault::Records,
        }
    }
}

impl From<SheetFault> for ListFault {
    ghost from_gives = { λ fault told. told ≡ list_refusal fault };

    fn from(fault: SheetFault) -> ListFault {
        match fault {
            SheetFault::Short => ListFault::Sheet,
            SheetFault::Unbound => ListFault::Records,
        }
    }
}

impl Refusal for FitFault {
    ghost number = { fit_number };

    ghost returned = { fit_returned };

    fn number(&self) -> u8 {
        match self {
            FitFault::Sheet => 6,
            FitFault::Records => 14,
            FitFault::Stretch(_) => 16,
        }
    }

    fn returned(&self) -> usize {
        match *self {
            FitFault::Sheet => 64,
            FitFault::Records => 0,
            FitFault::Stretch(n) => n,
        }
    }
}

impl Refusal for ListFault {
    ghost number = { list_number };

    ghost returned = { list_returned };

    fn number(&self) -> u8 {
        match self {
            ListFault::Sheet => 6,
            ListFault::Records => 14,
            ListFault::Buffer(_) => 15,
        }
    }

    fn returned(&self) -> usize {
        match *self {
            ListFault::Sheet => 64,
            ListFault::Records => 0,
            ListFault::Buffer(m) => m,
        }
    }
}

/// Whether the bound query in the first records of the sheet fits the stretch (a, b) of the line, seen from 0.
pub fn fit(
    shape: &BoundShape,
    sheet: &[Node],
    symbols: u8,
    steps: &Steps,
    a: usize,
    b: usize,
) -> Result<bool, FitFault>
    ensures { result ≡ fit_answer symbols shape.now.records sheet.now (steps_of steps.now) a b }
{
    let search = Search {
        records: shape.records_in(sheet, symbols)?,
        symbols,
        steps,
    };
    let n = steps.len();
    if a > b || b > n {
        return Err(FitFault::Stretch(n));
    }
    Ok(search.fits(a as u8, b as u8))
}

/// Lists the stretches of the line that the bound query in the first records of the sheet fits, seen from 0, but for null ones: writes them
/// by start and then by end, leaves what lies behind them, and answers how many they are.
pub fn list(
    shape: &BoundShape,
    sheet: &[Node],
    symbols: u8,
    steps: &Steps,
    out: &mut [Stretch],
) -> Result<usize, ListFault>
    ensures listed { ListsSheet symbols shape.now.records sheet.now (steps_of steps.now) out.old out.new result }
    ensures answer { result ≡ list_answer symbols shape.now.records sheet.now (steps_of steps.now) (length out.old) }
    ensures out { out.new ≡ list_out result (listing (steps_of steps.now) (query_in (take shape.now.records sheet.now))) out.old }
{
    let records = shape.records_in(sheet, symbols)?;
    Search {
        records,
        symbols,
        steps,
    }
    .list(out)
}

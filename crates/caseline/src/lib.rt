//! The case line: ten steps between known prices, and eight shapes with the stretches that they fit.

#![tactic(auto)]

ghost use Rattle.std.specs.Prelude.{◌≡◌, ◌<◌, pos, slice_index_or};
ghost use Rattle.caseline.specs.Cases.{CasesHold, LookAlikesHold};
ghost use Rattle.caseline.specs.Texts.{TextsGiveCases, TextsGiveLookAlikes};
ghost use Rattle.caseline.specs.Line.{case_values, case_words};

use alphabet::Alphabet;
use book::RunBook;
use value::Price;

const VALUES: [i64; 11] = [0, 0, 2, 17, 35, 50, 45, 43, 15, 3, 0];

// The price at a position.
fn price(position: usize) -> Price
    requires { position < 11 }
    ensures { result.hundredths ≡ slice_index_or case_values position (pos 0) }
{
    match Price::new(VALUES[position]) {
        Ok(price) => price,
        Err(_) => unreachable(),
    }
}

/// Puts the words of the case line's steps into a run book, in place of what it held.
pub fn fill<B: RunBook>(book: &mut B)
    ensures { B.RunBook.words book.new ≡ case_words }
{
    let alphabet = Alphabet::new();
    book.empty();
    // by position, which says that a value is a price; a `zip` of neighbours needs that of each value besides
    for i in 0..10usize {
        book.add(alphabet.word(&price(i), &price(i + 1)));
    }
}

/// Each shape of the table fits just the stretches of its row.
pub fn cases_hold()
    ensures { CasesHold }
{}

/// Shapes that are easily mistaken for others fit just what the rules say.
pub fn look_alikes_hold()
    ensures { LookAlikesHold }
{}

/// The texts of these shapes, read and bound by the alphabet of the case line, give them.
pub fn texts_give_shapes()
    ensures cases { TextsGiveCases }
    ensures look_alikes { TextsGiveLookAlikes }
{}

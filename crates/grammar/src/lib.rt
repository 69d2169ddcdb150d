//! The grammar of texts: operator words, numbers, and what may stand behind what.

#![tactic(auto)]

ghost use Rattle.std.specs.Prelude.{◌≡◌, ◌+◌, ◌-◌, ◌*◌, not, ◌&&◌, ◌==◌};
ghost use Rattle.grammar.specs.Limits.{is_in};
ghost use Rattle.grammar.specs.Names.{operator_word, kind_named, extra_zero as extraZero, small_number, at_most_255};
ghost use Rattle.grammar.specs.Spelling.{takes_number as takesNumber};
ghost use Rattle.grammar.specs.Machine.{first_need, after_part as afterPart, may_close as mayClose};

mod types;

use query::Kind;
pub use types::{GrammarFault, Level, Need, Point};

const OPERATORS: [Kind; 12] = [
    Kind::Any,
    Kind::Concat,
    Kind::Exact,
    Kind::Atleast,
    Kind::Atmost,
    Kind::In,
    Kind::Precisely,
    Kind::Noless,
    Kind::Nomore,
    Kind::And,
    Kind::Or,
    Kind::Inorder,
];

impl Need {
    /// What a parenthesis wants behind its operator word.
    pub fn first(kind: Kind) -> Need
        ensures { result ≡ first_need kind }
    {
        match kind {
            Kind::Symbol => Need::Close,
            Kind::Any => Need::More,
            Kind::Concat | Kind::And | Kind::Or | Kind::Inorder => Need::Least,
            _ => Need::Number,
        }
    }

    /// What it wants once a part has begun, where one may begin.
    pub fn after_part(self) -> Option<Need>
        ensures { result ≡ afterPart self }
    {
        match self {
            Need::One => Some(Need::Close),
            Need::Least | Need::More => Some(Need::More),
            Need::Number | Need::Close => None,
        }
    }

    /// Whether the parenthesis may close.
    pub fn may_close(self) -> bool
        ensures { result ≡ mayClose self }
    {
        matches!(self, Need::More | Need::Close)
    }
}

/// The word of an operator. A symbol has none of its own.
pub fn word_of(kind: Kind) -> &'static [u8]
    ensures { result.now ≡ operator_word kind }
{
    match kind {
        Kind::Symbol => b"",
        Kind::Any => b"any",
        Kind::Concat => b"concat",
        Kind::Exact => b"exact",
        Kind::Atleast => b"atleast",
        Kind::Atmost => b"atmost",
        Kind::In => b"in",
        Kind::Precisely => b"precisely",
        Kind::Noless => b"noless",
        Kind::Nomore => b"nomore",
        Kind::And => b"and",
        Kind::Or => b"or",
        Kind::Inorder => b"inorder",
    }
}

/// The kind that a name tells: one of the operators, else a symbol.
pub fn kind_of(name: &[u8]) -> Kind
    ensures { result ≡ kind_named name.now }
{
    for kind in OPERATORS {
        if name == word_of(kind) {
            return kind;
        }
    }
    Kind::Symbol
}

fn extra_zero(digits: &[u8]) -> bool
    ensures { result ≡ extraZero digits.now }
{
    matches!(digits, [b'0', _, ..])
}

/// Whether the kind goes with a number.
pub fn takes_number(kind: Kind) -> bool
    ensures { result ≡ takesNumber kind }
{
    matches!(
        kind,
        Kind::Exact
            | Kind::Atleast
            | Kind::Atmost
            | Kind::In
            | Kind::Precisely
            | Kind::Noless
            | Kind::Nomore
    )
}

/// Whether the number is no length of 0.
pub fn takes(kind: Kind, number: u8) -> bool
    ensures { result ≡ not (is_in kind && number == 0) }
{
    match kind {
        Kind::In => number > 0,
        _ => true,
    }
}

// The number that a digit behind a number makes, where it is at most 255.
fn with_digit(number: u8, digit: u8) -> Option<u8>
    ensures { result ≡ at_most_255 (number * 10 + (digit - 48)) }
{
    number
        .checked_mul(10)?
        .checked_add(digit.saturating_sub(b'0'))
}

/// The number that digits stand for, where it is at most 255 and written without an extra zero.
pub fn number_of(digits: &[u8]) -> Option<u8>
    ensures { result ≡ small_number digits.now }
{
    if extra_zero(digits) {
        return None;
    }
    let mut number = 0u8;
    for digit in digits {
        number = with_digit(number, *digit)?;
    }
    Some(number)
}

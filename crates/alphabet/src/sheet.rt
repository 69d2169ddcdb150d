//! The sheet of bytes that an alphabet is loaded from.

ghost use Rattle.std.specs.Prelude.{◌≡◌, ◌<◌, ◌≤◌, true, length, if◌then◌else◌, Some, None, Ok, Err};
ghost use Rattle.std.specs.Option.{option_map};
ghost use Rattle.alphabet.specs.Carrying.{bounds_right};
ghost use Rattle.alphabet.specs.Every.{every};
ghost use Rattle.alphabet.specs.RightSheets.{AnswerTells};
ghost use Rattle.alphabet.specs.Sheets.{layout_right, symbols_said};
ghost use Rattle.alphabet.specs.Sheets.{letters_of, is_space, name_in as nameIn};
ghost use Rattle.alphabet.specs.Sheets.{number_in, asked_by, row_bounds};
ghost use Rattle.alphabet.specs.Sheets.{sheet_name, sheet_names, sheet_row, name_right, load_answer};
ghost use Rattle.alphabet.specs.Spelling.{spelling, spellings};
ghost use Rattle.alphabet.specs.Symbols.{Spells, Reads};

use crate::layout::Layout;
use crate::name::Name;
use crate::naming::index_of;
use crate::symbol::Symbol;
use crate::{Alphabet, Asked, Bounds, SheetFault, is_operator};
use fixed::List;

// Whether the numbers at the front are right, and the sheet as long as they ask for.
#[tactic(auto, using(crate::proofs::Fields::too_short), unfolding(crate::specs::Sheets::layout_right))]
fn is_laid_out(sheet: &[u8]) -> bool
    ensures { result ≡ layout_right sheet.now }
{
    let [symbols, width, ..] = sheet else {
        return false;
    };
    let symbols = *symbols as usize;
    let width = *width as usize;
    if symbols < 1 || symbols > 32 || width < 1 || width > 16 {
        return false;
    }
    sheet.len() == 2 + symbols * width + symbols * 18
}

// The letters that the bytes begin with.
fn letters(bytes: &[u8]) -> &[u8]
    ensures { result.now ≡ letters_of bytes.now }
{
    let end = bytes.iter().position(|b| !b.is_ascii_alphabetic());
    &bytes[..end.unwrap_or(bytes.len())]
}

fn is_blank(bytes: &[u8]) -> bool
    ensures { result ≡ every is_space bytes.now }
{
    bytes.iter().all(|b| *b == b' ')
}

// The name in the bytes, where they are letters padded with spaces and no operator word.
#[tactic(auto, using(crate::proofs::Lettering::letters_fit, crate::proofs::Lettering::no_letters, crate::proofs::Lettering::not_padded, crate::proofs::Lettering::an_operator, crate::proofs::Lettering::a_name))]
fn name_in(bytes: &[u8]) -> Option<&[u8]>
    ensures { option_map (λ x. x.now) result ≡ nameIn bytes.now }
{
    let word = letters(bytes);
    let rest = &bytes[word.len()..bytes.len()];
    if word.is_empty() || !is_blank(rest) || is_operator(word) {
        return None;
    }
    Some(word)
}

// The signed number that eight bytes spell, the highest first.
#[tactic(auto, using(crate::proofs::Numbers::number_is))]
fn number_in(bytes: &[u8; 8]) -> i64
    ensures { result ≡ number_in bytes.now }
{
    i64::from_be_bytes(*bytes)
}

impl Bounds {
    // Whether the ends are ordered and in range.
    fn are_right(&self) -> bool
        ensures { result ≡ bounds_right self.now }
    {
        self.low <= self.high && -1_000_000_000_000 <= self.low && self.high <= 1_000_000_000_000
    }

    // The bounds in a row, where they are right.
    #[tactic(auto, using(crate::proofs::Rows::first_wrong, crate::proofs::Rows::last_wrong))]
    fn in_row(row: &[u8]) -> Option<Bounds>
        requires { length row.now ≡ 18 }
        ensures { result ≡ row_bounds row.now }
    {
        let (low, rest) = row.split_first_chunk()?;
        let (high, rest) = rest.split_first_chunk()?;
        let [first, last] = rest else {
            return None;
        };
        let bounds = Bounds {
            low: number_in(low),
            high: number_in(high),
            first: Asked::try_from(*first).ok()?,
            last: Asked::try_from(*last).ok()?,
        };
        bounds.are_right().then_some(bounds)
    }
}

impl<'a> Layout<'a> {
    // The sheet, where its layout is right.
    fn of(sheet: &'a [u8]) -> Option<Layout<'a>>
        ensures { option_map (λ l. l.sheet.now) result ≡ (if layout_right sheet.now then Some sheet.now else None) }
    {
        if is_laid_out(sheet) {
            Some(Layout { sheet })
        } else {
            None
        }
    }

    // How many symbols there are.
    fn symbols(&self) -> u8
        ensures { result ≡ symbols_said self.now.sheet.now }
    {
        self.sheet[0]
    }

    // The symbol's name, where it is right. The names of the symbols before it are the earlier ones.
    fn name(&self, symbol: u8, earlier: &[Symbol]) -> Option<Name>
        requires within { symbol < symbols_said self.now.sheet.now }
        requires before { spellings earlier.now ≡ sheet_names self.now.sheet.now symbol }
        requires few { length earlier.now ≤ 32 }
        ensures { option_map spelling result ≡ (if name_right self.now.sheet.now symbol then Some (sheet_name self.now.sheet.now symbol) else None) }
    {
        let width = self.sheet[1] as usize;
        let from = 2 + symbol as usize * width;
        let word = name_in(&self.sheet[from..from + width])?;
        match index_of(earlier, word) {
            Some(_) => None,
            None => Some(Name::of(word)),
        }
    }

    // The symbol's bounds, where they are right.
    #[tactic(auto, using(crate::proofs::Fields::row_ends, crate::proofs::Fields::length_row, crate::proofs::Fields::cut), unfolding(crate::specs::Sheets::row_field))]
    fn bounds(&self, symbol: u8) -> Option<Bounds>
        requires { symbol < symbols_said self.now.sheet.now }
        ensures { result ≡ sheet_row self.now.sheet.now symbol }
    {
        let rows = 2 + self.sheet[0] as usize * self.sheet[1] as usize;
        let from = rows + symbol as usize * 18;
        Bounds::in_row(&self.sheet[from..from + 18])
    }
}

// The alphabet that the sheet spells, or the first fault of the sheet.
fn read_sheet(sheet: &[u8]) -> Result<Alphabet, SheetFault>
    ensures { Reads sheet.now result }
{
    let layout = Layout::of(sheet).ok_or(SheetFault::BadLayout)?;
    let mut symbols = List::new(Symbol::blank());
    for symbol in 0..layout.symbols() {
        let name = layout
            .name(symbol, symbols.as_slice())
            .ok_or(SheetFault::BadName { symbol })?;
        let bounds = layout.bounds(symbol).ok_or(SheetFault::BadRow { symbol })?;
        symbols.push(Symbol { name, bounds });
    }
    Ok(Alphabet { symbols })
}

impl Alphabet {
    /// Loads the alphabet that a sheet spells. A sheet that is refused leaves the alphabet as it was.
    pub fn load(&mut self, sheet: &[u8]) -> Result<(), SheetFault>
        ensures answer { result ≡ load_answer sheet.now }
        ensures after { elim result [ Ok _ ↦ Spells sheet.now self.new | Err _ ↦ self.new ≡ self.old ] }
    {
        *self = read_sheet(sheet)?;
        Ok(())
    }
}

/// What an answer tells of a sheet is so, and only one answer tells what is so.
#[tactic(auto, using(crate::proofs::Telling::answer_tells))]
pub fn answer_tells()
    ensures { AnswerTells }
{}

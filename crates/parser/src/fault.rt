//! Why a text is not read.

ghost use Rattle.std.specs.Prelude.{◌≡◌};
ghost use Rattle.parser.specs.declared.fault.ReadFault.TheVariants.{Word, Grammar};
ghost use Rattle.parser.specs.Faults.{read_number, read_returned};

use grammar::GrammarFault;
use refusal::Refusal;
use words::WordFault;

/// Why a text is not read into a sheet of records.
#[derive(Clone, Copy)]
pub enum ReadFault {
    /// The sheet has under 64 records.
    Sheet,
    /// The text has over 4,096 bytes.
    Long,
    /// A byte belongs to no word and is no blank.
    Word(WordFault),
    /// The words do not follow the grammar, or pass a limit.
    Grammar(GrammarFault),
}

impl Refusal for ReadFault {
    ghost number = { read_number };

    ghost returned = { read_returned };

    fn number(&self) -> u8 {
        match self {
            ReadFault::Sheet => 6,
            ReadFault::Long => 1,
            ReadFault::Word(_) => 2,
            ReadFault::Grammar(GrammarFault::Unexpected { .. }) => 3,
            ReadFault::Grammar(GrammarFault::Ended { .. }) => 3,
            ReadFault::Grammar(GrammarFault::Number { .. }) => 4,
            ReadFault::Grammar(GrammarFault::Limit { .. }) => 5,
        }
    }

    // The records needed, the bytes allowed, or a place in the text.
    fn returned(&self) -> usize {
        match self {
            ReadFault::Sheet => 64,
            ReadFault::Long => 4096,
            ReadFault::Word(fault) => fault.place,
            ReadFault::Grammar(
                GrammarFault::Unexpected { place }
                | GrammarFault::Ended { place }
                | GrammarFault::Number { place }
                | GrammarFault::Limit { place },
            ) => *place,
        }
    }
}

impl From<WordFault> for ReadFault {
    ghost from_gives = { λ e r. r ≡ Word e };

    fn from(e: WordFault) -> ReadFault {
        ReadFault::Word(e)
    }
}

impl From<GrammarFault> for ReadFault {
    ghost from_gives = { λ e r. r ≡ Grammar e };

    fn from(e: GrammarFault) -> ReadFault {
        ReadFault::Grammar(e)
    }
}

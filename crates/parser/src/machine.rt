//! Reading a text word by word: what is kept in mind, and what each word does to it.

ghost use Rattle.std.specs.Prelude.{◌≡◌, ◌+◌, ◌^◌, ◌<◌, false, length};
ghost use Rattle.query.specs.declared.node.Kind.TheVariants.{Symbol};
ghost use Rattle.query.specs.declared.node.Node.{Node};
ghost use Rattle.fixed.specs.Items.{piled, listed};
ghost use Rattle.words.specs.Words.{lexeme, size, opens, closes, name as nameWord, number as numberWord};
ghost use Rattle.grammar.specs.Spelling.{is_symbol};
ghost use Rattle.grammar.specs.Machine.{change, counted, numbered, fresh, begin, step, start, done};
ghost use Rattle.parser.specs.Seen.{seen, inside_top, has_room as hasRoom, Begun, Stepped, name_step, finished};

use fixed::{List, Stack};
use grammar::{GrammarFault, Level, Need, Point, kind_of, number_of, takes};
use query::{Kind, Node, Role};
use words::{Token, Word};

/// Where the reading of a text stands, the open levels and the records so far.
#[derive(Drop)]
pub struct Machine {
    point: Point,
    levels: Stack<Level, 16>,
    nodes: List<Node, 64>,
}

/// Where a word stands in the text, and how many bytes it has.
#[derive(Clone, Copy)]
struct Span {
    place: u16,
    length: u16,
}

// The record of a name, before its text is bound or its number is read.
fn new_record(kind: Kind, span: Span) -> Node
    ensures { result ≡ fresh kind span.place span.length }
{
    let number = match kind {
        Kind::Symbol => 255,
        _ => 0,
    };
    Node {
        kind,
        number,
        parts: 0,
        place: span.place,
        length: span.length,
    }
}

impl Machine {
    /// Before the first word.
    pub(crate) fn new() -> Machine
        ensures { seen result ≡ start }
    {
        Machine {
            point: Point::Start,
            levels: Stack::new(Level {
                kind: Kind::Symbol,
                need: Need::Close,
                node: 0,
            }),
            nodes: List::new(Node::blank()),
        }
    }

    // Changes the record at an index, where there is one.
    fn change<F: FnOnce(Node) -> Node>(&mut self, at: usize, changed: F)
        requires { F.IsAlwaysCallable changed }
        ensures point { self.new.point ≡ self.old.point }
        ensures levels { piled self.new.levels ≡ piled self.old.levels }
        ensures nodes { (f : Node → Node) → ((x y : Node) → F.post changed x y → y ≡ f x) → listed self.new.nodes ≡ change f (listed self.old.nodes) at }
        ensures count { length (listed self.new.nodes) ≡ length (listed self.old.nodes) }
    {
        if at < self.nodes.len() {
            let whole = self.nodes.as_slice()[at];
            self.nodes.put(at, changed(whole));
        }
    }

    // The innermost level, where the reading stands inside it.
    fn inside(&self) -> Option<Level>
        ensures { result ≡ inside_top self.now.point (piled self.now.levels) }
    {
        match self.point {
            Point::Inside => self.levels.top(),
            Point::Start | Point::Opened(_) => None,
        }
    }

    // Whether the whole text was read.
    fn is_done(&self) -> bool
        ensures { result ≡ done (seen self.now) }
    {
        match self.point {
            Point::Inside => self.levels.len() == 0,
            Point::Start | Point::Opened(_) => false,
        }
    }

    // Whether one more record and one more level have room.
    fn has_room(&self) -> bool
        ensures { result ≡ hasRoom (seen self.now) }
    {
        self.nodes.len() < 64 && self.levels.len() < 16
    }

    // Begins a part, where one may begin, and tells its role.
    fn begin(&mut self) -> Option<Role>
        ensures part { Begun result (begin (seen self.old)) (seen self.new) }
        ensures count { length (listed self.new.nodes) ≡ length (listed self.old.nodes) }
    {
        if let Point::Start = self.point {
            self.point = Point::Inside;
            return Some(Role::Shape);
        }
        let top = self.inside()?;
        let need = top.need.after_part()?;
        self.levels.turn(Level { need, ..top });
        self.change(top.node, |whole| {
            let parts = whole.parts.saturating_add(1);
            Node { parts, ..whole }
        });
        Some(top.kind.part_role())
    }

    fn open(&mut self, place: usize) -> Result<(), GrammarFault>
        ensures { Stepped result (step (seen self.old) (place, opens)) (seen self.new) }
    {
        let role = self.begin().ok_or(GrammarFault::Unexpected { place })?;
        self.point = Point::Opened(role);
        Ok(())
    }

    fn close(&mut self, place: usize) -> Result<(), GrammarFault>
        ensures { Stepped result (step (seen self.old) (place, closes)) (seen self.new) }
    {
        let top = self.inside().ok_or(GrammarFault::Unexpected { place })?;
        if !top.need.may_close() {
            return Err(GrammarFault::Unexpected { place });
        }
        self.levels.pop();
        Ok(())
    }

    fn number(&mut self, digits: &[u8], place: usize) -> Result<(), GrammarFault>
        ensures { Stepped result (step (seen self.old) (place, numberWord digits.now)) (seen self.new) }
    {
        let top = self.inside().ok_or(GrammarFault::Unexpected { place })?;
        let Need::Number = top.need else {
            return Err(GrammarFault::Unexpected { place });
        };
        let number = number_of(digits).ok_or(GrammarFault::Number { place })?;
        if !takes(top.kind, number) {
            return Err(GrammarFault::Number { place });
        }
        self.levels.turn(Level {
            need: Need::One,
            ..top
        });
        self.change(top.node, |whole| Node { number, ..whole });
        Ok(())
    }

    // Not one function with `operator`: what each stands behind differs, and what they share is two tests.
    fn symbol(&mut self, span: Span) -> Result<(), GrammarFault>
        ensures { Stepped result (name_step (seen self.old) Symbol span.place span.length) (seen self.new) }
    {
        let place = span.place as usize;
        let has_room = self.has_room();
        let role = self.begin().ok_or(GrammarFault::Unexpected { place })?;
        if !Kind::Symbol.may_stand(role) {
            return Err(GrammarFault::Unexpected { place });
        }
        if !has_room {
            return Err(GrammarFault::Limit { place });
        }
        self.nodes.push(new_record(Kind::Symbol, span));
        Ok(())
    }

    fn operator(&mut self, kind: Kind, span: Span) -> Result<(), GrammarFault>
        requires { is_symbol kind ≡ false }
        ensures { Stepped result (name_step (seen self.old) kind span.place span.length) (seen self.new) }
    {
        let place = span.place as usize;
        let Point::Opened(role) = self.point else {
            return Err(GrammarFault::Unexpected { place });
        };
        if !kind.may_stand(role) {
            return Err(GrammarFault::Unexpected { place });
        }
        if !self.has_room() {
            return Err(GrammarFault::Limit { place });
        }
        self.levels.push(Level {
            kind,
            need: Need::first(kind),
            node: self.nodes.len(),
        });
        self.point = Point::Inside;
        self.nodes.push(new_record(kind, span));
        Ok(())
    }

    fn name(&mut self, bytes: &[u8], place: u16) -> Result<(), GrammarFault>
        requires { length bytes.now < 2 ^ 16 }
        ensures { Stepped result (step (seen self.old) (place, nameWord bytes.now)) (seen self.new) }
    {
        let span = Span {
            place,
            length: bytes.len() as u16,
        };
        match kind_of(bytes) {
            Kind::Symbol => self.symbol(span),
            kind => self.operator(kind, span),
        }
    }

    /// Takes the next word of the text.
    pub(crate) fn take(&mut self, word: Word) -> Result<(), GrammarFault>
        requires { word.place + size (lexeme word.token) < 2 ^ 16 }
        ensures { Stepped result (step (seen self.old) (word.entry.place, lexeme word.entry.token)) (seen self.new) }
    {
        let place = word.place;
        match word.token {
            Token::Name(bytes) => self.name(bytes, place as u16),
            Token::Number(digits) => self.number(digits, place),
            Token::Opens => self.open(place),
            Token::Closes => self.close(place),
        }
    }

    /// Ends a text of so many bytes.
    pub(crate) fn finish(&self, length: usize) -> Result<(), GrammarFault>
        ensures { result ≡ finished (done (seen self.now)) length }
    {
        if self.is_done() {
            Ok(())
        } else {
            Err(GrammarFault::Ended { place: length })
        }
    }

    /// The records so far.
    pub fn records(&self) -> &[Node]
        ensures { result.now ≡ (seen self.now).out }
    {
        self.nodes.as_slice()
    }
}

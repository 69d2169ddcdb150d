//! Records of a bound query written one after another as a text.

#![tactic(auto)]

ghost use Rattle.std.specs.Prelude.{◌≡◌, ◌+◌, ◌<◌, ◌≤◌, [], ◌∷◌, length};
ghost use Rattle.alphabet.specs.Symbols.{names_of};
ghost use Rattle.writer.specs.Writing.{numeral, head_text, record_text, Wrote};
ghost use Rattle.writer.specs.Laying.{open_now, Puts, gap, begun, pushed, shut_text, shut_stack, open_after, one_text, laid};

use alphabet::Alphabet;
use fixed::Stack;
use grammar::{takes_number, word_of};
use query::{Kind, Node};

// A lent buffer, the place behind what was put into it, and how many parts each open parenthesis still has ahead.
#[derive(Drop)]
struct Pen<'a> {
    out: &'a mut [u8],
    at: usize,
    left: Stack<u8, 64>,
}

impl<'a> Pen<'a> {
    fn put(&mut self, bytes: &[u8])
        requires { self.old.at + length bytes.now ≤ length self.old.out.now }
        ensures { Puts self.old self.new (open_now self.old) bytes.now }
    {
        let end = self.at + bytes.len();
        let out = &mut *self.out;
        out[self.at..end].copy_from_slice(bytes);
        self.at = end;
    }

    // A space and a number.
    fn put_number(&mut self, n: u8)
        requires { self.old.at + 4 ≤ length self.old.out.now }
        ensures { Puts self.old self.new (open_now self.old) (32 ∷ numeral n) }
    {
        if n < 10 {
            self.put(&[b' ', b'0' + n]);
        } else if n < 100 {
            self.put(&[b' ', b'0' + n / 10, b'0' + n % 10]);
        } else {
            self.put(&[b' ', b'0' + n / 100, b'0' + n / 10 % 10, b'0' + n % 10]);
        }
    }

    fn put_head(&mut self, kind: Kind, number: u8)
        requires { self.old.at + 16 ≤ length self.old.out.now }
        ensures { Puts self.old self.new (open_now self.old) (head_text kind number) }
    {
        self.put(b"(");
        self.put(word_of(kind));
        if takes_number(kind) {
            self.put_number(number);
        }
    }

    // What stands for a record in front of its parts.
    fn put_record(&mut self, node: Node, alphabet: &Alphabet)
        requires { self.old.at + 16 ≤ length self.old.out.now }
        ensures { Puts self.old self.new (open_now self.old) (record_text (names_of alphabet.now) node.kind node.number) }
    {
        if node.kind != Kind::Symbol {
            self.put_head(node.kind, node.number);
        } else if let Some(name) = alphabet.name(node.number) {
            self.put(name);
        }
    }

    // A space in front of a part, which its parenthesis then has no longer ahead.
    fn begin(&mut self)
        requires { self.old.at < length self.old.out.now }
        ensures { Puts self.old self.new (begun (open_now self.old)) (gap (open_now self.old)) }
    {
        if let Some(ahead) = self.left.top() {
            self.left.turn(ahead.saturating_sub(1));
            self.put(b" ");
        }
    }

    // An operator opens a parenthesis, with all its parts ahead.
    fn enter(&mut self, node: Node)
        requires { length (open_now self.old) < 64 }
        ensures { Puts self.old self.new (pushed node (open_now self.old)) [] }
    {
        if node.kind != Kind::Symbol {
            self.left.push(node.parts);
        }
    }

    // Closes each parenthesis that has no part ahead, from the innermost on.
    fn shut(&mut self)
        requires { self.old.at + length (open_now self.old) ≤ length self.old.out.now }
        ensures { Puts self.old self.new (shut_stack (open_now self.old)) (shut_text (open_now self.old)) }
    {
        while self.left.top() == Some(0) {
            self.left.pop();
            self.put(b")");
        }
    }

    // Writes a record, and closes what has no part ahead then.
    fn write(&mut self, node: Node, alphabet: &Alphabet)
        requires few { length (open_now self.old) < 64 }
        requires room { self.old.at + length (open_now self.old) + 18 ≤ length self.old.out.now }
        ensures { Puts self.old self.new (open_after node (open_now self.old)) (one_text (names_of alphabet.now) node (open_now self.old)) }
    {
        self.begin();
        self.put_record(node, alphabet);
        self.enter(node);
        self.shut();
    }
}

/// Writes records one after another, and tells how many bytes they take.
pub fn put_all(out: &mut [u8], records: &[Node], alphabet: &Alphabet) -> usize
    requires few { length records.now ≤ 64 }
    requires room { 4096 ≤ length out.old }
    ensures wrote { Wrote out.old 0 (laid (names_of alphabet.now) [] records.now) out.new result }
    ensures short { result ≤ 1152 }
{
    let mut pen = Pen {
        out,
        at: 0,
        left: Stack::new(0),
    };
    for node in records {
        pen.write(*node, alphabet);
    }
    pen.at
}

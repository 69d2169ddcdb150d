//! Queries tidied: each rule, rules that open the way for others, and the largest queries.

use super::*;
use crate::walk::same_record;
use query::Kind;

fn node(kind: Kind, number: u8, parts: u8) -> Node {
    Node {
        kind,
        number,
        parts,
        place: 0,
        length: 0,
    }
}

fn symbol(number: u8) -> Node {
    node(Kind::Symbol, number, 0)
}

// What the sheet must hold at an index.
fn wanted(expected: &[Node], i: usize) -> Node {
    if i < expected.len() {
        expected[i]
    } else {
        Node::blank()
    }
}

// Whether the sheet holds these records and blanks behind them.
fn holds(sheet: &[Node], expected: &[Node]) -> bool {
    for (i, n) in sheet.iter().enumerate() {
        if !same_record(*n, wanted(expected, i)) {
            return false;
        }
    }
    true
}

// A sheet of 70 records that begins with these, and has others behind them.
fn filled(records: &[Node]) -> [Node; 70] {
    let mut sheet = [node(Kind::Any, 7, 7); 70];
    for (i, n) in records.iter().enumerate() {
        if i < 70 {
            sheet[i] = *n;
        }
    }
    sheet
}

// Whether these records become those, and blanks behind them.
fn becomes(records: &[Node], expected: &[Node]) -> bool {
    if records.len() > 64 {
        return false;
    }
    let mut sheet = filled(records);
    match tidy_records(records.len(), &mut sheet) {
        Ok(count) => count == expected.len() && holds(&sheet, expected),
        Err(_) => false,
    }
}

#[test]
fn each_rule(rt: HostRuntime) {
    let (any, concat) = (Kind::Any, Kind::Concat);
    let (exact, atleast, atmost) = (Kind::Exact, Kind::Atleast, Kind::Atmost);
    let (up, down, flat) = (symbol(0), symbol(1), symbol(2));
    let nothing = node(any, 0, 0);
    // unnesting, doubles, single part
    assert!(rt;
        becomes(
            &[node(any, 0, 2), up, node(any, 0, 2), down, flat],
            &[node(any, 0, 3), up, down, flat],
        )
    );
    assert!(rt;
        becomes(
            &[node(concat, 0, 2), node(concat, 0, 2), up, up, down],
            &[node(concat, 0, 3), up, up, down],
        )
    );
    assert!(rt;
        becomes(
            &[node(any, 0, 3), up, down, up],
            &[node(any, 0, 2), up, down],
        )
    );
    assert!(rt; becomes(&[node(concat, 0, 1), up], &[up]));
    // dead sequence
    assert!(rt; becomes(&[node(concat, 0, 2), up, nothing], &[nothing]));
    // neighbours
    assert!(rt;
        becomes(
            &[
                node(concat, 0, 3),
                node(exact, 1, 1),
                up,
                node(atmost, 2, 1),
                up,
                down,
            ],
            &[node(concat, 0, 2), node(exact, 1, 1), up, down],
        )
    );
    assert!(rt;
        becomes(
            &[
                node(concat, 0, 2),
                node(atmost, 1, 1),
                up,
                node(exact, 2, 1),
                up,
            ],
            &[nothing],
        )
    );
    // nested repeats
    assert!(rt; becomes(&[node(exact, 2, 1), node(atmost, 1, 1), up], &[nothing]));
    assert!(rt;
        becomes(
            &[node(atleast, 1, 1), node(exact, 3, 1), up],
            &[node(exact, 3, 1), up],
        )
    );
}

// Two repeats of one part in an any, with another part between them.
fn alternatives(first: Node, second: Node) -> [Node; 6] {
    [
        node(Kind::Any, 0, 3),
        first,
        symbol(0),
        symbol(1),
        second,
        symbol(0),
    ]
}

fn make(first: Node, second: Node, one: Node) -> bool {
    becomes(
        &alternatives(first, second),
        &[node(Kind::Any, 0, 2), one, symbol(0), symbol(1)],
    )
}

fn stay(first: Node, second: Node) -> bool {
    let whole = alternatives(first, second);
    becomes(&whole, &whole)
}

#[test]
fn alternatives_make_one(rt: HostRuntime) {
    let (exact, atleast, atmost) = (Kind::Exact, Kind::Atleast, Kind::Atmost);
    let (l2, l3) = (node(atleast, 2, 1), node(atleast, 3, 1));
    let (m2, m3) = (node(atmost, 2, 1), node(atmost, 3, 1));
    assert!(rt; make(l3, l2, l2) && make(m2, m3, m3));
    assert!(rt; make(node(exact, 2, 1), l3, l2) && make(l3, node(exact, 2, 1), l2));
    assert!(rt; make(node(exact, 3, 1), m2, m3) && make(m2, node(exact, 3, 1), m3));
    assert!(rt; make(m2, l3, node(atleast, 0, 1)) && make(l2, m3, node(atleast, 0, 1)));
    assert!(rt; stay(node(exact, 1, 1), l3) && stay(node(exact, 4, 1), m2));
    assert!(rt; stay(m2, node(atleast, 4, 1)) && stay(node(exact, 1, 1), node(exact, 2, 1)));
}

#[test]
fn leaves_what_only_looks_alike(rt: HostRuntime) {
    let (up, down) = (symbol(0), symbol(1));
    // two in sequence are not exactly two
    assert!(rt;
        becomes(
            &[node(Kind::Concat, 0, 2), up, up],
            &[node(Kind::Concat, 0, 2), up, up],
        )
    );
    // with a window inside, a single repeat stays around its repeat
    let window = [
        node(Kind::Exact, 1, 1),
        node(Kind::Atleast, 2, 1),
        node(Kind::In, 3, 1),
        node(Kind::Noless, 1, 1),
        up,
    ];
    assert!(rt; becomes(&window, &window));
    let other = [
        node(Kind::Concat, 0, 2),
        node(Kind::Exact, 1, 1),
        up,
        node(Kind::Atmost, 2, 1),
        down,
    ];
    assert!(rt; becomes(&other, &other));
}

#[test]
fn one_rule_opens_the_way_for_another(rt: HostRuntime) {
    let (up, down) = (symbol(0), symbol(1));
    // neighbours, single part, alternatives, single part
    assert!(rt;
        becomes(
            &[
                node(Kind::Any, 0, 2),
                node(Kind::Exact, 0, 1),
                up,
                node(Kind::Concat, 0, 2),
                node(Kind::Atleast, 1, 1),
                up,
                node(Kind::Atmost, 1, 1),
                up,
            ],
            &[node(Kind::Atleast, 0, 1), up],
        )
    );
    // nested repeats make a dead sequence, which an any leaves out
    assert!(rt;
        becomes(
            &[
                node(Kind::Any, 0, 2),
                node(Kind::Concat, 0, 2),
                down,
                node(Kind::Exact, 2, 1),
                node(Kind::Exact, 1, 1),
                up,
                down,
            ],
            &[down],
        )
    );
    // counts in a window
    assert!(rt;
        becomes(
            &[
                node(Kind::In, 5, 1),
                node(Kind::And, 0, 2),
                node(Kind::Noless, 2, 1),
                up,
                node(Kind::And, 0, 1),
                node(Kind::Noless, 2, 1),
                up,
            ],
            &[node(Kind::In, 5, 1), node(Kind::Noless, 2, 1), up],
        )
    );
}

#[test]
fn takes_the_largest(rt: HostRuntime) {
    let mut wide = [symbol(3); 64];
    wide[0] = node(Kind::Any, 0, 63);
    assert!(rt; becomes(&wide, &[symbol(3)]));
    let mut deep = [node(Kind::Any, 0, 1); 16];
    deep[15] = symbol(31);
    assert!(rt; becomes(&deep, &[symbol(31)]));
}

#[test]
fn refuses(rt: HostRuntime) {
    let mut short = [symbol(0); 63];
    assert!(rt; matches!(tidy_records(1, &mut short), Err(TidyFault::Short)));
    let mut sheet = [symbol(32); 70];
    assert!(rt; matches!(tidy_records(1, &mut sheet), Err(TidyFault::Unbound)));
    assert!(rt; same_record(sheet[0], symbol(32)) && same_record(sheet[69], symbol(32)));
    let mut long = [symbol(0); 70];
    long[0] = node(Kind::Any, 0, 64);
    assert!(rt; matches!(tidy_records(65, &mut long), Err(TidyFault::Unbound)));
    assert!(rt; matches!(tidy_records(0, &mut long), Err(TidyFault::Unbound)));
}

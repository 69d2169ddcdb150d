//! Records at each limit of what a query must keep.

use super::*;

fn node(kind: Kind, number: u8, parts: u8) -> Node {
    Node {
        kind,
        number,
        parts,
        place: 0,
        length: 0,
    }
}

fn is_bound(records: &[Node]) -> bool {
    is_query(records, Stage::Bound(8))
}

fn symbol() -> Node {
    node(Kind::Symbol, 7, 0)
}

#[test]
fn counts_records(rt: HostRuntime) {
    let mut sheet = [symbol(); 65];
    sheet[0] = node(Kind::Any, 0, 63);
    // the whole with all of its parts, one part short, one record too many, none at all
    assert!(rt;
        is_bound(&sheet[0..64])
            && !is_bound(&sheet[0..63])
            && !is_bound(&sheet[0..65])
            && !is_bound(&sheet[0..0])
    );
    sheet[0] = node(Kind::Any, 0, 64);
    assert!(rt; !is_bound(&sheet[0..65]));
}

// So many levels: wholes of one part, one in another, around `last`.
fn nested(levels: usize, last: Node) -> bool {
    let mut sheet = [node(Kind::Any, 0, 1); 17];
    if levels == 0 || levels > 17 {
        return false;
    }
    sheet[levels - 1] = last;
    is_bound(&sheet[0..levels])
}

#[test]
fn counts_levels(rt: HostRuntime) {
    assert!(rt;
        nested(16, symbol()) && !nested(17, symbol()) && !nested(17, node(Kind::Any, 0, 0))
    );
}

#[test]
fn looks_at_words_until_bound(rt: HostRuntime) {
    let name = Node {
        kind: Kind::Symbol,
        number: 255,
        parts: 0,
        place: 4,
        length: 2,
    };
    let far = Node {
        kind: Kind::Symbol,
        number: 255,
        parts: 0,
        place: 65535,
        length: 65535,
    };
    // its word ends with the text, and behind it
    assert!(rt;
        is_query(&[name], Stage::Read(6))
            && !is_query(&[name], Stage::Read(5))
            && !is_query(&[far], Stage::Read(4096))
    );
    // not bound, and bound too early
    assert!(rt; !is_query(&[name], Stage::Bound(32)) && !is_query(&[symbol()], Stage::Read(6)));
    // symbol 7 of 8 and of 7
    assert!(rt; is_query(&[symbol()], Stage::Bound(8)) && !is_query(&[symbol()], Stage::Bound(7)));
}

// One to three wholes of one part, one in another, around a symbol.
#[derive(Clone, Copy)]
struct Case {
    wholes: [(Kind, u8); 3],
    count: usize,
    right: bool,
}

fn row(wholes: [(Kind, u8); 3], count: usize, right: bool) -> Case {
    Case {
        wholes,
        count,
        right,
    }
}

fn found(case: Case) -> bool {
    let [(first, m), (second, n), (third, o)] = case.wholes;
    let (first, second, third) = (node(first, m, 1), node(second, n, 1), node(third, o, 1));
    match case.count {
        1 => is_bound(&[first, symbol()]),
        2 => is_bound(&[first, second, symbol()]),
        _ => is_bound(&[first, second, third, symbol()]),
    }
}

#[test]
fn looks_at_kinds_and_numbers(rt: HostRuntime) {
    let no = (Kind::Symbol, 0);
    let table = [
        row([(Kind::Exact, 0), no, no], 1, true),
        row([(Kind::Exact, 255), no, no], 1, true),
        row([(Kind::Any, 1), no, no], 1, false),
        row([(Kind::Concat, 0), no, no], 1, true),
        row([(Kind::Symbol, 0), no, no], 1, false),
        row([(Kind::In, 1), (Kind::Precisely, 255), no], 2, true),
        row([(Kind::In, 255), (Kind::Noless, 0), no], 2, true),
        row([(Kind::In, 0), (Kind::Precisely, 1), no], 2, false),
        row(
            [(Kind::In, 3), (Kind::Inorder, 0), (Kind::Atmost, 4)],
            3,
            true,
        ),
        row([(Kind::In, 3), (Kind::And, 0), (Kind::Nomore, 4)], 3, true),
        row(
            [(Kind::In, 3), (Kind::Or, 0), (Kind::Precisely, 4)],
            3,
            true,
        ),
        row([(Kind::In, 3), (Kind::And, 1), (Kind::Nomore, 4)], 3, false),
        row([(Kind::In, 3), (Kind::Any, 0), (Kind::Any, 0)], 3, false),
        row([(Kind::In, 3), (Kind::And, 0), (Kind::Any, 0)], 3, false),
        row(
            [(Kind::In, 3), (Kind::And, 0), (Kind::Inorder, 0)],
            3,
            false,
        ),
        row(
            [(Kind::In, 3), (Kind::Inorder, 0), (Kind::Precisely, 4)],
            3,
            false,
        ),
        row([(Kind::Precisely, 0), no, no], 1, false),
        row([(Kind::Inorder, 0), no, no], 1, false),
        row([(Kind::And, 0), (Kind::Precisely, 0), no], 2, false),
        row([(Kind::Any, 0), (Kind::Precisely, 0), no], 2, false),
        row(
            [(Kind::Atleast, 0), (Kind::Or, 0), (Kind::Precisely, 0)],
            3,
            false,
        ),
    ];
    for c in table {
        assert_eq!(rt; found(c), c.right);
    }
    assert!(rt;
        is_bound(&[node(Kind::Any, 0, 0)])
            && !is_bound(&[node(Kind::Concat, 0, 0)])
            && !is_bound(&[node(Kind::Exact, 1, 2), symbol(), symbol()])
    );
}

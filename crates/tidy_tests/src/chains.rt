//! Rules that open the way for others.

use crate::sheet::each_becomes;

#[test]
fn repeats_that_meet(rt: HostRuntime) {
    each_becomes(
        &rt,
        &[
            // neighbours, single part, alternatives, single part
            (
                b"(any (exact 0 up) (concat (atleast 1 up) (atmost 1 up)))",
                b"(atleast 0 up)",
            ),
            // alternatives, twice: the first two of them leave a gap that the third closes
            (
                b"(any (exact 1 up) (atleast 3 up) (exact 2 up))",
                b"(atleast 1 up)",
            ),
            // neighbours, single part, unnesting, neighbours
            (
                b"(concat (concat down (exact 1 up)) (concat (atmost 2 up) (exact 0 up)))",
                b"(concat down (exact 1 up))",
            ),
            // doubles, single part, nested repeats
            (
                b"(exact 1 (any (exact 2 up) (exact 2 up)))",
                b"(exact 2 up)",
            ),
            // nested repeats, doubles
            (
                b"(any (atleast 1 (exact 2 up)) (exact 2 up) down)",
                b"(any (exact 2 up) down)",
            ),
        ],
    );
}

#[test]
fn what_fits_nothing_goes(rt: HostRuntime) {
    each_becomes(
        &rt,
        &[
            // nested repeats, dead sequence, unnesting, single part
            (b"(any (concat down (exact 2 (exact 1 up))) down)", b"down"),
            // neighbours, unnesting
            (
                b"(any up (concat (exact 1 up) (exact 1 up)) down)",
                b"(any up down)",
            ),
            // a repeat may be null, and a count may be 0, so what fits nothing stays in them
            (b"(atmost 2 (concat up (any)))", b"(atmost 2 (any))"),
            (
                b"(in 5 (nomore 1 (concat up (any))))",
                b"(in 5 (nomore 1 (any)))",
            ),
            // single part, unnesting, dead sequence
            (b"(concat up (any (any) (any (any))))", b"(any)"),
        ],
    );
}

#[test]
fn in_a_window(rt: HostRuntime) {
    each_becomes(
        &rt,
        &[
            // single part, doubles, single part
            (
                b"(in 5 (and (noless 2 up) (and (noless 2 up))))",
                b"(in 5 (noless 2 up))",
            ),
            // unnesting, doubles
            (
                b"(in 5 (or (noless 2 up) (or (nomore 1 down) (noless 2 up))))",
                b"(in 5 (or (noless 2 up) (nomore 1 down)))",
            ),
            // in the parts of a window inside a window
            (
                b"(in 9 (inorder (concat up) (in 4 (and (precisely 1 (any down down))))))",
                b"(in 9 (inorder up (in 4 (precisely 1 down))))",
            ),
        ],
    );
}

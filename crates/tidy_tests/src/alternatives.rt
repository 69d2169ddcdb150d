//! Two repeats of one part in an any, in either order, next to each other or not.

use crate::sheet::{all_stay, each_becomes};

#[test]
fn of_one_kind(rt: HostRuntime) {
    each_becomes(
        &rt,
        &[
            (b"(any (atleast 3 up) (atleast 2 up))", b"(atleast 2 up)"),
            (b"(any (atleast 2 up) (atleast 3 up))", b"(atleast 2 up)"),
            (
                b"(any (atleast 255 up) down (atleast 0 up))",
                b"(any (atleast 0 up) down)",
            ),
            (
                b"(any (atleast 0 up) down (atleast 255 up))",
                b"(any (atleast 0 up) down)",
            ),
            (b"(any (atmost 3 up) (atmost 2 up))", b"(atmost 3 up)"),
            (b"(any (atmost 2 up) (atmost 3 up))", b"(atmost 3 up)"),
            (
                b"(any (atmost 255 up) down (atmost 0 up))",
                b"(any (atmost 255 up) down)",
            ),
            (
                b"(any (atmost 0 up) down (atmost 255 up))",
                b"(any (atmost 255 up) down)",
            ),
        ],
    );
}

#[test]
fn exact_and_atleast(rt: HostRuntime) {
    each_becomes(
        &rt,
        &[
            (b"(any (exact 2 up) (atleast 3 up))", b"(atleast 2 up)"),
            (b"(any (atleast 3 up) (exact 2 up))", b"(atleast 2 up)"),
            (
                b"(any (exact 0 up) down (atleast 1 up))",
                b"(any (atleast 0 up) down)",
            ),
            (
                b"(any (atleast 1 up) down (exact 0 up))",
                b"(any (atleast 0 up) down)",
            ),
            (
                b"(any (exact 3 up) down (atleast 3 up))",
                b"(any (atleast 3 up) down)",
            ),
            (
                b"(any (atleast 3 up) down (exact 7 up))",
                b"(any (atleast 3 up) down)",
            ),
            (
                b"(any (exact 254 up) (atleast 255 up))",
                b"(atleast 254 up)",
            ),
            (b"(any (atleast 0 up) (exact 255 up))", b"(atleast 0 up)"),
        ],
    );
}

#[test]
fn exact_and_atmost(rt: HostRuntime) {
    each_becomes(
        &rt,
        &[
            (b"(any (exact 3 up) (atmost 2 up))", b"(atmost 3 up)"),
            (b"(any (atmost 2 up) (exact 3 up))", b"(atmost 3 up)"),
            (
                b"(any (exact 1 up) down (atmost 0 up))",
                b"(any (atmost 1 up) down)",
            ),
            (
                b"(any (atmost 0 up) down (exact 1 up))",
                b"(any (atmost 1 up) down)",
            ),
            (
                b"(any (exact 2 up) down (atmost 2 up))",
                b"(any (atmost 2 up) down)",
            ),
            (
                b"(any (atmost 7 up) down (exact 0 up))",
                b"(any (atmost 7 up) down)",
            ),
            (b"(any (exact 255 up) (atmost 254 up))", b"(atmost 255 up)"),
            (b"(any (atmost 255 up) (exact 255 up))", b"(atmost 255 up)"),
        ],
    );
}

#[test]
fn atmost_and_atleast(rt: HostRuntime) {
    each_becomes(
        &rt,
        &[
            (b"(any (atmost 2 up) (atleast 3 up))", b"(atleast 0 up)"),
            (b"(any (atleast 3 up) (atmost 2 up))", b"(atleast 0 up)"),
            (
                b"(any (atmost 4 up) down (atleast 2 up))",
                b"(any (atleast 0 up) down)",
            ),
            (
                b"(any (atleast 2 up) down (atmost 4 up))",
                b"(any (atleast 0 up) down)",
            ),
            (b"(any (atmost 254 up) (atleast 255 up))", b"(atleast 0 up)"),
            (b"(any (atleast 0 up) (atmost 0 up))", b"(atleast 0 up)"),
        ],
    );
}

#[test]
fn with_a_gap_between_their_numbers(rt: HostRuntime) {
    all_stay(
        &rt,
        &[
            b"(any (exact 1 up) (atleast 3 up))",
            b"(any (atleast 3 up) down (exact 1 up))",
            b"(any (exact 4 up) (atmost 2 up))",
            b"(any (atmost 2 up) down (exact 4 up))",
            b"(any (atmost 2 up) (atleast 4 up))",
            b"(any (atleast 4 up) down (atmost 2 up))",
            b"(any (exact 1 up) (exact 2 up))",
            b"(any (exact 0 up) (atleast 255 up))",
            b"(any (atmost 253 up) (atleast 255 up))",
        ],
    );
}

#[test]
fn of_different_parts(rt: HostRuntime) {
    all_stay(
        &rt,
        &[
            b"(any (exact 2 up) (atleast 3 down))",
            b"(any (atleast 2 (any up down)) (atleast 2 (any down up)))",
            b"(any (atmost 2 (in 3 (noless 1 up))) (atmost 2 (in 4 (noless 1 up))))",
            b"(any (atleast 2 (concat up down)) (atleast 2 (concat up down up)))",
            b"(any (atmost 1 up) (concat (atmost 2 up) down))",
        ],
    );
}

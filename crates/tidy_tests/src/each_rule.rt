//! Each rule by itself.

use crate::sheet::{all_become, each_becomes};

#[test]
fn unnesting(rt: HostRuntime) {
    each_becomes(
        &rt,
        &[
            (b"(any up (any down stable))", b"(any up down stable)"),
            (
                b"(any (any up down) (any stable zero))",
                b"(any up down stable zero)",
            ),
            (b"(any up (any) down)", b"(any up down)"),
            (b"(concat (concat up up) down)", b"(concat up up down)"),
            (
                b"(in 5 (and (noless 1 up) (and (nomore 2 down) (noless 1 down))))",
                b"(in 5 (and (noless 1 up) (nomore 2 down) (noless 1 down)))",
            ),
            (
                b"(in 5 (or (or (precisely 2 up) (nomore 1 up)) (noless 3 down)))",
                b"(in 5 (or (precisely 2 up) (nomore 1 up) (noless 3 down)))",
            ),
        ],
    );
}

#[test]
fn doubles(rt: HostRuntime) {
    each_becomes(
        &rt,
        &[
            (b"(any up down up)", b"(any up down)"),
            (b"(any up up down)", b"(any up down)"),
            (
                b"(any (concat up (exact 2 down)) up (concat up (exact 2 down)))",
                b"(any (concat up (exact 2 down)) up)",
            ),
            (
                b"(in 5 (and (noless 2 up) (nomore 3 down) (noless 2 up)))",
                b"(in 5 (and (noless 2 up) (nomore 3 down)))",
            ),
            (
                b"(in 5 (or (noless 2 up) (nomore 3 down) (nomore 3 down)))",
                b"(in 5 (or (noless 2 up) (nomore 3 down)))",
            ),
        ],
    );
}

#[test]
fn single_part(rt: HostRuntime) {
    each_becomes(
        &rt,
        &[
            (b"(any up)", b"up"),
            (b"(concat up)", b"up"),
            (
                b"(exact 2 (concat (any up down)))",
                b"(exact 2 (any up down))",
            ),
            (b"(in 5 (and (noless 2 up)))", b"(in 5 (noless 2 up))"),
            (b"(in 5 (or (noless 2 up)))", b"(in 5 (noless 2 up))"),
        ],
    );
}

#[test]
fn dead_sequence(rt: HostRuntime) {
    all_become(
        &rt,
        b"(any)",
        &[
            b"(concat up (any))",
            b"(concat (any) up)",
            b"(concat up (any) down)",
            b"(concat (any) (any))",
        ],
    );
}

#[test]
fn neighbours_of_which_the_second_goes(rt: HostRuntime) {
    each_becomes(
        &rt,
        &[
            (
                b"(concat (exact 1 up) (atmost 2 up) down)",
                b"(concat (exact 1 up) down)",
            ),
            (
                b"(concat (exact 2 up) (exact 0 up) down)",
                b"(concat (exact 2 up) down)",
            ),
            (
                b"(concat down (exact 0 up) (atleast 0 up))",
                b"(concat down (exact 0 up))",
            ),
            (
                b"(concat down (atleast 1 up) (exact 0 up))",
                b"(concat down (atleast 1 up))",
            ),
            (
                b"(concat (atleast 2 up) (atmost 2 up) down)",
                b"(concat (atleast 2 up) down)",
            ),
            (
                b"(concat (atmost 1 up) (atleast 0 up) down)",
                b"(concat (atmost 1 up) down)",
            ),
            (
                b"(concat down (atmost 2 (concat up down)) (atmost 255 (concat up down)))",
                b"(concat down (atmost 2 (concat up down)))",
            ),
        ],
    );
}

#[test]
fn neighbours_that_fit_nothing(rt: HostRuntime) {
    all_become(
        &rt,
        b"(any)",
        &[
            b"(concat (atmost 1 up) (exact 2 up))",
            b"(concat (atmost 0 up) (exact 2 up))",
            b"(concat (exact 0 up) (atleast 1 up))",
            b"(concat down (atleast 2 up) (exact 1 up))",
            b"(concat (atleast 0 up) (atleast 255 up) down)",
            b"(concat (exact 1 up) (exact 1 up))",
            b"(concat (exact 1 (in 3 (noless 1 up))) (exact 1 (in 3 (noless 1 up))))",
        ],
    );
}

#[test]
fn nested_repeats_that_fit_nothing(rt: HostRuntime) {
    all_become(
        &rt,
        b"(any)",
        &[
            b"(exact 2 (atmost 1 up))",
            b"(exact 2 (exact 0 up))",
            b"(exact 255 (atleast 3 up))",
            b"(atleast 2 (exact 1 up))",
            b"(atleast 3 (atleast 0 up))",
            b"(atleast 2 (atmost 255 up))",
            b"(exact 2 (exact 1 (in 3 (noless 1 up))))",
        ],
    );
}

#[test]
fn nested_repeats_that_are_one(rt: HostRuntime) {
    each_becomes(
        &rt,
        &[
            (b"(exact 1 (exact 3 up))", b"(exact 3 up)"),
            (b"(exact 1 (atleast 1 up))", b"(atleast 1 up)"),
            (b"(atleast 1 (exact 1 up))", b"(exact 1 up)"),
            (b"(atleast 1 (atleast 255 up))", b"(atleast 255 up)"),
            (
                b"(exact 1 (atleast 2 (concat up (any down stable))))",
                b"(atleast 2 (concat up (any down stable)))",
            ),
        ],
    );
}

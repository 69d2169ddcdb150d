//! Queries that only look as if a rule applied.

use crate::sheet::all_stay;

#[test]
fn wholes_in_wholes_of_another_kind(rt: HostRuntime) {
    all_stay(
        &rt,
        &[
            b"up",
            b"(any)",
            b"(any up (concat down stable))",
            b"(concat (any up down) up)",
            b"(in 5 (and (noless 1 up) (or (noless 2 down) (nomore 1 up))))",
            b"(in 5 (inorder up))",
            b"(in 5 (inorder (any)))",
        ],
    );
}

#[test]
fn equal_parts_whose_number_counts(rt: HostRuntime) {
    all_stay(
        &rt,
        &[
            b"(concat up up)",
            b"(concat (any up down) (any up down))",
            b"(in 5 (inorder up up))",
            b"(in 5 (inorder (exact 1 up) (atmost 1 up)))",
            b"(in 5 (and (noless 1 up) (noless 2 up)))",
        ],
    );
}

#[test]
fn repeats_that_are_no_neighbours(rt: HostRuntime) {
    all_stay(
        &rt,
        &[
            b"(concat (exact 1 up) (atmost 2 down))",
            b"(concat (exact 1 up) down (atmost 2 up))",
            b"(concat up (exact 1 up))",
            b"(concat (exact 1 up) (any (atmost 2 up) down))",
            b"(any (exact 1 up) (exact 2 up))",
        ],
    );
}

#[test]
fn repeats_of_repeats_that_may_be_null(rt: HostRuntime) {
    all_stay(
        &rt,
        &[
            b"(exact 1 (atmost 2 up))",
            b"(atleast 1 (atmost 2 up))",
            b"(exact 1 (exact 0 up))",
            b"(atleast 1 (atleast 0 up))",
            b"(exact 0 (exact 2 up))",
            b"(atleast 0 (atleast 2 up))",
        ],
    );
}

#[test]
fn repeats_of_repeats_that_a_window_or_an_atmost_keeps(rt: HostRuntime) {
    all_stay(
        &rt,
        &[
            b"(exact 1 (atleast 2 (in 3 (noless 1 up))))",
            b"(atleast 1 (exact 2 (in 3 (inorder up))))",
            b"(exact 1 (exact 2 (concat up (any down (in 3 (noless 1 up))))))",
            b"(atmost 1 (exact 2 up))",
            b"(atmost 2 (atmost 1 up))",
            b"(exact 2 (any (exact 1 up) down))",
            b"(exact 2 (in 3 (noless 1 (exact 1 up))))",
        ],
    );
}

//! The largest queries.

use crate::sheet::each_becomes;

#[test]
fn with_64_records(rt: HostRuntime) {
    each_becomes(
        &rt,
        &[
            (
                b"(any up up up up up up up up up up up up up up up up up up up up up up up up up up up up up up up up up up up up up up up up up up up up up up up up up up up up up up up up up up up up up up up)",
                b"up",
            ),
            (
                b"(any (atmost 0 up) (atmost 1 up) (atmost 2 up) (atmost 3 up) (atmost 4 up) (atmost 5 up) (atmost 6 up) (atmost 7 up) (atmost 8 up) (atmost 9 up) (atmost 10 up) (atmost 11 up) (atmost 12 up) (atmost 13 up) (atmost 14 up) (atmost 15 up) (atmost 16 up) (atmost 17 up) (atmost 18 up) (atmost 19 up) (atmost 20 up) (atmost 21 up) (atmost 22 up) (atmost 23 up) (atmost 24 up) (atmost 25 up) (atmost 26 up) (atmost 27 up) (atmost 28 up) (atmost 29 up) (atmost 30 up) down)",
                b"(any (atmost 30 up) down)",
            ),
            (
                b"(concat up up up up up up up up up up up up up up up up up up up up up up up up up up up up up up up up up up up up up up up up up up up up up up up up up up up up up up up up up up up up up up up)",
                b"(concat up up up up up up up up up up up up up up up up up up up up up up up up up up up up up up up up up up up up up up up up up up up up up up up up up up up up up up up up up up up up up up up)",
            ),
        ],
    );
}

#[test]
fn with_16_levels(rt: HostRuntime) {
    each_becomes(
        &rt,
        &[
            (
                b"(any (any (any (any (any (any (any (any (any (any (any (any (any (any (any up)))))))))))))))",
                b"up",
            ),
            (
                b"(any up (concat up (any up (concat up (any up (concat up (any up (concat up (any up (concat up (any up (concat up (any up (concat up (any down down)))))))))))))))",
                b"(any up (concat up (any up (concat up (any up (concat up (any up (concat up (any up (concat up (any up (concat up (any up (concat up down))))))))))))))",
            ),
            (
                b"(any up (concat up (any up (concat up (any up (concat up (any up (concat up (any up (concat up (any up (concat up (any up (concat up (any up down)))))))))))))))",
                b"(any up (concat up (any up (concat up (any up (concat up (any up (concat up (any up (concat up (any up (concat up (any up (concat up (any up down)))))))))))))))",
            ),
        ],
    );
}

//! Tables by hand, whose least costs a program in Python found among all orders.

use crate::every_order::answer;

// No way leads there.
const NO: u64 = u64::MAX;

// Places along a line, which can be walked in both directions.
fn line(places: [u64; 10]) -> [u64; 100] {
    let mut numbers = [0; 100];
    for (at, number) in numbers.iter_mut().enumerate() {
        *number = places[at / 10].abs_diff(places[at % 10]);
    }
    numbers
}

// Places on a ring, which can be walked towards the lower number alone, and on from the first to the last.
fn ring() -> [u64; 100] {
    let mut numbers = [0; 100];
    for (at, number) in numbers.iter_mut().enumerate() {
        *number = (at as u64 / 10 + 10 - at as u64 % 10) % 10;
    }
    numbers
}

#[test]
fn small_tables(rt: HostRuntime) {
    for (found, wanted) in [
        (answer(1, &[0, 3, 1, 5, 0, 4, 6, 7, 0]), Some(7)),
        (
            answer(2, &[0, 9, 2, 1, 1, 0, 9, 3, 9, 4, 0, 9, 1, 1, 1, 0]),
            Some(9),
        ),
        // Always the nearest next would cost 13.
        (
            answer(2, &[0, 2, 3, 9, 9, 0, 10, 2, 9, 1, 0, 1, 9, 9, 9, 0]),
            Some(6),
        ),
        // Without the last leg the other order would cost less.
        (
            answer(2, &[0, 1, 5, 9, 9, 0, 1, 1, 9, 5, 0, 100, 9, 9, 9, 0]),
            Some(11),
        ),
        // Read from the second place to the first, this would cost 7.
        (
            answer(
                3,
                &[
                    0, 4, 1, 7, 1, 2, 0, 6, 3, 8, 5, 2, 0, 9, 4, 1, 8, 2, 0, 6, 1, 1, 1, 1, 0,
                ],
            ),
            Some(12),
        ),
        // One pair has no cost.
        (
            answer(
                3,
                &[
                    0, 1, 5, 5, 1, 9, 0, NO, 2, 9, 9, 9, 0, 9, 1, 9, 9, 2, 0, 9, 1, 9, 9, 9, 0,
                ],
            ),
            Some(6),
        ),
        // The same stop twice.
        (
            answer(2, &[0, 2, 2, 9, 2, 0, 0, 7, 2, 0, 0, 7, 9, 7, 7, 0]),
            Some(9),
        ),
    ] {
        assert!(rt; found == wanted);
    }
}

#[test]
fn no_order(rt: HostRuntime) {
    // Nothing leads to a stop, to the end, or away from the start; or each order lacks another leg.
    for found in [
        answer(2, &[0, 1, NO, 1, 1, 0, NO, 1, 1, 1, 0, 1, 1, 1, 1, 0]),
        answer(2, &[0, 1, 1, 1, 1, 0, 1, NO, 1, 1, 0, NO, 1, 1, 1, 0]),
        answer(2, &[0, NO, NO, 1, 1, 0, 1, 1, 1, 1, 0, 1, 1, 1, 1, 0]),
        answer(2, &[0, 1, NO, 1, 1, 0, 2, 1, 1, 1, 0, NO, 1, 1, 1, 0]),
    ] {
        assert!(rt; found == None);
    }
}

#[test]
fn eight_stops(rt: HostRuntime) {
    for (found, wanted) in [
        // The order given would cost 410.
        (
            answer(8, &line([0, 80, 10, 70, 20, 60, 30, 50, 40, 90])),
            Some(90),
        ),
        (answer(8, &ring()), Some(11)),
        (answer(8, &[0; 100]), Some(0)),
        (
            answer(8, &[4_398_046_511_103; 100]),
            Some(39_582_418_599_927),
        ),
    ] {
        assert!(rt; found == wanted);
    }
}

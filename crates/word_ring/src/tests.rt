use crate::laws::laws;
use crate::{Lin, centred, combine, mod_switch, round_to, rows, wadd, wmul, wneg, word_of, wsub};

/// The word of -1.
const MINUS_ONE: u64 = 0xffff_ffff_ffff_ffff;

/// The greatest word whose centred number is positive, and the least whose is negative.
const GREATEST: u64 = 0x7fff_ffff_ffff_ffff;

const LEAST: u64 = 0x8000_0000_0000_0000;

#[test]
fn operations_wrap(rt: HostRuntime) {
    // a, b, a + b, a - b, a * b
    for (a, b, sum, difference, product) in [
        (0, 1, 1, MINUS_ONE, 0),
        (1, MINUS_ONE, 0, 2, MINUS_ONE),
        (GREATEST, GREATEST, 18446744073709551614, 0, 1),
        (LEAST, LEAST, 0, 0, 0),
        (LEAST, GREATEST, MINUS_ONE, 1, LEAST),
        (
            GREATEST,
            MINUS_ONE,
            9223372036854775806,
            LEAST,
            9223372036854775809,
        ),
        (MINUS_ONE, MINUS_ONE, 18446744073709551614, 0, 1),
    ] {
        assert_eq!(rt; wadd(a, b), sum, "{a} + {b}");
        assert_eq!(rt; wsub(a, b), difference, "{a} - {b}");
        assert_eq!(rt; wmul(a, b), product, "{a} * {b}");
    }
}

#[test]
fn signs(rt: HostRuntime) {
    // w, -w, and w in [-2^63, 2^63)
    for (w, negation, number) in [
        (0, 0, 0),
        (1, MINUS_ONE, 1),
        (GREATEST, 9223372036854775809, 9223372036854775807),
        (LEAST, LEAST, -9223372036854775808),
        (MINUS_ONE, 1, -1),
    ] {
        assert_eq!(rt; wneg(w), negation, "-{w}");
        assert_eq!(rt; centred(w), number, "centred {w}");
        assert_eq!(rt; word_of(number), w, "the word of {number}");
    }
}

#[test]
fn words_are_rows(rt: HostRuntime) {
    let mut word: u64 = 5;
    word.known();
    assert!(rt; word.fits(&7));
    word.add_assign(&MINUS_ONE);
    assert_eq!(rt; word, 4);
    word.sub_assign(&6);
    assert_eq!(rt; word, 18446744073709551614);
    word.scale_assign(MINUS_ONE);
    assert_eq!(rt; word, 2);
    word.add_scaled(&3, MINUS_ONE);
    assert_eq!(rt; word, MINUS_ONE);
    word.zero_assign();
    assert_eq!(rt; word, 0);
}

#[test]
fn weighted_sums(rt: HostRuntime) {
    let values = [100u64, 7, 3];
    let mut into: u64 = 10;
    combine(&mut into, &[], &[], &values);
    assert_eq!(rt; into, 10);
    combine(&mut into, &[MINUS_ONE], &[1], &values);
    assert_eq!(rt; into, 3);
    combine(&mut into, &[2, MINUS_ONE, MINUS_ONE], &[1, 0, 2], &values);
    // 3 + 2 * 7 - 100 - 3
    assert_eq!(rt; into, 18446744073709551530);
}

#[test]
fn laws_are_free() {
    laws();
}

#[test]
fn rounding_takes_ties_up(rt: HostRuntime) {
    // w, base, level, the nearest multiple of 2^(64 - base*level)
    for (w, base, level, nearest) in [
        (0, 4, 1, 0),
        (576460752303423487, 4, 1, 0),
        (576460752303423488, 4, 1, 1152921504606846976),
        (LEAST, 4, 1, LEAST),
        (1729382256910270464, 4, 2, 1729382256910270464),
        (MINUS_ONE, 4, 2, 0),
        // a step of 2^63
        (4611686018427387903, 1, 1, 0),
        (4611686018427387904, 1, 1, LEAST),
        (13835058055282163711, 1, 1, LEAST),
        (13835058055282163712, 1, 1, 0),
        // a step of 2
        (1, 63, 1, 2),
        (1, 1, 63, 2),
        (18446744073709551613, 21, 3, 18446744073709551614),
        (MINUS_ONE, 1, 63, 0),
        // a step of 4
        (1, 31, 2, 0),
        (2, 31, 2, 4),
        (18446744073709551613, 31, 2, 18446744073709551612),
        (18446744073709551614, 31, 2, 0),
    ] {
        assert!(rt; 1 <= base && base <= 63 && 1 <= level && level <= 63);
        assert!(rt; base * level <= 63);
        assert_eq!(rt; round_to(w, base, level), nearest, "{w} {base} {level}");
    }
}

#[test]
fn switching_takes_ties_up(rt: HostRuntime) {
    // w, log_n, the nearest of 2^(log_n + 1) places
    for (w, log_n, place) in [
        (0, 1, 0),
        (2305843009213693951, 1, 0),
        (2305843009213693952, 1, 1),
        (16140901064495857663, 1, 3),
        (16140901064495857664, 1, 0),
        (MINUS_ONE, 1, 0),
        (8034421735228964864, 8, 223),
        (8070450532247928832, 8, 224),
        (18392700878181105664, 8, 511),
        (562949953421311, 13, 0),
        (562949953421312, 13, 1),
        (18446181123756130303, 13, 16383),
        (18446181123756130304, 13, 0),
    ] {
        assert!(rt; 1 <= log_n && log_n <= 13);
        assert_eq!(rt; mod_switch(w, log_n), place, "{w} {log_n}");
    }
}

#[test]
fn rows_go_word_by_word(rt: HostRuntime) {
    let other = [MINUS_ONE, 2, LEAST];
    let mut row = [5, 7, LEAST];
    rows::known(&row);
    rows::add(&mut row, &other);
    assert_eq!(rt; row, [4, 9, 0]);
    rows::subtract(&mut row, &other);
    assert_eq!(rt; row, [5, 7, LEAST]);
    rows::scale(&mut row, MINUS_ONE);
    assert_eq!(rt; row, [18446744073709551611, 18446744073709551609, LEAST]);
    rows::add_scaled(&mut row, &other, 3);
    assert_eq!(rt; row, [18446744073709551608, MINUS_ONE, 0]);
    rows::subtract_scaled(&mut row, &other, 3);
    assert_eq!(rt; row, [18446744073709551611, 18446744073709551609, LEAST]);
    rows::set_negated(&mut row, &other);
    assert_eq!(rt; row, [1, 18446744073709551614, LEAST]);
    rows::clear(&mut row);
    assert_eq!(rt; row, [0, 0, 0]);
}

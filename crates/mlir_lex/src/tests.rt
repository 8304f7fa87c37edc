use super::*;
use TokenKind::{Int, Sign, Symbol, Text, TypeName, Value, Word};
use std::test::Fail;

/// Three arguments, a weighted sum and a table of squares.
const WEIGHTED_SUM: &str = r#"module {
  func.func @main(%arg0: !FHE.eint<4> {fhec.range = [0, 3]}, %arg1: !FHE.eint<4> {fhec.range = [0, 3]}, %arg2: !FHE.eint<4> {fhec.range = [0, 2]}) -> !FHE.eint<4> {
    %c2_i5 = arith.constant 2 : i5
    %c3_i5 = arith.constant 3 : i5
    %0 = "FHE.mul_eint_int"(%arg1, %c2_i5) : (!FHE.eint<4>, i5) -> !FHE.eint<4>
    %1 = "FHE.mul_eint_int"(%arg2, %c3_i5) : (!FHE.eint<4>, i5) -> !FHE.eint<4>
    %2 = "FHE.add_eint"(%arg0, %0) : (!FHE.eint<4>, !FHE.eint<4>) -> !FHE.eint<4>
    %3 = "FHE.add_eint"(%2, %1) : (!FHE.eint<4>, !FHE.eint<4>) -> !FHE.eint<4>
    %cst = arith.constant dense<[0, 1, 4, 9, 0, 9, 4, 1, 0, 1, 4, 9, 0, 9, 4, 1]> : tensor<16xi64>
    %4 = "FHE.apply_lookup_table"(%3, %cst) : (!FHE.eint<4>, tensor<16xi64>) -> !FHE.eint<4>
    return %4 : !FHE.eint<4>
  }
}
"#;

/// A text, the kind, start and end of each of its tokens, and the place where they stop.
type Row = (&'static [u8], &'static [(TokenKind, u32, u32)], Option<u32>);

const ROWS: [Row; 42] = [
    (b"", &[], None),
    (b"16xi64", &[(Int, 0, 2), (Word, 2, 6)], None),
    (b"->", &[(Sign, 0, 2)], None),
    (b"<->", &[(Sign, 0, 1), (Sign, 1, 3)], None),
    (b"-", &[], Some(0)),
    (b"- >", &[], Some(0)),
    (b"-/", &[], Some(0)),
    (b"-5", &[(Int, 0, 2)], None),
    (b"--5", &[], Some(0)),
    (b"5-5", &[(Int, 0, 1), (Int, 1, 3)], None),
    (b"%a-b", &[(Value, 0, 4)], None),
    (b"%0", &[(Value, 0, 2)], None),
    (b"%-", &[(Value, 0, 2)], None),
    (b"%", &[], Some(0)),
    (b"x %", &[(Word, 0, 1)], Some(2)),
    (b"@x", &[(Symbol, 0, 2)], None),
    (b"@_.$", &[(Symbol, 0, 4)], None),
    (b"@1", &[], Some(0)),
    (b"!FHE.eint", &[(TypeName, 0, 9)], None),
    (b"!", &[], Some(0)),
    (b"a.b$c_d", &[(Word, 0, 7)], None),
    (b"_", &[(Word, 0, 1)], None),
    (b"$", &[], Some(0)),
    (b"\"a\"", &[(Text, 0, 3)], None),
    (b"\"\"", &[(Text, 0, 2)], None),
    (b"\"a//b\"", &[(Text, 0, 6)], None),
    (b"\"~ !\"", &[(Text, 0, 5)], None),
    (b"\"a\\\"", &[], Some(0)),
    (b"\"\x7f\"", &[], Some(0)),
    (b"\"a\n\"", &[], Some(0)),
    (b"x = \"", &[(Word, 0, 1), (Sign, 2, 3)], Some(4)),
    (b"// end", &[], None),
    (b"a// b", &[(Word, 0, 1)], None),
    (b"a/ b", &[(Word, 0, 1)], Some(1)),
    (b"//\nb", &[(Word, 3, 4)], None),
    (b"a//->\n//b\n->", &[(Word, 0, 1), (Sign, 10, 12)], None),
    (b"//\x00\xff\na", &[(Word, 5, 6)], None),
    (b"\x00", &[], Some(0)),
    (b"a\xff", &[(Word, 0, 1)], Some(1)),
    (
        b"a\r\nb\t c",
        &[(Word, 0, 1), (Word, 3, 4), (Word, 6, 7)],
        None,
    ),
    (b"()", &[(Sign, 0, 1), (Sign, 1, 2)], None),
    (b"{}]", &[(Sign, 0, 1), (Sign, 1, 2), (Sign, 2, 3)], None),
];

#[test]
fn reads_rows(rt: HostRuntime) -> Result<(), Fail> {
    for (text, expected, stop) in ROWS {
        assert!(rt; text.len() <= 1 << 20);
        let found = lex(rt.alloc(), text)?;
        assert_eq!(rt; found.list.len(), expected.len(), "{text:?}");
        for (token, (kind, start, end)) in found.list.as_slice().iter().zip(expected) {
            assert_eq!(rt;
                (token.kind, token.start, token.end),
                (*kind, *start, *end),
                "{text:?}"
            );
        }
        assert_eq!(rt; found.stop.map(|fault| fault.at), stop, "{text:?}");
    }
    Ok(())
}

#[test]
fn counts_the_weighted_sum(rt: HostRuntime) -> Result<(), Fail> {
    let text = WEIGHTED_SUM.as_bytes();
    assert!(rt; text.len() <= 1 << 20);
    let found = lex(rt.alloc(), text)?;
    assert_eq!(rt; found.list.len(), 245);
    assert_eq!(rt; found.stop, None);
    Ok(())
}

/// Each text has 2^20 bytes: one byte that begins it, and then copies of another.
#[test]
fn reads_long_texts_in_one_pass(rt: HostRuntime) -> Result<(), Fail> {
    for (first, rest, count, stop) in [
        (b'/', b'/', 0, None),
        (b'a', b'a', 1, None),
        (b'1', b'1', 1, None),
        (b'%', b'-', 1, None),
        (b'"', b'a', 0, Some(0)),
        (b'(', b')', 1 << 20, None),
        (b' ', b' ', 0, None),
        (b'a', b'"', 1 << 19, Some((1 << 20) - 1)),
    ] {
        let mut text = vec![in rt.alloc(); rest; 1 << 20]?;
        assert_eq!(rt; text.len(), 1 << 20);
        text[0] = first;
        let found = lex(rt.alloc(), &text)?;
        assert_eq!(rt; found.list.len(), count);
        assert_eq!(rt; found.stop.map(|fault| fault.at), stop);
    }
    Ok(())
}

#[test]
fn laws_hold_of_all_texts() {
    laws::laws();
}

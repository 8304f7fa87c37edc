//! Worked programs and tables, with the circuits and certificates that they come to.
//!
//! The circuits are made by hand, and the certificates by `docs/certificate.py`.

/// One choice.
const TABLE_A: &str = "[cost]
switch = 1
boot = 1
lin = 1

[[glwe]]
k = 1
log_n = 8
ones = 4
error = 1024

[[lwe]]
n = 8
ones = 2
error = 1048576

[[boot]]
base = 8
level = 4

[[switch]]
base = 4
level = 6
";

/// The same with a smaller ring beside.
const TABLE_B: &str = "[cost]
switch = 1
boot = 1
lin = 1

[[glwe]]
k = 1
log_n = 8
ones = 4
error = 1024

[[glwe]]
k = 1
log_n = 4
ones = 4
error = 1024

[[lwe]]
n = 8
ones = 2
error = 1048576

[[boot]]
base = 8
level = 4

[[switch]]
base = 4
level = 6
";

/// One choice of a large ring.
const TABLE_C: &str = "[cost]
switch = 1
boot = 1
lin = 1

[[glwe]]
k = 1
log_n = 10
ones = 32
error = 131072

[[lwe]]
n = 128
ones = 24
error = 1073741824

[[boot]]
base = 12
level = 2

[[switch]]
base = 4
level = 4
";

/// The smaller ring alone.
const TABLE_OF_SMALL_RING: &str = "[cost]
switch = 1
boot = 1
lin = 1

[[glwe]]
k = 1
log_n = 4
ones = 4
error = 1024

[[lwe]]
n = 8
ones = 2
error = 1048576

[[boot]]
base = 8
level = 4

[[switch]]
base = 4
level = 6
";

/// One choice with too large an error.
const TABLE_OF_LARGE_ERROR: &str = "[cost]
switch = 1
boot = 1
lin = 1

[[glwe]]
k = 1
log_n = 8
ones = 4
error = 1024

[[lwe]]
n = 8
ones = 2
error = 2305843009213693952

[[boot]]
base = 8
level = 4

[[switch]]
base = 4
level = 6
";

/// Two choices of one cost.
const TABLE_OF_EQUALS: &str = "[cost]
switch = 1
boot = 1
lin = 1

[[glwe]]
k = 1
log_n = 8
ones = 4
error = 1024

[[glwe]]
k = 1
log_n = 8
ones = 4
error = 1024

[[lwe]]
n = 8
ones = 2
error = 1048576

[[boot]]
base = 8
level = 4

[[switch]]
base = 4
level = 6
";

/// One choice with a fresh error of a whole step.
const TABLE_OF_LARGE_INPUTS: &str = "[cost]
switch = 1
boot = 1
lin = 1

[[glwe]]
k = 1
log_n = 8
ones = 4
error = 1152921504606846976

[[lwe]]
n = 8
ones = 2
error = 1048576

[[boot]]
base = 8
level = 4

[[switch]]
base = 4
level = 6
";

/// Two choices that cost nothing, the first with too large keys.
const TABLE_OF_LARGE_KEYS: &str = "[cost]
switch = 0
boot = 0
lin = 0

[[glwe]]
k = 1
log_n = 13
ones = 4
error = 1024

[[glwe]]
k = 1
log_n = 8
ones = 4
error = 1024

[[lwe]]
n = 1024
ones = 2
error = 1048576

[[boot]]
base = 8
level = 4

[[switch]]
base = 4
level = 6
";

/// One choice of a ring of eight.
const TABLE_OF_EIGHT: &str = "[cost]
switch = 1
boot = 1
lin = 1

[[glwe]]
k = 1
log_n = 3
ones = 1
error = 3

[[lwe]]
n = 2
ones = 1
error = 3

[[boot]]
base = 8
level = 2

[[switch]]
base = 8
level = 2
";

/// A program with its table, and what `compile` writes for both: no circuit where there is no choice.
#[derive(Clone, Copy, Debug)]
pub(crate) struct Worked {
    pub(crate) program: &'static str,
    pub(crate) table: &'static str,
    pub(crate) circuit: Option<&'static str>,
    pub(crate) cert: &'static str,
}

/// All of them.
pub(crate) const WORKED: [Worked; 15] = [
    // an argument that is returned
    Worked {
        program: "func.func @main(%x: !FHE.eint<4>) -> !FHE.eint<4> {
  return %x : !FHE.eint<4>
}
",
        table: TABLE_A,
        circuit: Some(
            "fhec circuit 1
width 4
glwe 1 8 4 1024
lwe 8 2 1048576
boot 8 4
switch 4 6
%0 = input 0 15
out %0 0 15
end
",
        ),
        cert: "fhec certificate 1
weights 1 1 1
shape 0 0 0
width 4
chosen 0 0 0 0 cost 0
node 0 1024
result 0 1024 288230376151711744
end
",
    },
    // a weighted sum and a table of squares
    Worked {
        program: "module {
  func.func @main(%arg0: !FHE.eint<4> {fhec.range = [0, 3]}, %arg1: !FHE.eint<4> {fhec.range = [0, 3]}, %arg2: !FHE.eint<4> {fhec.range = [0, 2]}) -> !FHE.eint<4> {
    %c2_i5 = arith.constant 2 : i5
    %c3_i5 = arith.constant 3 : i5
    %0 = \"FHE.mul_eint_int\"(%arg1, %c2_i5) : (!FHE.eint<4>, i5) -> !FHE.eint<4>
    %1 = \"FHE.mul_eint_int\"(%arg2, %c3_i5) : (!FHE.eint<4>, i5) -> !FHE.eint<4>
    %2 = \"FHE.add_eint\"(%arg0, %0) : (!FHE.eint<4>, !FHE.eint<4>) -> !FHE.eint<4>
    %3 = \"FHE.add_eint\"(%2, %1) : (!FHE.eint<4>, !FHE.eint<4>) -> !FHE.eint<4>
    %cst = arith.constant dense<[0, 1, 4, 9, 0, 9, 4, 1, 0, 1, 4, 9, 0, 9, 4, 1]> : tensor<16xi64>
    %4 = \"FHE.apply_lookup_table\"(%3, %cst) : (!FHE.eint<4>, tensor<16xi64>) -> !FHE.eint<4>
    return %4 : !FHE.eint<4>
  }
}
",
        table: TABLE_C,
        circuit: Some(
            "fhec circuit 1
width 4
glwe 1 10 32 131072
lwe 128 24 1073741824
boot 12 2
switch 4 4
%0 = input 0 3
%1 = input 0 3
%2 = input 0 2
%3 = lin 0 1 %0 2 %1 3 %2
%4 = switch %3
%5 = boot %4 0 1 4 9 0 9 4 1 0 1 4 9 0 9 4 1
out %5 0 9
end
",
        ),
        cert: "fhec certificate 1
weights 1 1 1
shape 1 1 3
width 4
chosen 0 0 0 0 cost 11017219
size 1576960 33554432
node 0 131072
node 1 131072
node 2 131072
node 3 786432
node 4 4538784000245760
node 5 576144092954624
boot 0 117128774684508160 288230376151711744
result 0 576144092954624 288230376151711744
end
",
    },
    // a look-up
    Worked {
        program: "func.func @main(%x: !FHE.eint<2>) -> !FHE.eint<2> {
  %t = arith.constant dense<[1, 3, 0, 2]> : tensor<4xi64>
  %y = \"FHE.apply_lookup_table\"(%x, %t) : (!FHE.eint<2>, tensor<4xi64>) -> !FHE.eint<2>
  return %y : !FHE.eint<2>
}
",
        table: TABLE_A,
        circuit: Some(
            "fhec circuit 1
width 2
glwe 1 8 4 1024
lwe 8 2 1048576
boot 8 4
switch 4 6
%0 = input 0 3
%1 = switch %0
%2 = boot %1 1 3 0 2
out %2 0 3
end
",
        ),
        cert: "fhec certificate 1
weights 1 1 1
shape 1 1 0
width 2
chosen 0 0 0 0 cost 275968
size 46592 33554432
node 0 1024
node 1 2211908158464
node 2 23622320128
boot 0 54045407436604416 1152921504606846976
result 0 23622320128 1152921504606846976
end
",
    },
    // the cheaper of two choices
    Worked {
        program: "func.func @main(%x: !FHE.eint<2>) -> !FHE.eint<2> {
  %t = arith.constant dense<[1, 3, 0, 2]> : tensor<4xi64>
  %y = \"FHE.apply_lookup_table\"(%x, %t) : (!FHE.eint<2>, tensor<4xi64>) -> !FHE.eint<2>
  return %y : !FHE.eint<2>
}
",
        table: TABLE_B,
        circuit: Some(
            "fhec circuit 1
width 2
glwe 1 4 4 1024
lwe 8 2 1048576
boot 8 4
switch 4 6
%0 = input 0 3
%1 = switch %0
%2 = boot %1 1 3 0 2
out %2 0 3
end
",
        ),
        cert: "fhec certificate 1
weights 1 1 1
shape 1 1 0
width 2
chosen 1 0 0 0 cost 9056
size 2912 33554432
node 0 1024
node 1 2199828562944
node 2 21609054208
boot 0 864693328283698176 1152921504606846976
result 0 21609054208 1152921504606846976
end
",
    },
    // the dearer of two choices
    Worked {
        program: "func.func @main(%x: !FHE.eint<3>) -> !FHE.eint<3> {
  %t = arith.constant dense<[1, 3, 0, 2, 7, 6, 5, 4]> : tensor<8xi64>
  %y = \"FHE.apply_lookup_table\"(%x, %t) : (!FHE.eint<3>, tensor<8xi64>) -> !FHE.eint<3>
  return %y : !FHE.eint<3>
}
",
        table: TABLE_B,
        circuit: Some(
            "fhec circuit 1
width 3
glwe 1 8 4 1024
lwe 8 2 1048576
boot 8 4
switch 4 6
%0 = input 0 7
%1 = switch %0
%2 = boot %1 1 3 0 2 7 6 5 4
out %2 0 7
end
",
        ),
        cert: "fhec certificate 1
weights 1 1 1
shape 1 1 0
width 3
refused 1 0 0 0 cost 9056 boot 0 864693328283698176 576460752303423488
chosen 0 0 0 0 cost 275968
size 46592 33554432
node 0 1024
node 1 2211908158464
node 2 23622320128
boot 0 54045407436604416 576460752303423488
result 0 23622320128 576460752303423488
end
",
    },
    // equal choices
    Worked {
        program: "func.func @main(%x: !FHE.eint<2>) -> !FHE.eint<2> {
  %t = arith.constant dense<[1, 3, 0, 2]> : tensor<4xi64>
  %y = \"FHE.apply_lookup_table\"(%x, %t) : (!FHE.eint<2>, tensor<4xi64>) -> !FHE.eint<2>
  return %y : !FHE.eint<2>
}
",
        table: TABLE_OF_EQUALS,
        circuit: Some(
            "fhec circuit 1
width 2
glwe 1 8 4 1024
lwe 8 2 1048576
boot 8 4
switch 4 6
%0 = input 0 3
%1 = switch %0
%2 = boot %1 1 3 0 2
out %2 0 3
end
",
        ),
        cert: "fhec certificate 1
weights 1 1 1
shape 1 1 0
width 2
chosen 0 0 0 0 cost 275968
size 46592 33554432
node 0 1024
node 1 2211908158464
node 2 23622320128
boot 0 54045407436604416 1152921504606846976
result 0 23622320128 1152921504606846976
end
",
    },
    // a constant
    Worked {
        program: "func.func @main(%x: !FHE.eint<2>) -> !FHE.eint<3> {
  %d = \"FHE.sub_eint\"(%x, %x) : (!FHE.eint<2>, !FHE.eint<2>) -> !FHE.eint<2>
  %t = arith.constant dense<[5, 0, 0, 0]> : tensor<4xi64>
  %y = \"FHE.apply_lookup_table\"(%d, %t) : (!FHE.eint<2>, tensor<4xi64>) -> !FHE.eint<3>
  return %y : !FHE.eint<3>
}
",
        table: TABLE_A,
        circuit: Some(
            "fhec circuit 1
width 1
glwe 1 8 4 1024
lwe 8 2 1048576
boot 8 4
switch 4 6
%0 = input 0 3
%1 = lin 5
out %1 5 5
end
",
        ),
        cert: "fhec certificate 1
weights 1 1 1
shape 0 0 0
width 1
chosen 0 0 0 0 cost 0
node 0 1024
node 1 0
result 0 0 2305843009213693952
end
",
    },
    // three look-ups, two of them the same
    Worked {
        program: "func.func @main(%x: !FHE.eint<2>) -> (!FHE.eint<2>, !FHE.eint<2>, !FHE.eint<2>) {
  %s = arith.constant dense<[1, 3, 0, 2]> : tensor<4xi64>
  %t = arith.constant dense<[0, 1, 2, 3]> : tensor<4xi64>
  %0 = \"FHE.apply_lookup_table\"(%x, %s) : (!FHE.eint<2>, tensor<4xi64>) -> !FHE.eint<2>
  %1 = \"FHE.apply_lookup_table\"(%x, %t) : (!FHE.eint<2>, tensor<4xi64>) -> !FHE.eint<2>
  %2 = \"FHE.apply_lookup_table\"(%x, %s) : (!FHE.eint<2>, tensor<4xi64>) -> !FHE.eint<2>
  return %0, %1, %2 : !FHE.eint<2>, !FHE.eint<2>, !FHE.eint<2>
}
",
        table: TABLE_A,
        circuit: Some(
            "fhec circuit 1
width 2
glwe 1 8 4 1024
lwe 8 2 1048576
boot 8 4
switch 4 6
%0 = input 0 3
%1 = switch %0
%2 = boot %1 1 3 0 2
%3 = boot %1 0 1 2 3
out %2 0 3
out %3 0 3
out %2 0 3
end
",
        ),
        cert: "fhec certificate 1
weights 1 1 1
shape 1 2 0
width 2
chosen 0 0 0 0 cost 538112
size 46592 33554432
node 0 1024
node 1 2211908158464
node 2 23622320128
node 3 23622320128
boot 0 54045407436604416 1152921504606846976
boot 1 54045407436604416 1152921504606846976
result 0 23622320128 1152921504606846976
result 1 23622320128 1152921504606846976
result 2 23622320128 1152921504606846976
end
",
    },
    // a declared range
    Worked {
        program: "func.func @main(%x: !FHE.eint<3> {fhec.range = [2, 5]}) -> !FHE.eint<3> {
  %t = arith.constant dense<[0, 0, 5, 6, 7, 1, 0, 0]> : tensor<8xi64>
  %y = \"FHE.apply_lookup_table\"(%x, %t) : (!FHE.eint<3>, tensor<8xi64>) -> !FHE.eint<3>
  return %y : !FHE.eint<3>
}
",
        table: TABLE_A,
        circuit: Some(
            "fhec circuit 1
width 3
glwe 1 8 4 1024
lwe 8 2 1048576
boot 8 4
switch 4 6
%0 = input 2 5
%1 = lin -2 1 %0
%2 = switch %1
%3 = boot %2 5 6 7 1
out %3 1 7
end
",
        ),
        cert: "fhec certificate 1
weights 1 1 1
shape 1 1 1
width 3
chosen 0 0 0 0 cost 276225
size 46592 33554432
node 0 1024
node 1 1024
node 2 2211908158464
node 3 23622320128
boot 0 54045407436604416 576460752303423488
result 0 23622320128 576460752303423488
end
",
    },
    // no choice: the ring is too small
    Worked {
        program: "func.func @main(%x: !FHE.eint<3>) -> !FHE.eint<3> {
  %t = arith.constant dense<[1, 3, 0, 2, 7, 6, 5, 4]> : tensor<8xi64>
  %y = \"FHE.apply_lookup_table\"(%x, %t) : (!FHE.eint<3>, tensor<8xi64>) -> !FHE.eint<3>
  return %y : !FHE.eint<3>
}
",
        table: TABLE_OF_SMALL_RING,
        circuit: None,
        cert: "fhec certificate 1
weights 1 1 1
shape 1 1 0
width 3
refused 0 0 0 0 cost 9056 boot 0 864693328283698176 576460752303423488
none
end
",
    },
    // no choice: the bound is above 2^64
    Worked {
        program: "func.func @main(%x: !FHE.eint<2>) -> !FHE.eint<2> {
  %t = arith.constant dense<[1, 3, 0, 2]> : tensor<4xi64>
  %y = \"FHE.apply_lookup_table\"(%x, %t) : (!FHE.eint<2>, tensor<4xi64>) -> !FHE.eint<2>
  return %y : !FHE.eint<2>
}
",
        table: TABLE_OF_LARGE_ERROR,
        circuit: None,
        cert: "fhec certificate 1
weights 1 1 1
shape 1 1 0
width 2
refused 0 0 0 0 cost 275968 boot 0 18446744073709551616 1152921504606846976
none
end
",
    },
    // a sum
    Worked {
        program: "func.func @main(%arg0: !FHE.eint<2> {fhec.range = [0, 1]}, %arg1: !FHE.eint<2> {fhec.range = [0, 2]}) -> !FHE.eint<2> {
  %0 = \"FHE.add_eint\"(%arg0, %arg1) : (!FHE.eint<2>, !FHE.eint<2>) -> !FHE.eint<2>
  return %0 : !FHE.eint<2>
}
",
        table: TABLE_A,
        circuit: Some(
            "fhec circuit 1
width 2
glwe 1 8 4 1024
lwe 8 2 1048576
boot 8 4
switch 4 6
%0 = input 0 1
%1 = input 0 2
%2 = lin 0 1 %0 1 %1
out %2 0 3
end
",
        ),
        cert: "fhec certificate 1
weights 1 1 1
shape 0 0 2
width 2
chosen 0 0 0 0 cost 514
node 0 1024
node 1 1024
node 2 2048
result 0 2048 1152921504606846976
end
",
    },
    // no choice: the errors of its inputs are too large
    Worked {
        program: "func.func @main(%arg0: !FHE.eint<2> {fhec.range = [0, 1]}, %arg1: !FHE.eint<2> {fhec.range = [0, 2]}) -> !FHE.eint<2> {
  %0 = \"FHE.add_eint\"(%arg0, %arg1) : (!FHE.eint<2>, !FHE.eint<2>) -> !FHE.eint<2>
  return %0 : !FHE.eint<2>
}
",
        table: TABLE_OF_LARGE_INPUTS,
        circuit: None,
        cert: "fhec certificate 1
weights 1 1 1
shape 0 0 2
width 2
refused 0 0 0 0 cost 514 result 0 2305843009213693952 1152921504606846976
none
end
",
    },
    // the second of two choices of one cost
    Worked {
        program: "func.func @main(%x: !FHE.eint<2>) -> !FHE.eint<2> {
  %t = arith.constant dense<[1, 3, 0, 2]> : tensor<4xi64>
  %y = \"FHE.apply_lookup_table\"(%x, %t) : (!FHE.eint<2>, tensor<4xi64>) -> !FHE.eint<2>
  return %y : !FHE.eint<2>
}
",
        table: TABLE_OF_LARGE_KEYS,
        circuit: Some(
            "fhec circuit 1
width 2
glwe 1 8 4 1024
lwe 1024 2 1048576
boot 8 4
switch 4 6
%0 = input 0 3
%1 = switch %0
%2 = boot %1 1 3 0 2
out %2 0 3
end
",
        ),
        cert: "fhec certificate 1
weights 0 0 0
shape 1 1 0
width 2
refused 0 0 0 0 cost 0 size 184598528 33554432
chosen 1 0 0 0 cost 0
size 5768704 33554432
node 0 1024
node 1 2211908158464
node 2 296352743424
boot 0 54045407436604416 1152921504606846976
result 0 296352743424 1152921504606846976
end
",
    },
    // a look-up of one bit
    Worked {
        program: "func.func @main(%x: !FHE.eint<1>) -> !FHE.eint<1> {
  %t = arith.constant dense<[1, 0]> : tensor<2xi64>
  %y = \"FHE.apply_lookup_table\"(%x, %t) : (!FHE.eint<1>, tensor<2xi64>) -> !FHE.eint<1>
  return %y : !FHE.eint<1>
}
",
        table: TABLE_OF_EIGHT,
        circuit: Some(
            "fhec circuit 1
width 1
glwe 1 3 1 3
lwe 2 1 3
boot 8 2
switch 8 2
%0 = input 0 1
%1 = switch %0
%2 = boot %1 1 0
out %2 0 1
end
",
        ),
        cert: "fhec certificate 1
weights 1 1 1
shape 1 1 0
width 1
chosen 0 0 0 0 cost 432
size 176 33554432
node 0 3
node 1 140737488361475
node 2 281474976735232
boot 0 1153062242095208451 2305843009213693952
result 0 281474976735232 2305843009213693952
end
",
    },
];

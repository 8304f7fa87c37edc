use super::*;
use fhe_params::{Gadget, GlweChoice, LweChoice, Params};
use std::test::Fail;

// The parameters of the worked sum, and of the worked look-up of width 2.
const SMALL: Params = Params {
    glwe: GlweChoice {
        k: 1,
        log_n: 1,
        ones: 1,
        error: 3,
    },
    lwe: LweChoice {
        n: 1,
        ones: 0,
        error: 0,
    },
    boot: Gadget { base: 1, level: 1 },
    switch: Gadget { base: 1, level: 1 },
};

const TABLE: Params = Params {
    glwe: GlweChoice {
        k: 1,
        log_n: 8,
        ones: 4,
        error: 1024,
    },
    lwe: LweChoice {
        n: 8,
        ones: 2,
        error: 1048576,
    },
    boot: Gadget { base: 8, level: 4 },
    switch: Gadget { base: 4, level: 6 },
};

// The SHA-256 of their lines, by another program.
const SMALL_DIGEST: [u8; 32] = [
    0xec, 0xb7, 0x66, 0x05, 0xa0, 0x3b, 0xfc, 0x75, 0x0c, 0xd3, 0x5e, 0x6a, 0x92, 0x3a, 0xbd, 0xe5,
    0x3f, 0x74, 0xda, 0x71, 0x1b, 0xb6, 0x63, 0xc2, 0xba, 0x20, 0x5d, 0xed, 0x9c, 0x8c, 0x6b, 0xff,
];

const TABLE_DIGEST: [u8; 32] = [
    0x5c, 0xcf, 0x44, 0x7a, 0x3c, 0xb0, 0xcd, 0xbb, 0x72, 0x4a, 0x0c, 0xa7, 0x56, 0x6b, 0xc7, 0x56,
    0x83, 0xa7, 0x78, 0xec, 0xd6, 0x91, 0x9e, 0x95, 0xea, 0xd2, 0x4c, 0xf4, 0xf3, 0x20, 0xed, 0x15,
];

#[test]
fn digests_of_parameters(rt: HostRuntime) -> Result<(), Fail> {
    assert_eq!(rt; params_digest(rt.alloc(), &SMALL)?, SMALL_DIGEST);
    assert_eq!(rt; params_digest(rt.alloc(), &TABLE)?, TABLE_DIGEST);
    Ok(())
}

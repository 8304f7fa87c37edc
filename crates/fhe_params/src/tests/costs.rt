ghost use Rattle.fhe_params.specs.Table.{IsCostWeights};

use crate::laws::laws;
use crate::{
    CostWeights, Counts, Gadget, GlweChoice, LweChoice, Params, cost, dimension, is_params,
    key_words,
};

/// One glwe choice, and those of the other lists, of Table A of `docs/FORMATS.md`.
fn small(log_n: u32) -> Params {
    Params {
        glwe: GlweChoice {
            k: 1,
            log_n,
            ones: 4,
            error: 1024,
        },
        lwe: LweChoice {
            n: 8,
            ones: 2,
            error: 1048576,
        },
        boot: Gadget { base: 8, level: 4 },
        switch: Gadget { base: 4, level: 6 },
    }
}

/// Table C of `docs/FORMATS.md`.
const WIDE: Params = Params {
    glwe: GlweChoice {
        k: 1,
        log_n: 10,
        ones: 32,
        error: 131072,
    },
    lwe: LweChoice {
        n: 128,
        ones: 24,
        error: 1073741824,
    },
    boot: Gadget { base: 12, level: 2 },
    switch: Gadget { base: 4, level: 4 },
};

/// The greatest parameters.
const GREATEST: Params = Params {
    glwe: GlweChoice {
        k: 3,
        log_n: 13,
        ones: 24576,
        error: 4611686018427387903,
    },
    lwe: LweChoice {
        n: 1024,
        ones: 1024,
        error: 4611686018427387903,
    },
    boot: Gadget { base: 1, level: 63 },
    switch: Gadget { base: 1, level: 63 },
};

const COUNTS: Counts = Counts {
    switches: 1,
    boots: 1,
    weights: 3,
};

/// The cost under parameters within their limits.
fn cost_within(params: &Params, weights: &CostWeights) -> Option<u128>
    requires { IsCostWeights weights.now }
{
    laws();
    if is_params(params) {
        Some(cost(params, weights, &COUNTS))
    } else {
        None
    }
}

/// The words of the keys of parameters within their limits.
fn words_within(params: &Params) -> Option<u64> {
    laws();
    if is_params(params) {
        Some(key_words(params))
    } else {
        None
    }
}

#[test]
fn costs_part_by_part(rt: HostRuntime) {
    // with weights of 1: of a switch, of a boot, of three terms; and the words of the keys
    let table = [
        (small(8), 13824, 262144, 771, 46592),
        (small(4), 864, 8192, 51, 2912),
        (small(6), 3456, 49152, 195, 11648),
        (WIDE, 528384, 10485760, 3075, 528384 + 1048576),
    ];
    for (params, switch, boot, lin, words) in table {
        for (weights, wanted) in [
            ((1, 0, 0), switch),
            ((0, 1, 0), boot),
            ((0, 0, 1), lin),
            ((1, 1, 1), switch + boot + lin),
            ((2, 3, 5), 2 * switch + 3 * boot + 5 * lin),
        ] {
            let weights = CostWeights {
                switch: weights.0,
                boot: weights.1,
                lin: weights.2,
            };
            assert_eq!(rt;
                cost_within(&params, &weights),
                Some(wanted),
                "{params:?} {weights:?}"
            );
        }
        assert_eq!(rt; words_within(&params), Some(words), "{params:?}");
    }
}

#[test]
fn many_look_ups(rt: HostRuntime) {
    let one = CostWeights {
        switch: 1,
        boot: 1,
        lin: 1,
    };
    let counts = Counts {
        switches: 400,
        boots: 400,
        weights: 800,
    };
    laws();
    let params = small(6);
    assert!(rt; is_params(&params));
    assert_eq!(rt; cost(&params, &one, &counts), 21095200u128);
}

#[test]
fn the_greatest_cost(rt: HostRuntime) {
    let weights = CostWeights {
        switch: 1048576,
        boot: 1048576,
        lin: 1048576,
    };
    let counts = Counts {
        switches: u64::MAX,
        boots: u64::MAX,
        weights: u64::MAX,
    };
    assert_eq!(rt; dimension(&GREATEST), 24576);
    assert_eq!(rt; key_words(&GREATEST), 10042712064);
    assert_eq!(rt;
        cost(&GREATEST, &weights, &counts),
        2156942990524481530066788364619612160
    );
}

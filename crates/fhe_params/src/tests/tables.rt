use crate::laws::laws;
use crate::{
    Choice, CostWeights, FieldName, Gadget, GlweChoice, ListName, LweChoice, Params, TableFault,
    TableRefusal, read_table,
};
use FieldName::{Base, Boot, Error, K, Level, Lin, LogN, N, Ones, Switch, Version};
use std::alloc::{AllocError, Global};
use std::test::Fail;

const TABLE_A: &str =
    "[cost]\nswitch = 1\nboot = 1\nlin = 1\n\n[[glwe]]\nk = 1\nlog_n = 8\nones = 4\nerror = 1024\n\n[[lwe]]\nn = 8\nones = 2\nerror = 1048576\n\n[[boot]]\nbase = 8\nlevel = 4\n\n[[switch]]\nbase = 4\nlevel = 6\n";

const TABLE_B: &str =
    "[cost]\nswitch = 1\nboot = 1\nlin = 1\n\n[[glwe]]\nk = 1\nlog_n = 8\nones = 4\nerror = 1024\n\n[[glwe]]\nk = 1\nlog_n = 4\nones = 4\nerror = 1024\n\n[[lwe]]\nn = 8\nones = 2\nerror = 1048576\n\n[[boot]]\nbase = 8\nlevel = 4\n\n[[switch]]\nbase = 4\nlevel = 6\n";

const TABLE_C: &str =
    "[cost]\nswitch = 1\nboot = 1\nlin = 1\n\n[[glwe]]\nk = 1\nlog_n = 10\nones = 32\nerror = 131072\n\n[[lwe]]\nn = 128\nones = 24\nerror = 1073741824\n\n[[boot]]\nbase = 12\nlevel = 2\n\n[[switch]]\nbase = 4\nlevel = 4\n";

const TABLE_L: &str =
    "[cost]\nswitch = 1\nboot = 1\nlin = 1\n\n[[glwe]]\nk = 1\nlog_n = 6\nones = 4\nerror = 1024\n\n[[glwe]]\nk = 1\nlog_n = 4\nones = 4\nerror = 1024\n\n[[lwe]]\nn = 8\nones = 2\nerror = 1048576\n\n[[boot]]\nbase = 8\nlevel = 4\n\n[[switch]]\nbase = 4\nlevel = 6\n";

/// Table A as parts of one line each: the version, the cost and the four lists.
const PARTS: [&str; 6] = [
    "",
    "cost = { switch = 1, boot = 1, lin = 1 }\n",
    "glwe = [{ k = 1, log_n = 8, ones = 4, error = 1024 }]\n",
    "lwe = [{ n = 8, ones = 2, error = 1048576 }]\n",
    "boot = [{ base = 8, level = 4 }]\n",
    "switch = [{ base = 4, level = 6 }]\n",
];

/// The parts in their order, with another text in place of one of them.
fn text_with(alloc: Global, list: ListName, part: &str) -> Result<String, AllocError> {
    let mut text = String::new(alloc);
    for (at, usual) in PARTS.iter().enumerate() {
        text.push_str(if at == place_of(list) { part } else { *usual })?;
    }
    Ok(text)
}

fn place_of(list: ListName) -> usize {
    match list {
        ListName::Version => 0,
        ListName::Cost => 1,
        ListName::Glwe => 2,
        ListName::Lwe => 3,
        ListName::Boot => 4,
        ListName::Switch => 5,
    }
}

/// What is wrong with a text, or none where a table is read.
fn fault_of(alloc: Global, text: &[u8]) -> Result<Option<TableFault>, AllocError> {
    match read_table(alloc, text) {
        Ok(_table) => Ok(None),
        Err(TableRefusal::Fault(fault)) => Ok(Some(fault)),
        Err(TableRefusal::Memory) => Err(AllocError),
    }
}

fn field(list: ListName, entry: u32, field: FieldName) -> Option<TableFault> {
    Some(TableFault::Field { list, entry, field })
}

fn part_of(list: ListName) -> Option<TableFault> {
    field(list, 0, FieldName::List)
}

/// A field, the text of its part before and after it, and its limits.
type Row = (ListName, FieldName, &'static str, &'static str, i64, i64);

const MOST: i64 = 4611686018427387903;

const FIELDS: [Row; 16] = [
    (ListName::Version, Version, "", "\n", 1, 1),
    (
        ListName::Cost,
        Switch,
        "cost = { ",
        "boot = 1, lin = 1 }\n",
        0,
        1048576,
    ),
    (
        ListName::Cost,
        Boot,
        "cost = { ",
        "switch = 1, lin = 1 }\n",
        0,
        1048576,
    ),
    (
        ListName::Cost,
        Lin,
        "cost = { ",
        "boot = 1, switch = 1 }\n",
        0,
        1048576,
    ),
    (
        ListName::Glwe,
        K,
        "glwe = [{ ",
        "log_n = 8, ones = 4, error = 9 }]\n",
        1,
        3,
    ),
    (
        ListName::Glwe,
        LogN,
        "glwe = [{ ",
        "k = 2, ones = 4, error = 9 }]\n",
        1,
        13,
    ),
    (
        ListName::Glwe,
        Ones,
        "glwe = [{ ",
        "k = 3, log_n = 8, error = 9 }]\n",
        0,
        768,
    ),
    (
        ListName::Glwe,
        Error,
        "glwe = [{ ",
        "k = 1, log_n = 8, ones = 4 }]\n",
        0,
        MOST,
    ),
    (
        ListName::Lwe,
        N,
        "lwe = [{ ",
        "ones = 1, error = 9 }]\n",
        1,
        1024,
    ),
    (
        ListName::Lwe,
        Ones,
        "lwe = [{ ",
        "n = 8, error = 9 }]\n",
        0,
        8,
    ),
    (
        ListName::Lwe,
        Error,
        "lwe = [{ ",
        "n = 8, ones = 2 }]\n",
        0,
        MOST,
    ),
    (ListName::Boot, Base, "boot = [{ ", "level = 2 }]\n", 1, 31),
    (ListName::Boot, Level, "boot = [{ ", "base = 8 }]\n", 1, 7),
    (
        ListName::Switch,
        Base,
        "switch = [{ ",
        "level = 2 }]\n",
        1,
        31,
    ),
    (
        ListName::Switch,
        Level,
        "switch = [{ ",
        "base = 9 }]\n",
        1,
        7,
    ),
    (
        ListName::Switch,
        Level,
        "switch = [{ ",
        "base = 1 }]\n",
        1,
        63,
    ),
];

/// The table with a value at a field.
fn text_at(alloc: Global, row: &Row, value: &str) -> Result<String, AllocError> {
    let comma = if row.0 == ListName::Version { "" } else { ", " };
    let part = format!(in alloc; "{}{} = {value}{comma}{}", row.2, row.1.name(), row.3)?;
    text_with(alloc, row.0, &part)
}

#[test]
fn tables_of_the_examples(rt: HostRuntime) -> Result<(), Fail> {
    laws();
    let one = CostWeights {
        switch: 1,
        boot: 1,
        lin: 1,
    };
    let ring = |log_n| GlweChoice {
        k: 1,
        log_n,
        ones: 4,
        error: 1024,
    };
    let (of_a, of_b, of_l) = ([ring(8)], [ring(8), ring(4)], [ring(6), ring(4)]);
    let table = [
        (TABLE_A, of_a.as_slice()),
        (TABLE_B, of_b.as_slice()),
        (TABLE_L, of_l.as_slice()),
    ];
    for (text, rings) in table {
        let table = read_table(rt.alloc(), text.as_bytes())
            .ok()
            .ok_or("a table")?;
        assert_eq!(rt; table.weights, one);
        assert_eq!(rt; table.glwe.as_slice(), rings);
        let small = LweChoice {
            n: 8,
            ones: 2,
            error: 1048576,
        };
        assert_eq!(rt; table.lwe.as_slice(), [small].as_slice());
        assert_eq!(rt;
            table.boot.as_slice(),
            [Gadget { base: 8, level: 4 }].as_slice()
        );
        assert_eq!(rt;
            table.switch.as_slice(),
            [Gadget { base: 4, level: 6 }].as_slice()
        );
    }
    Ok(())
}

#[test]
fn parameters_of_a_choice(rt: HostRuntime) -> Result<(), Fail> {
    let text = text_with(
        rt.alloc(),
        ListName::Switch,
        "switch = [{ base = 4, level = 6 }, { base = 5, level = 7 }, { base = 6, level = 8 }]\n",
    )?;
    let table = read_table(rt.alloc(), text.as_bytes())
        .ok()
        .ok_or("a table")?;
    for (place, switch) in [
        (0, Gadget { base: 4, level: 6 }),
        (2, Gadget { base: 6, level: 8 }),
    ] {
        let choice = Choice {
            glwe: 0,
            lwe: 0,
            boot: 0,
            switch: place,
        };
        let params = Params {
            glwe: GlweChoice {
                k: 1,
                log_n: 8,
                ones: 4,
                error: 1024,
            },
            lwe: LweChoice {
                n: 8,
                ones: 2,
                error: 1048576,
            },
            boot: Gadget { base: 8, level: 4 },
            switch,
        };
        assert!(rt; table.is_choice(&choice));
        assert_eq!(rt; table.params(&choice), params);
    }
    Ok(())
}

#[test]
fn each_limit(rt: HostRuntime) -> Result<(), Fail> {
    for row in &FIELDS {
        let (list, name, _, _, least, most) = *row;
        for (value, fault) in [
            (least, None),
            (most, None),
            (least.wrapping_sub(1), field(list, 0, name)),
            (most.wrapping_add(1), field(list, 0, name)),
            (-1, field(list, 0, name)),
            (i64::MAX, field(list, 0, name)),
            (i64::MIN, field(list, 0, name)),
        ] {
            let text = text_at(rt.alloc(), row, format!(in rt.alloc(); "{value}")?.as_str())?;
            assert_eq!(rt; fault_of(rt.alloc(), text.as_bytes())?, fault, "{text}");
        }
    }
    Ok(())
}

#[test]
fn each_kind(rt: HostRuntime) -> Result<(), Fail> {
    for row in &FIELDS {
        for value in [
            "1.0",
            "\"1\"",
            "true",
            "[1]",
            "{ k = 1 }",
            "1979-05-27",
            "inf",
        ] {
            let text = text_at(rt.alloc(), row, value)?;
            assert_eq!(rt;
                fault_of(rt.alloc(), text.as_bytes())?,
                field(row.0, 0, row.1),
                "{text}"
            );
        }
        // a whole number that TOML's integers do not hold
        for value in ["9223372036854775808", "-9223372036854775809", "01", "1x"] {
            let text = text_at(rt.alloc(), row, value)?;
            assert_eq!(rt;
                fault_of(rt.alloc(), text.as_bytes())?,
                Some(TableFault::Toml),
                "{text}"
            );
        }
        for value in ["+1", "0x1", "0b1", "0o1"] {
            let text = text_at(rt.alloc(), row, value)?;
            assert_eq!(rt; fault_of(rt.alloc(), text.as_bytes())?, None, "{text}");
        }
    }
    Ok(())
}

#[test]
fn each_field_missing(rt: HostRuntime) -> Result<(), Fail> {
    for row in &FIELDS {
        let part = format!(in rt.alloc(); "{}{}", row.2, row.3)?;
        let text = text_with(rt.alloc(), row.0, &part)?;
        let fault = if row.0 == ListName::Version {
            None
        } else {
            field(row.0, 0, row.1)
        };
        assert_eq!(rt; fault_of(rt.alloc(), text.as_bytes())?, fault, "{text}");
    }
    Ok(())
}

#[test]
fn parts_of_another_kind(rt: HostRuntime) -> Result<(), Fail> {
    for list in [
        ListName::Glwe,
        ListName::Lwe,
        ListName::Boot,
        ListName::Switch,
    ] {
        for value in [
            "[]",
            "1",
            "[1]",
            "[[]]",
            "\"a\"",
            "{ n = 1 }",
            "[{ base = 1 }, 1]",
            "1.0",
            "true",
        ] {
            let part = format!(in rt.alloc(); "{} = {value}\n", list.name())?;
            let text = text_with(rt.alloc(), list, &part)?;
            assert_eq!(rt;
                fault_of(rt.alloc(), text.as_bytes())?,
                part_of(list),
                "{text}"
            );
        }
    }
    for value in [
        "[]",
        "1",
        "[{ switch = 1, boot = 1, lin = 1 }]",
        "\"a\"",
        "1.0",
        "true",
    ] {
        let part = format!(in rt.alloc(); "cost = {value}\n")?;
        let text = text_with(rt.alloc(), ListName::Cost, &part)?;
        assert_eq!(rt;
            fault_of(rt.alloc(), text.as_bytes())?,
            part_of(ListName::Cost),
            "{text}"
        );
    }
    for list in [
        ListName::Cost,
        ListName::Glwe,
        ListName::Lwe,
        ListName::Boot,
        ListName::Switch,
    ] {
        let text = text_with(rt.alloc(), list, "")?;
        assert_eq!(rt;
            fault_of(rt.alloc(), text.as_bytes())?,
            part_of(list),
            "{text}"
        );
    }
    Ok(())
}

#[test]
fn numbers_of_entries(rt: HostRuntime) -> Result<(), Fail> {
    for list in [ListName::Boot, ListName::Switch] {
        for (number, last, fault) in [
            (1, "level = 1", None),
            (12, "level = 1", None),
            (13, "level = 1", part_of(list)),
            (13, "level = 0", part_of(list)),
            (1, "level = 0", field(list, 0, Level)),
            (2, "level = 0", field(list, 1, Level)),
            (12, "level = 16", field(list, 11, Level)),
            (12, "levels = 1", field(list, 11, Level)),
        ] {
            let mut part = format!(in rt.alloc(); "{} = [", list.name())?;
            for _ in 1..number {
                part.push_str("{ base = 4, level = 15 }, ")?;
            }
            let part = format!(in rt.alloc(); "{part}{{ base = 4, {last} }}]\n")?;
            let text = text_with(rt.alloc(), list, &part)?;
            assert_eq!(rt; fault_of(rt.alloc(), text.as_bytes())?, fault, "{text}");
        }
    }
    Ok(())
}

#[test]
fn the_first_fault(rt: HostRuntime) -> Result<(), Fail> {
    let table: [(&[u8], Option<TableFault>); 16] = [
        (b"", part_of(ListName::Cost)),
        (b"= 1", Some(TableFault::Toml)),
        (b"cost = 1\ncost = 2\n", Some(TableFault::Toml)),
        (b"# \xff\n", Some(TableFault::Toml)),
        (b"\xff", Some(TableFault::Toml)),
        (b"version = 2\n", field(ListName::Version, 0, Version)),
        (b"version = 1\n", part_of(ListName::Cost)),
        (
            b"version = 2\nx = 9223372036854775808\n",
            Some(TableFault::Toml),
        ),
        (b"[cost]\nlin = -1\n", field(ListName::Cost, 0, Switch)),
        (
            b"[cost]\nlin = -1\nswitch = 1\n",
            field(ListName::Cost, 0, Boot),
        ),
        (
            b"glwe = 1\n[cost]\nlin = 1\nswitch = 1\nboot = 1\n",
            part_of(ListName::Glwe),
        ),
        (
            b"lwe = 1\n[cost]\nlin = 1\nswitch = 1\nboot = 1\n[[glwe]]\nk = 4\n",
            field(ListName::Glwe, 0, K),
        ),
        (
            b"[cost]\nlin = 1\nswitch = 1\nboot = 1\n[[glwe]]\nk = 3\nones = -1\n",
            field(ListName::Glwe, 0, LogN),
        ),
        (
            b"[cost]\nlin = 1\nswitch = 1\nboot = 1\n[[glwe]]\nk = 3\nlog_n = 13\nones = 24577\n",
            field(ListName::Glwe, 0, Ones),
        ),
        (
            b"[cost]\nlin = 1\nswitch = 1\nboot = 1\n[[glwe]]\nk = 3\nlog_n = 13\nones = 24576\n",
            field(ListName::Glwe, 0, Error),
        ),
        (
            b"[cost]\nlin = 1\nswitch = 1\nboot = 1\n[[glwe]]\nk = 3\nlog_n = 13\nones = 24576\nerror = 0\n",
            part_of(ListName::Lwe),
        ),
    ];
    for (text, fault) in table {
        assert_eq!(rt; fault_of(rt.alloc(), text)?, fault, "{text:?}");
    }
    Ok(())
}

#[test]
fn other_keys(rt: HostRuntime) -> Result<(), Fail> {
    let table = [
        (ListName::Version, "version = 1\nversions = 2\n\"\" = 3.5\n"),
        (
            ListName::Cost,
            "cost = { switch = 1, boot = 1, lin = 1, k = \"a\" }\n",
        ),
        (
            ListName::Lwe,
            "lwe = [{ n = 1, ones = 0, error = 0, k = [], switch = 1.5 }]\nlwes = 1\n",
        ),
        (
            ListName::Switch,
            "[[switch]]\nbase = 1\nlevel = 1\n[switch.more]\nbase = 40\n[other]\nbase = 50\n",
        ),
    ];
    for (list, part) in table {
        let text = text_with(rt.alloc(), list, part)?;
        assert_eq!(rt; fault_of(rt.alloc(), text.as_bytes())?, None, "{text}");
    }
    Ok(())
}

#[test]
fn table_c(rt: HostRuntime) -> Result<(), Fail> {
    let table = read_table(rt.alloc(), TABLE_C.as_bytes())
        .ok()
        .ok_or("a table")?;
    let ring = GlweChoice {
        k: 1,
        log_n: 10,
        ones: 32,
        error: 131072,
    };
    let small = LweChoice {
        n: 128,
        ones: 24,
        error: 1073741824,
    };
    assert_eq!(rt; table.glwe.as_slice(), [ring].as_slice());
    assert_eq!(rt; table.lwe.as_slice(), [small].as_slice());
    assert_eq!(rt;
        table.boot.as_slice(),
        [Gadget { base: 12, level: 2 }].as_slice()
    );
    assert_eq!(rt;
        table.switch.as_slice(),
        [Gadget { base: 4, level: 4 }].as_slice()
    );
    Ok(())
}

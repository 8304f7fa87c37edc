use super::*;
use refusals::Refusal;
use std::alloc::Global;
use std::test::*;

const HEAD: &str =
    "fhec circuit 1\nwidth 2\nglwe 1 8 4 1024\nlwe 8 2 1048576\nboot 8 4\nswitch 4 6\n";

/// The lines of nodes and outs of a text, all in memory.
fn lines_of(alloc: Global, bytes: &[u8]) -> Result<Vec<Line>, LineRefusal> {
    let mut lines = Vec::new(alloc);
    let (_, mut rest) = read_head(bytes)?;
    let mut end = 7;
    for line in 7..100u32 {
        match read_node(alloc, line, rest) {
            Ok((node, after)) => {
                lines.push(node)?;
                rest = after;
            }
            Err(Refusal::Fault(_)) => {
                end = line;
                break;
            }
            Err(Refusal::Memory) => return Err(Refusal::Memory),
        }
    }
    for line in end..200u32 {
        match read_out(line, rest) {
            Ok((out, after)) => {
                lines.push(out)?;
                rest = after;
            }
            Err(Refusal::Fault(_)) => {
                read_end(line, rest)?;
                break;
            }
            Err(Refusal::Memory) => return Err(Refusal::Memory),
        }
    }
    Ok(lines)
}

#[test]
fn lines_with_their_numbers(rt: HostRuntime) -> Result<(), Fail> {
    let nodes =
        "%0 = input -3 12\n%7 = lin -2 1 %0 -4 %-9\n%1 = switch %0\n%2 = boot %1 1 3 0 -2\nout %2 0 3\nend\n";
    let text = format!(in rt.alloc(); "{HEAD}{nodes}")?;
    let want = [
        "Input { number: 0, lo: -3, hi: 12 }",
        "Lin { number: 7, constant: -2, terms: List { elements: [(0, 1), (-9, -4)] } }",
        "Switch { number: 1, source: 0 }",
        "Boot { number: 2, source: 1, entries: List { elements: [1, 3, 0, -2] } }",
        "Out { source: 2, lo: 0, hi: 3 }",
    ];
    match lines_of(rt.alloc(), text.as_bytes()) {
        Ok(lines) => {
            assert_eq!(rt; lines.len(), want.len());
            for (line, shown) in lines.iter().zip(want) {
                assert_eq!(rt; format!(in rt.alloc(); "{line:?}")?.as_str(), shown);
            }
        }
        Err(refusal) => assert!(rt; false, "{refusal:?}"),
    }
    Ok(())
}

#[test]
fn the_numbers_of_the_head(rt: HostRuntime) -> Result<(), Fail> {
    let want = Head {
        width: -1,
        glwe: GlweNumbers {
            k: 0,
            log_n: 99999999999999999999999999999999999999,
            ones: 4,
            error: -7,
        },
        lwe: LweNumbers {
            n: 8,
            ones: 2,
            error: 1048576,
        },
        boot: GadgetNumbers { base: 8, level: 4 },
        switch: GadgetNumbers { base: 4, level: 6 },
    };
    let text =
        "fhec circuit 1\nwidth -1\nglwe 0 99999999999999999999999999999999999999 4 -7\nlwe 8 2 1048576\nboot 8 4\nswitch 4 6\n%0";
    match read_head(text.as_bytes()) {
        Ok((head, rest)) => {
            assert_eq!(rt; head, want);
            assert_eq!(rt; rest, b"%0".as_slice());
        }
        Err(refusal) => assert!(rt; false, "{refusal:?}"),
    }
    Ok(())
}

#[test]
fn misspelled_lines(rt: HostRuntime) -> Result<(), Fail> {
    // the text, and the line that is misspelled
    let whole = [
        ("", 1),
        ("fhec circuit 2\n", 1),
        ("fhec circuit 1", 1),
        ("fhec circuit 1\n", 2),
        ("fhec circuit 1\nwidth 02\n", 2),
        ("fhec circuit 1\nwidth -0\n", 2),
        ("fhec circuit 1\nwidth 2\nglwe 1 8 4\n", 3),
        (
            "fhec circuit 1\nwidth 2\nglwe 1 8 4 1024\nlwe 8 2 1048576 \n",
            4,
        ),
        (
            "fhec circuit 1\nwidth 2\nglwe 1 8 4 1024\nlwe 8 2 1048576\nswitch 4 6\n",
            5,
        ),
        (
            "fhec circuit 1\nwidth 2\nglwe 1 8 4 1024\nlwe 8 2 1048576\nboot 8 4\nswitch 4 \n",
            6,
        ),
    ];
    for (text, line) in whole {
        let fault = lines_of(rt.alloc(), text.as_bytes()).err();
        assert_eq!(rt; fault, Some(Refusal::Fault(Misspelled { line })), "{text}");
    }
    // what stands behind the head, and the line that is misspelled
    let behind = [
        ("", 7),
        ("end\nx", 8),
        ("end\n\n", 8),
        ("end", 7),
        ("%0 = input 0 3\nout %0 0 3\n", 9),
        ("%0 = input 0 3\nout %0 0 3", 8),
        ("%0 = input 0 3\nout %0 0 3\n%1 = input 0 3\nend\n", 9),
        ("%0 = input 0 3\n\nend\n", 8),
        ("%0 = input 0  3\nend\n", 7),
        ("%0 = input 0\nend\n", 7),
        ("%0 = lin\nend\n", 7),
        ("%0 = lin 0 1\nend\n", 7),
        ("%0 = lin 0 1 %\nend\n", 7),
        ("%0 = switch 1\nend\n", 7),
        ("%0 = boot %1\nend\n", 7),
        ("%0 = boot %1 0 \nend\n", 7),
        ("%0 = Input 0 3\nend\n", 7),
        ("%0 = input 0 3\r\nend\n", 7),
        ("%0 = input 0 +3\nend\n", 7),
        (
            "%0 = input 0 100000000000000000000000000000000000000\nend\n",
            7,
        ),
        ("%0 = input 0 -099\nend\n", 7),
    ];
    for (lines, line) in behind {
        let text = format!(in rt.alloc(); "{HEAD}{lines}")?;
        let fault = lines_of(rt.alloc(), text.as_bytes()).err();
        assert_eq!(rt; fault, Some(Refusal::Fault(Misspelled { line })), "{lines}");
    }
    Ok(())
}

#[test]
fn thirty_eight_digits(rt: HostRuntime) -> Result<(), Fail> {
    let lines =
        "%-99999999999999999999999999999999999999 = input 12345678901234567890123456789012345678 0\nend\n";
    let text = format!(in rt.alloc(); "{HEAD}{lines}")?;
    match lines_of(rt.alloc(), text.as_bytes()) {
        Ok(lines) => {
            let shown = format!(in rt.alloc(); "{lines:?}")?;
            assert_eq!(rt;
                shown.as_str(),
                "[Input { number: -99999999999999999999999999999999999999, lo: 12345678901234567890123456789012345678, hi: 0 }]"
            );
        }
        Err(refusal) => assert!(rt; false, "{refusal:?}"),
    }
    Ok(())
}

use super::*;
use circuit_lines::{LineRefusal, read_node, read_out};
use refusals::Refusal;
use std::alloc::Global;
use std::test::*;

/// A walk over the lines of nodes, and then of outs, at the front of a text.
fn walk_of(alloc: Global, text: &[u8]) -> Result<LineWalk, LineRefusal> {
    let mut walk = LineWalk::new(alloc)?;
    let mut rest = text;
    for line in 7..100u32 {
        match read_node(alloc, line, rest) {
            Ok((node, after)) => {
                walk = walk.take(alloc, &node)?;
                rest = after;
            }
            Err(Refusal::Fault(_)) => break,
            Err(Refusal::Memory) => return Err(Refusal::Memory),
        }
    }
    for line in 7..100u32 {
        match read_out(line, rest) {
            Ok((out, after)) => {
                walk = walk.take(alloc, &out)?;
                rest = after;
            }
            Err(Refusal::Fault(_)) => break,
            Err(Refusal::Memory) => return Err(Refusal::Memory),
        }
    }
    Ok(walk)
}

#[test]
fn the_first_line_that_breaks_its_rule(rt: HostRuntime) -> Result<(), Fail> {
    let table = [
        // a look-up: 0 to 3 by way of a key switch
        (
            "%0 = input 0 3\n%1 = switch %0\n%2 = boot %1 1 3 0 2\nout %2 0 3\n",
            None,
        ),
        // 2 x - y + 5 for x in [0, 3] and y in [-1, 2] has the range [3, 12]
        (
            "%0 = input 0 3\n%1 = input -1 2\n%2 = lin 5 2 %0 -1 %1\nout %2 3 12\n",
            None,
        ),
        ("%0 = input -32768 65535\nout %0 -32768 65535\n", None),
        // numbers
        ("%1 = input 0 3\n", Some(0)),
        ("%-1 = input 0 3\n", Some(0)),
        ("%0 = input 0 3\n%0 = input 0 3\n", Some(1)),
        // inputs
        ("%0 = input 3 0\n", Some(0)),
        ("%0 = input -32769 0\n", Some(0)),
        ("%0 = input 0 65536\n", Some(0)),
        ("%0 = input 0 99999999999999999999\n", Some(0)),
        ("%0 = lin 0\n%1 = input 0 3\n", Some(1)),
        // weighted sums
        (
            "%0 = input 0 3\n%1 = lin 2199023255552 1099511627776 %0\n",
            None,
        ),
        ("%0 = input 0 3\n%1 = lin 2199023255553 1 %0\n", Some(1)),
        ("%0 = input 0 3\n%1 = lin 0 1099511627777 %0\n", Some(1)),
        ("%0 = input 0 3\n%1 = lin 0 0 %0\n", Some(1)),
        ("%0 = input 0 3\n%1 = lin 0 1 %0 1 %0\n", Some(1)),
        (
            "%0 = input 0 3\n%1 = input 0 3\n%2 = lin 0 1 %1 1 %0\n",
            Some(2),
        ),
        ("%0 = input 0 3\n%1 = lin 0 1 %1\n", Some(1)),
        ("%0 = input 0 3\n%1 = lin 0 1 %-1\n", Some(1)),
        ("%0 = input 0 3\n%1 = lin 0 1 %4294967296\n", Some(1)),
        (
            "%0 = input 0 3\n%1 = lin 0 1 %0\n%2 = lin 0 1 %1\n",
            Some(2),
        ),
        // key switches: one that no bootstrap is on, one on a range that starts at 1, one on a key switch
        ("%0 = input 0 3\n%1 = switch %0\nout %0 0 3\n", Some(1)),
        (
            "%0 = input 1 3\n%1 = switch %0\n%2 = boot %1 1 1 1\n",
            Some(1),
        ),
        (
            "%0 = input 0 3\n%1 = switch %0\n%2 = switch %1\n%3 = boot %1 1 3 0 2\n",
            Some(2),
        ),
        // a bootstrap that breaks its own rule still names its key switch
        (
            "%0 = input 0 3\n%1 = switch %0\n%2 = boot %1 1 3 0\n",
            Some(2),
        ),
        (
            "%0 = input 0 3\n%1 = switch %0\n%2 = boot %1 1 3 0 2 1\n",
            Some(2),
        ),
        (
            "%0 = input 0 3\n%1 = switch %0\n%2 = boot %1 1 3 0 65536\n",
            Some(2),
        ),
        ("%0 = input 0 3\n%1 = boot %0 1 3 0 2\n", Some(1)),
        // outs
        ("%0 = input 0 3\nout %0 0 2\n", Some(1)),
        ("%0 = input 0 3\nout %1 0 3\n", Some(1)),
        (
            "%0 = input 0 3\n%1 = switch %0\n%2 = boot %1 1 3 0 2\nout %1 0 3\n",
            Some(3),
        ),
        (
            "%0 = input 0 65535\n%1 = lin 1 1 %0\nout %1 1 65536\n",
            Some(2),
        ),
        ("%0 = input 0 3\nout %-1 0 3\n", Some(1)),
    ];
    for (text, broken) in table {
        match walk_of(rt.alloc(), text.as_bytes()) {
            Ok(walk) => assert_eq!(rt; walk.first_broken(), broken, "{text}"),
            Err(refusal) => assert!(rt; false, "{refusal:?} {text}"),
        }
    }
    Ok(())
}

#[test]
fn the_operations_of_a_look_up(rt: HostRuntime) -> Result<(), Fail> {
    let text =
        "%0 = input 0 3\n%1 = lin 0 1 %0\n%2 = switch %1\n%3 = boot %2 1 3 0 2\nout %3 0 3\n";
    match walk_of(rt.alloc(), text.as_bytes()) {
        Ok(walk) => {
            let nodes = walk.into_nodes();
            for (width, least) in [(0, false), (1, false), (2, true), (3, false), (17, false)] {
                assert_eq!(rt; nodes.is_least_width(width), least);
            }
            let shape = nodes.into_shape(2);
            assert_eq!(rt; shape.width, 2);
            assert_eq!(rt; shape.node_count(), 5);
            let out = format!(in rt.alloc(); "{:?}", shape.node(4))?;
            assert_eq!(rt; out.as_str(), "Out { source: 3, lo: 0, hi: 3 }");
        }
        Err(refusal) => assert!(rt; false, "{refusal:?}"),
    }
    Ok(())
}

ghost use Rattle.std.specs.Prelude.{None};

use super::*;
use std::alloc::Global;
use std::fs;
use std::test::Fail;

// A store with one file.
fn with_file(alloc: Global, name: &str, bytes: &[u8]) -> Result<MemStore, Fail> {
    let mut store = MemStore::new(alloc);
    store.set(name, bytes)?;
    Ok(store)
}

#[test]
fn mem_store_reads(rt: HostRuntime) -> Result<(), Fail> {
    let mut store = with_file(rt.alloc(), "a", b"abc")?;
    assert_eq!(rt; store.size("a"), Ok(3));
    assert_eq!(rt; store.size("b"), Err(PortFault::Failed));
    for (at, room, want) in [
        (0, 2, "ab"),
        (1, 4, "bc"),
        (0, 0, ""),
        (3, 1, ""),
        (9, 1, ""),
        (u64::MAX, 1, ""),
    ] {
        let mut buffer = vec![in rt.alloc(); b'.'; room]?;
        let count = store.read_at("a", at, &mut buffer)?;
        let read = buffer.get(..count).ok_or("count")?;
        assert_eq!(rt; read, want.as_bytes(), "from {at}");
    }
    assert_eq!(rt; store.read_at("b", 0, &mut [0]), Err(PortFault::Failed));
    Ok(())
}

#[test]
fn mem_store_writes(rt: HostRuntime) -> Result<(), Fail> {
    let mut store = with_file(rt.alloc(), "a", b"abc")?;
    store.append("a", b"de")?;
    assert_eq!(rt; store.bytes("a").ok_or("a")?, b"abcde".as_slice());
    store.create("a")?;
    assert_eq!(rt; store.bytes("a").ok_or("a")?, b"".as_slice());
    assert_eq!(rt; store.append("b", b"x"), Err(PortFault::Failed));
    assert!(rt; store.bytes("b").is_none());
    Ok(())
}

#[test]
fn mem_store_fails_as_listed(rt: HostRuntime) -> Result<(), Fail> {
    for (kept, after) in [(0, "ab"), (2, "abcd"), (100, "abcde")] {
        let mut store = with_file(rt.alloc(), "a", b"ab")?;
        for call in 0..4 {
            store.fail(call, kept)?;
            store.fail(call, 1)?;
        }
        assert_eq!(rt; store.size("a"), Err(PortFault::Failed));
        assert_eq!(rt; store.read_at("a", 0, &mut [0]), Err(PortFault::Failed));
        assert_eq!(rt; store.create("a"), Err(PortFault::Failed));
        assert_eq!(rt; store.append("a", b"cde"), Err(PortFault::Failed));
        assert_eq!(rt;
            store.bytes("a").ok_or("a")?,
            after.as_bytes(),
            "kept {kept}"
        );
        assert_eq!(rt; store.size("a"), Ok(after.len() as u64));
    }
    Ok(())
}

#[test]
fn whole_files_are_read_under_a_limit(rt: HostRuntime) -> Result<(), Fail> {
    let mut store = with_file(rt.alloc(), "a", b"abc")?;
    let bytes = read_whole(rt.alloc(), &mut store, "a", 3)?;
    assert_eq!(rt; bytes.as_slice(), b"abc".as_slice());
    for (name, limit, refusal) in [
        ("a", 2, ReadRefusal::Above { size: 3 }),
        ("b", 2, ReadRefusal::Failed),
    ] {
        match read_whole(rt.alloc(), &mut store, name, limit) {
            Ok(_) => panic!(rt; "read {name}"),
            Err(got) => assert_eq!(rt; got, refusal, "{name}"),
        }
    }
    Ok(())
}

#[test]
fn whole_files_are_written_in_pieces(rt: HostRuntime) -> Result<(), Fail> {
    for (size, calls) in [(0, 1), (1, 2), (65_536, 2), (65_537, 3)] {
        let bytes = vec![in rt.alloc(); b'x'; size]?;
        let mut store = with_file(rt.alloc(), "a", b"old")?;
        store.fail(calls, 0)?;
        write_whole(&mut store, "a", &bytes)?;
        assert_eq!(rt;
            store.bytes("a").ok_or("a")?,
            bytes.as_slice(),
            "{size} bytes"
        );
        assert_eq!(rt;
            store.size("a"),
            Err(PortFault::Failed),
            "{size} bytes: calls"
        );

        let mut store = with_file(rt.alloc(), "a", b"old")?;
        store.fail(calls - 1, 0)?;
        assert_eq!(rt;
            write_whole(&mut store, "a", &bytes),
            Err(PortFault::Failed)
        );
    }
    Ok(())
}

#[test]
fn a_failed_piece_leaves_the_beginning(rt: HostRuntime) -> Result<(), Fail> {
    let bytes = vec![in rt.alloc(); b'x'; 70_000]?;
    let mut store = MemStore::new(rt.alloc());
    store.fail(2, 100)?;
    assert_eq!(rt;
        write_whole(&mut store, "a", &bytes),
        Err(PortFault::Failed)
    );
    assert_eq!(rt; store.bytes("a").ok_or("a")?.len(), 65_636);
    Ok(())
}

// A store whose file has shrunk since its size was asked.
#[derive(Drop)]
struct Shrunk;

impl Store for Shrunk {
    ghost files = { λ _. None };

    ghost shown = { λ _. None };

    ghost read_faults = { λ _. 0 };

    ghost write_faults = { λ _. 0 };

    fn size(&mut self, _name: &str) -> Result<u64, PortFault> {
        Ok(5)
    }

    fn read_at(&mut self, _name: &str, at: u64, buffer: &mut [u8]) -> Result<usize, PortFault> {
        if at < 3 && !buffer.is_empty() {
            buffer[0] = b'x';
            Ok(1)
        } else {
            Ok(0)
        }
    }

    fn create(&mut self, _name: &str) -> Result<(), PortFault> {
        Ok(())
    }

    fn append(&mut self, _name: &str, _bytes: &[u8]) -> Result<(), PortFault> {
        Ok(())
    }
}

#[test]
fn a_file_that_shrinks_is_not_padded(rt: HostRuntime) -> Result<(), Fail> {
    let read = read_whole(rt.alloc(), &mut Shrunk, "a", 5)?;
    assert_eq!(rt; read.as_slice(), b"xxx".as_slice());
    Ok(())
}

#[test]
fn mem_sink_takes(rt: HostRuntime) -> Result<(), Fail> {
    let mut sink = MemSink::new(rt.alloc());
    sink.fail(1, 2)?;
    sink.fail(2, 100)?;
    for (bytes, answer, taken) in [
        ("ab", Ok(()), "ab"),
        ("cde", Err(PortFault::Failed), "abcd"),
        ("fg", Err(PortFault::Failed), "abcdfg"),
        ("h", Ok(()), "abcdfgh"),
    ] {
        assert_eq!(rt; sink.put(bytes.as_bytes()), answer, "{bytes}");
        assert_eq!(rt; sink.bytes(), taken.as_bytes());
    }
    Ok(())
}

#[test]
fn texts(rt: HostRuntime) -> Result<(), Fail> {
    for (fault, text) in [(PortFault::Failed, "failed"), (PortFault::Memory, "memory")] {
        assert_eq!(rt; fault.to_string(rt.alloc())?.as_str(), text);
    }
    for (refusal, text) in [
        (ReadRefusal::Failed, "failed"),
        (ReadRefusal::Memory, "memory"),
        (ReadRefusal::Above { size: 3 }, "above the limit"),
    ] {
        assert_eq!(rt; refusal.to_string(rt.alloc())?.as_str(), text);
    }
    Ok(())
}

#[test]
fn real_files(rt: HostRuntime) -> Result<(), Fail> {
    let name = "port_store_test.tmp";
    let mut store = FileStore::new(&rt, rt.alloc());
    let bytes = vec![in rt.alloc(); b'x'; 65_537]?;
    write_whole(&mut store, name, &bytes)?;
    assert_eq!(rt; store.size(name), Ok(65_537));
    assert_eq!(rt; store.read_at(name, 65_530, &mut [0; 16]), Ok(7));
    let read = read_whole(rt.alloc(), &mut store, name, 65_537)?;
    assert_eq!(rt; read.as_slice(), bytes.as_slice());
    store.create(name)?;
    assert_eq!(rt; store.size(name), Ok(0));
    fs::remove_file(&rt, name)?;
    assert_eq!(rt;
        FileStore::new(&rt, rt.alloc()).append(name, b"x"),
        Err(PortFault::Failed)
    );
    assert_eq!(rt; store.size(name), Err(PortFault::Failed));
    Ok(())
}

#[test]
fn only_regular_files_are_read(rt: HostRuntime) -> Result<(), Fail> {
    let mut store = FileStore::new(&rt, rt.alloc());
    for name in [".", "/dev/zero"] {
        assert_eq!(rt; store.size(name), Err(PortFault::Failed), "{name}");
        assert_eq!(rt;
            store.read_at(name, 0, &mut [0]),
            Err(PortFault::Failed),
            "{name}"
        );
    }
    Ok(())
}

#[test]
fn a_created_file_stays_open(rt: HostRuntime) -> Result<(), Fail> {
    let (name, other) = ("port_store_created.tmp", "port_store_moved.tmp");
    let mut store = FileStore::new(&rt, rt.alloc());
    store.create(name)?;
    store.append(name, b"ab")?;
    fs::rename(&rt, name, other)?;
    store.append(name, b"c")?;
    assert_eq!(rt; store.size(other), Ok(3));
    fs::remove_file(&rt, other)?;
    Ok(())
}

#[test]
fn standard_output(rt: HostRuntime) -> Result<(), Fail> {
    let mut sink = OutSink::new(&rt, rt.alloc());
    sink.put(b"out\n")?;
    Ok(())
}

use fluid_io::{MemorySink, MemorySource};
use fluid_json::Text;
use fluid_lines::{LineWire, MemoryWire, Recv, Wire, WireFault, WireScript};
use std::alloc::Global;
use std::collections::VecDeque;
use std::sync::Wait;
use std::test::Fail;

// What a wire answers to so many receives: a text as [text], quiet as ?, the end as a full stop, a fault as !.
fn received<R: Wait, W: Wire>(
    rt: &R,
    alloc: Global,
    wire: &mut W,
    calls: u64,
) -> Result<String, Fail> {
    let mut told = String::new(alloc);
    for _ in 0..calls {
        match wire.recv(rt, alloc) {
            Ok(Recv::Text(text)) => told.push_str(format!(in alloc;
                "[{}]",
                text.as_str()
            )?.as_str())?,
            Ok(Recv::Quiet) => told.push_str("?")?,
            Ok(Recv::End) => told.push_str(".")?,
            Ok(Recv::TooLong(size)) => told.push_str(format!(in alloc; "+{size}")?.as_str())?,
            Err(WireFault::Failed) => told.push_str("!")?,
            Err(WireFault::NoMemory) => told.push_str("no memory")?,
        }
    }
    Ok(told)
}

fn memory_wire(
    alloc: Global,
    texts: &[&str],
    failing_receives: &[u64],
    quiet_receives: &[u64],
    failing_sends: &[u64],
) -> Result<MemoryWire, Fail> {
    let mut all = VecDeque::new(alloc);
    for text in texts {
        all.push_back(Text::copied(alloc, text)?)?;
    }
    let script = WireScript {
        texts: all,
        failing_receives: Vec::from_slice(alloc, failing_receives)?,
        failing_sends: Vec::from_slice(alloc, failing_sends)?,
        quiet_receives: Vec::from_slice(alloc, quiet_receives)?,
    };
    Ok(MemoryWire::new(alloc, script))
}

fn line_wire(
    alloc: Global,
    bytes: &[u8],
    failing_reads: &[u64],
    failing_writes: &[u64],
) -> Result<LineWire<MemorySource, MemorySink>, Fail> {
    let bytes = Vec::from_slice(alloc, bytes)?;
    let source = MemorySource::in_pieces(bytes, 2, Vec::from_slice(alloc, failing_reads)?);
    let sink = MemorySink::new(alloc, Vec::from_slice(alloc, failing_writes)?);
    Ok(LineWire::new(source, sink))
}

#[test]
fn a_wire_in_memory_answers_by_its_script(rt: HostRuntime) -> Result<(), Fail> {
    let alloc = rt.alloc();
    let rows: [(&[u64], &[u64], &str); 8] = [
        (&[], &[], "[a][].."),
        (&[1], &[], "![a][]."),
        (&[2], &[], "[a]![]."),
        (&[3], &[], "[a][]!."),
        (&[4], &[], "[a][].!"),
        (&[], &[1, 3], "?[a]?[]"),
        (&[2], &[2], "[a]![]."),
        (&[], &[3], "[a][]?."),
    ];
    for (failing, quiet, want) in rows {
        let mut wire = memory_wire(alloc, &["a", ""], failing, quiet, &[])?;
        assert_eq!(rt; received(&rt, alloc, &mut wire, 4)?.as_str(), want);
    }
    Ok(())
}

#[test]
fn each_line_is_a_text(rt: HostRuntime) -> Result<(), Fail> {
    let alloc = rt.alloc();
    let rows: [(&[u8], &[u64], &str); 8] = [
        (b"", &[], "...."),
        (b"a\n\nb", &[], "[a][][b]."),
        (b"\n\r\n", &[], "[][].."),
        (b"a\n\xff\nb\n", &[], "[a]!.."),
        (b"a\nb\n", &[1], "!..."),
        (b"a\nb\n", &[2], "[a]!.."),
        (b"a\nb\n", &[3], "[a][b]!."),
        (b"a\nb\n", &[5], "[a][b].."),
    ];
    for (bytes, failing, want) in rows {
        let mut wire = line_wire(alloc, bytes, failing, &[])?;
        assert_eq!(rt; received(&rt, alloc, &mut wire, 4)?.as_str(), want);
    }
    Ok(())
}

#[test]
fn each_text_that_is_sent_is_a_line(rt: HostRuntime) -> Result<(), Fail> {
    let alloc = rt.alloc();
    let rows: [(u64, &str); 5] = [(1, ""), (2, "ab"), (3, "ab\n"), (4, "ab\n"), (9, "ab\n\n")];
    for (failing, want) in rows {
        let mut wire = line_wire(alloc, b"", &[], &[failing])?;
        let sent = wire
            .send(&rt, alloc, "ab")
            .and_then(|_| wire.send(&rt, alloc, ""));
        assert_eq!(rt; sent.is_ok(), failing == 9, "where call {failing} fails");
        let (_source, sink) = wire.into_parts();
        assert_eq!(rt;
            sink.written(),
            want.as_bytes(),
            "where call {failing} fails"
        );
    }
    Ok(())
}

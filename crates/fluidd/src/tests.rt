//! The program over readers and writers in memory: what fails, what limits refuse, and what stays unread. What the program
//! writes for an input and for words is among the examples, which are run outside the proofs.

use crate::sequence::sequence_within;
use crate::serving_tests::{front_of, run_on};
use fluid_front::HereSpawner;
use fluid_io::{MemorySink, MemorySource, Source};
use fluid_json::Text;
use std::alloc::Global;
use std::net::Net;
use std::process::Abort;
use std::sync::Wait;
use std::thread::Threads;

// A join, and the line of its verdict in an empty document.
const JOIN: &str =
    r#"{"raw":"join","clientId":"A","detail":null,"scopes":["doc:read","doc:write"],"moment":5}
"#;

const JOINED: &str =
    r#"{"sequenced":{"clientId":null,"clientSequenceNumber":-1,"contents":null,"data":"{\"clientId\":\"A\",\"detail\":null}","minimumSequenceNumber":0,"referenceSequenceNumber":-1,"sequenceNumber":1,"timestamp":5,"type":"join"}}
"#;

// The same with a refused line behind it.
const REFUSED: &str =
    r#"{"sequenced":{"clientId":null,"clientSequenceNumber":-1,"contents":null,"data":"{\"clientId\":\"A\",\"detail\":null}","minimumSequenceNumber":0,"referenceSequenceNumber":-1,"sequenceNumber":1,"timestamp":5,"type":"join"}}
bad line 2: not JSON
"#;

// A join, a line that is no JSON, and one more or none behind it.
const THREE: &str =
    r#"{"raw":"join","clientId":"A","detail":null,"scopes":["doc:read","doc:write"],"moment":5}
7 8
{"raw":"join","clientId":"A","detail":null,"scopes":["doc:read","doc:write"],"moment":5}
"#;

const CUT: &str =
    r#"{"raw":"join","clientId":"A","detail":null,"scopes":["doc:read","doc:write"],"moment":5}
7 8"#;

// A run: its words, its input, how many bytes a call reads or writes at most, and which reads and which calls of the sink
// fail. It ends with a status, and writes so many bytes from the front of an output.
#[derive(Clone, Copy)]
struct Run<'a> {
    words: &'a [&'a str],
    input: &'a str,
    most: usize,
    reads: &'a [u64],
    writes: &'a [u64],
    status: u8,
    length: usize,
    output: &'a str,
}

const FAULTS: &[Run] = &[
    // Reads of 96 bytes give the first line and the second one, and the third in parts.
    Run {
        words: &["sequence"],
        input: THREE,
        most: 96,
        reads: &[1],
        writes: &[],
        status: 4,
        length: 0,
        output: REFUSED,
    },
    Run {
        words: &["sequence"],
        input: THREE,
        most: 96,
        reads: &[2],
        writes: &[],
        status: 3,
        length: 243,
        output: REFUSED,
    },
    // With no line end behind it a line was read once a read has given nothing.
    Run {
        words: &["sequence"],
        input: CUT,
        most: 96,
        reads: &[2],
        writes: &[],
        status: 4,
        length: 222,
        output: REFUSED,
    },
    Run {
        words: &["sequence"],
        input: CUT,
        most: 96,
        reads: &[3],
        writes: &[],
        status: 3,
        length: 243,
        output: REFUSED,
    },
    // Four writes of 64 bytes take the line, and then the sink hands it on.
    Run {
        words: &["sequence"],
        input: JOIN,
        most: 64,
        reads: &[],
        writes: &[1],
        status: 5,
        length: 0,
        output: JOINED,
    },
    Run {
        words: &["sequence"],
        input: JOIN,
        most: 64,
        reads: &[],
        writes: &[2],
        status: 5,
        length: 64,
        output: JOINED,
    },
    Run {
        words: &["sequence"],
        input: JOIN,
        most: 64,
        reads: &[],
        writes: &[3],
        status: 5,
        length: 128,
        output: JOINED,
    },
    Run {
        words: &["sequence"],
        input: JOIN,
        most: 64,
        reads: &[],
        writes: &[4],
        status: 5,
        length: 192,
        output: JOINED,
    },
    Run {
        words: &["sequence"],
        input: JOIN,
        most: 64,
        reads: &[],
        writes: &[5],
        status: 5,
        length: 222,
        output: JOINED,
    },
    // A page, the version and the usage line, and the version with a sink that doesn't hand it on.
    Run {
        words: &["--help"],
        input: "",
        most: 64,
        reads: &[],
        writes: &[1],
        status: 5,
        length: 0,
        output: "",
    },
    Run {
        words: &["--version"],
        input: "",
        most: 64,
        reads: &[],
        writes: &[1],
        status: 5,
        length: 0,
        output: "",
    },
    Run {
        words: &[],
        input: "",
        most: 64,
        reads: &[],
        writes: &[1],
        status: 5,
        length: 0,
        output: "",
    },
    Run {
        words: &["--version"],
        input: "",
        most: 64,
        reads: &[],
        writes: &[2],
        status: 5,
        length: 13,
        output: "fluidd 0.1.0\n",
    },
];

// A leave of nobody and the line of its verdict, 4,000 times: 168,000 bytes in and 68,000 out. Which reads of 64 KiB fail and
// which calls of the sink, the status, and how many bytes are written.
const LEAVE: &str = r#"{"raw":"leave","clientId":"B","moment":1}
"#;

const DROPPED: &str = r#"{"dropped":true}
"#;

const LONG: &[(&[u64], &[u64], u8, usize)] = &[
    // 65,536 bytes have 1,560 lines in them, and twice as many 3,120. The fourth read tells the end, and a fifth there isn't.
    (&[1], &[], 4, 0),
    (&[2], &[], 4, 26_520),
    (&[3], &[], 4, 53_040),
    (&[4], &[], 4, 68_000),
    (&[5], &[], 0, 68_000),
    // Lines go to the sink once they are 64 KiB, which 3,856 of them are, and at the end; with two calls each time.
    (&[], &[1], 5, 0),
    (&[], &[2], 5, 65_552),
    (&[], &[3], 5, 65_552),
    (&[], &[4], 5, 68_000),
    (&[], &[5], 0, 68_000),
];

// What each limit refuses: how many entries and clients may be, the input, the status, and the output.
const LIMITS: &[(u64, u32, &str, u8, &str)] = &[
    (
        2,
        1,
        r#"{"raw":"join","clientId":"A","detail":null,"scopes":["doc:read","doc:write"],"moment":5}
{"raw":"join","clientId":"B","detail":null,"scopes":[],"moment":6}
"#,
        3,
        r#"{"sequenced":{"clientId":null,"clientSequenceNumber":-1,"contents":null,"data":"{\"clientId\":\"A\",\"detail\":null}","minimumSequenceNumber":0,"referenceSequenceNumber":-1,"sequenceNumber":1,"timestamp":5,"type":"join"}}
bad line 2: too many clients
"#,
    ),
    // The full document comes first.
    (
        1,
        1,
        r#"{"raw":"join","clientId":"A","detail":null,"scopes":["doc:read","doc:write"],"moment":5}
{"raw":"join","clientId":"B","detail":null,"scopes":[],"moment":6}
"#,
        3,
        r#"{"sequenced":{"clientId":null,"clientSequenceNumber":-1,"contents":null,"data":"{\"clientId\":\"A\",\"detail\":null}","minimumSequenceNumber":0,"referenceSequenceNumber":-1,"sequenceNumber":1,"timestamp":5,"type":"join"}}
bad line 2: document is full
"#,
    ),
    (
        2,
        5,
        r#"{"raw":"join","clientId":"A","detail":null,"scopes":["doc:read","doc:write"],"moment":5}
{"raw":"submit","clientId":"A","moment":6,"operation":{"clientSequenceNumber":1,"contents":null,"referenceSequenceNumber":1,"type":"op"}}
{"raw":"submit","clientId":"A","moment":7,"operation":{"clientSequenceNumber":2,"contents":null,"referenceSequenceNumber":2,"type":"op"}}
"#,
        3,
        r#"{"sequenced":{"clientId":null,"clientSequenceNumber":-1,"contents":null,"data":"{\"clientId\":\"A\",\"detail\":null}","minimumSequenceNumber":0,"referenceSequenceNumber":-1,"sequenceNumber":1,"timestamp":5,"type":"join"}}
{"sequenced":{"clientId":"A","clientSequenceNumber":1,"contents":null,"minimumSequenceNumber":1,"referenceSequenceNumber":1,"sequenceNumber":2,"timestamp":6,"type":"op"}}
bad line 3: document is full
"#,
    ),
    // A leave enters a full document.
    (
        2,
        5,
        r#"{"raw":"join","clientId":"A","detail":null,"scopes":["doc:read","doc:write"],"moment":5}
{"raw":"submit","clientId":"A","moment":6,"operation":{"clientSequenceNumber":1,"contents":null,"referenceSequenceNumber":1,"type":"op"}}
{"raw":"leave","clientId":"A","moment":8}
"#,
        0,
        r#"{"sequenced":{"clientId":null,"clientSequenceNumber":-1,"contents":null,"data":"{\"clientId\":\"A\",\"detail\":null}","minimumSequenceNumber":0,"referenceSequenceNumber":-1,"sequenceNumber":1,"timestamp":5,"type":"join"}}
{"sequenced":{"clientId":"A","clientSequenceNumber":1,"contents":null,"minimumSequenceNumber":1,"referenceSequenceNumber":1,"sequenceNumber":2,"timestamp":6,"type":"op"}}
{"sequenced":{"clientId":null,"clientSequenceNumber":-1,"contents":null,"data":"\"A\"","minimumSequenceNumber":3,"referenceSequenceNumber":-1,"sequenceNumber":3,"timestamp":8,"type":"leave"}}
"#,
    ),
    // A second join of a joined client is no new client, and is dropped.
    (
        2,
        1,
        r#"{"raw":"join","clientId":"A","detail":null,"scopes":["doc:read","doc:write"],"moment":5}
{"raw":"join","clientId":"A","detail":null,"scopes":["doc:read","doc:write"],"moment":5}
"#,
        0,
        r#"{"sequenced":{"clientId":null,"clientSequenceNumber":-1,"contents":null,"data":"{\"clientId\":\"A\",\"detail\":null}","minimumSequenceNumber":0,"referenceSequenceNumber":-1,"sequenceNumber":1,"timestamp":5,"type":"join"}}
{"dropped":true}
"#,
    ),
    // A dropped join counts.
    (
        2,
        5,
        r#"{"raw":"join","clientId":"A","detail":null,"scopes":["doc:read","doc:write"],"moment":5}
{"raw":"join","clientId":"A","detail":null,"scopes":["doc:read","doc:write"],"moment":5}
{"raw":"submit","clientId":"A","moment":6,"operation":{"clientSequenceNumber":1,"contents":null,"referenceSequenceNumber":1,"type":"op"}}
"#,
        3,
        r#"{"sequenced":{"clientId":null,"clientSequenceNumber":-1,"contents":null,"data":"{\"clientId\":\"A\",\"detail\":null}","minimumSequenceNumber":0,"referenceSequenceNumber":-1,"sequenceNumber":1,"timestamp":5,"type":"join"}}
{"dropped":true}
bad line 3: document is full
"#,
    ),
];

// Words, steps, which calls of the shelves and which of the store fail, the status, and what is written.
const DESKS: &[(&[&str], &str, &[u64], &[u64], u8, &str)] = &[
    (
        &["script"],
        "count d\ncount e\n",
        &[3],
        &[1],
        0,
        "d 0 entries, number 0, minimum 0\ne 0 entries, number 0, minimum 0\n",
    ),
    (
        &["script"],
        "count d\ncount e\n",
        &[2],
        &[],
        7,
        "d 0 entries, number 0, minimum 0\n",
    ),
    (
        &["script"],
        "load p d none\nsummarize p\n",
        &[],
        &[1],
        8,
        "p loaded d at 1\n",
    ),
    (
        &["script"],
        "count d\ncount\n",
        &[],
        &[],
        3,
        "d 0 entries, number 0, minimum 0\nbad line 2: bad step\n",
    ),
    (&["load", "d"], "count d\n", &[], &[1], 0, "d at 1: {}\n"),
    (&["load", "d"], "count e\n", &[2], &[], 7, ""),
];

fn texts(rt: &impl Abort, alloc: Global, words: &[&str]) -> Vec<Text> {
    let mut texts = Vec::new(alloc);
    for word in words {
        let text = Text::copied(alloc, word).expect(rt, "memory");
        texts.push(text).expect(rt, "memory");
    }
    texts
}

fn source(rt: &impl Abort, alloc: Global, input: &str, most: usize, reads: &[u64]) -> MemorySource {
    let bytes = Vec::from_slice(alloc, input.as_bytes()).expect(rt, "memory");
    let failing = Vec::from_slice(alloc, reads).expect(rt, "memory");
    MemorySource::in_pieces(bytes, most.max(1), failing)
}

fn sink(rt: &impl Abort, alloc: Global, most: usize, writes: &[u64]) -> MemorySink {
    let failing = Vec::from_slice(alloc, writes).expect(rt, "memory");
    MemorySink::in_pieces(alloc, most.max(1), failing)
}

// So many bytes are written, which are the front of this output.
fn has_written(rt: &impl Abort, sink: &MemorySink, length: usize, output: &str) {
    let written = sink.written();
    assert!(rt;
        written.len() == length && output.as_bytes().starts_with(written),
        "{length} bytes"
    );
}

fn ends<R: Threads + Wait + Net + Sync + Abort>(rt: &R, alloc: Global, row: &Run) {
    let words = texts(rt, alloc, row.words);
    let mut source = source(rt, alloc, row.input, row.most, row.reads);
    let mut sink = sink(rt, alloc, row.most, row.writes);
    let front = front_of(rt, alloc, 0, &[]);
    let status = run_on(
        rt,
        alloc,
        &words,
        &mut source,
        &mut sink,
        (&[], &[]),
        front,
        HereSpawner,
    );
    assert!(rt; status == row.status, "{status}");
    has_written(rt, &sink, row.length, row.output);
    drop(sink);
    drop(source);
    drop(words);
}

// Runs `sequence` within the limits of a row, with its status and its output.
fn sequenced(
    rt: &impl Abort,
    alloc: Global,
    source: &mut MemorySource,
    row: &(u64, u32, &str, u8, &str),
) {
    let (entries, clients, _, wanted, output) = row;
    let mut sink = sink(rt, alloc, usize::MAX, &[]);
    let status = sequence_within(rt, alloc, source, &mut sink, *entries, *clients);
    assert!(rt; status == *wanted, "{status}");
    has_written(rt, &sink, output.len(), output);
    drop(sink);
}

// Runs the steps of a row over a desk that fails as it says.
fn does_steps<R: Threads + Wait + Net + Sync + Abort>(
    rt: &R,
    alloc: Global,
    row: &(&[&str], &str, &[u64], &[u64], u8, &str),
) {
    let (words, steps, shelves, store, wanted, output) = row;
    let words = texts(rt, alloc, words);
    let mut source = source(rt, alloc, steps, usize::MAX, &[]);
    let mut sink = sink(rt, alloc, usize::MAX, &[]);
    let front = front_of(rt, alloc, 0, &[]);
    let status = run_on(
        rt,
        alloc,
        &words,
        &mut source,
        &mut sink,
        (shelves, store),
        front,
        HereSpawner,
    );
    assert!(rt; status == *wanted, "{status}");
    has_written(rt, &sink, output.len(), output);
    drop(sink);
    drop(source);
    drop(words);
}

// How many bytes are left in a source, which are fewer than 100.
fn left_in(rt: &impl Abort, alloc: Global, source: &mut MemorySource) -> usize {
    let mut piece = vec![in alloc; 0; 100].expect(rt, "memory");
    let mut left = 0_usize;
    for _ in 0..100 {
        let more = source.read(&mut piece).expect(rt, "a reading");
        left = left.saturating_add(more);
    }
    drop(piece);
    left
}

#[test]
fn each_fault_leaves_whole_lines_or_a_beginning(rt: HostRuntime) {
    for row in FAULTS {
        ends(&rt, rt.alloc(), row);
    }
}

#[test]
fn a_long_input_is_answered_as_far_as_it_was_read_and_written(rt: HostRuntime) {
    let alloc = rt.alloc();
    let input = LEAVE.repeat(alloc, 4_000).expect(&rt, "memory");
    let output = DROPPED.repeat(alloc, 4_000).expect(&rt, "memory");
    for (reads, writes, status, length) in LONG {
        ends(
            &rt,
            alloc,
            &Run {
                words: &["sequence"],
                input: input.as_str(),
                most: usize::MAX,
                reads,
                writes,
                status: *status,
                length: *length,
                output: output.as_str(),
            },
        );
    }
    drop(output);
    drop(input);
}

#[test]
fn steps_are_done_as_far_as_the_desk_goes(rt: HostRuntime) {
    for row in DESKS {
        does_steps(&rt, rt.alloc(), row);
    }
}

#[test]
fn a_document_takes_no_more_than_its_limits(rt: HostRuntime) {
    let alloc = rt.alloc();
    for row in LIMITS {
        let mut source = source(&rt, alloc, row.2, usize::MAX, &[]);
        sequenced(&rt, alloc, &mut source, row);
        drop(source);
    }
}

#[test]
fn what_is_behind_a_refused_line_stays_in_the_source(rt: HostRuntime) {
    let alloc = rt.alloc();
    let mut source = source(&rt, alloc, "7 8\n12345678\n", 1, &[]);
    sequenced(
        &rt,
        alloc,
        &mut source,
        &(9, 9, "", 3, "bad line 1: not JSON\n"),
    );
    let left = left_in(&rt, alloc, &mut source);
    assert!(rt; left == 9, "{left}");
    drop(source);
}

// What scripts write.
use crate::runs::{is_done_as, is_done_within};
use fluid_rules::Limits;
use std::alloc::Global;
use std::process::Abort;

// Two containers, and one that is loaded from a summary.
pub const TWO_CONTAINERS: &str = r#"load p d none
edit p {"type":"attach","address":"m","kind":"map"}
load q d none
edit p {"address":"m","contents":{"type":"set","key":"k","value":{"type":"Plain","value":1}}}
edit q {"address":"m","contents":{"type":"clear"}}
edit q {"address":"m","contents":{"type":"set","key":"k","value":{"type":"Plain","value":2}}}
show p
show q
pump p
show p
summarize p
scribe d
edit p {"address":"m","contents":{"type":"delete","key":"k"}}
load r d latest
show r
pump q
show q
scribe d
beat q
beat r
count d
"#;

const TWO_CONTAINERS_SAY: &str = r#"p loaded d at 1
p edited
q loaded d at 3
p edited
q edited
q edited
p at 1: {"m":{"kind":"map","value":{"k":1}}}
q at 3: {"m":{"kind":"map","value":{"k":2}}}
p at 6
p at 6: {"m":{"kind":"map","value":{"k":2}}}
p summarized at 6
d scribe ack 7
p edited
r loaded d at 10
r at 10: {"m":{"kind":"map","value":{}}}
q at 10
q at 10: {"m":{"kind":"map","value":{}}}
d scribe idle
q beats at 10
r beats at 10
d 12 entries, number 10, minimum 6
"#;

// The first thirteen of these lines, behind which a container is loaded.
const THIRTEEN: &str = r#"load p d none
edit p {"type":"attach","address":"m","kind":"map"}
load q d none
edit p {"address":"m","contents":{"type":"set","key":"k","value":{"type":"Plain","value":1}}}
edit q {"address":"m","contents":{"type":"clear"}}
edit q {"address":"m","contents":{"type":"set","key":"k","value":{"type":"Plain","value":2}}}
show p
show q
pump p
show p
summarize p
scribe d
edit p {"address":"m","contents":{"type":"delete","key":"k"}}
"#;

// The first fourteen, with three checkpoints among them.
pub const THREE_CHECKPOINTS: &str = r#"checkpoint d
load p d none
edit p {"type":"attach","address":"m","kind":"map"}
load q d none
checkpoint d
edit p {"address":"m","contents":{"type":"set","key":"k","value":{"type":"Plain","value":1}}}
edit q {"address":"m","contents":{"type":"clear"}}
edit q {"address":"m","contents":{"type":"set","key":"k","value":{"type":"Plain","value":2}}}
show p
show q
pump p
show p
summarize p
scribe d
edit p {"address":"m","contents":{"type":"delete","key":"k"}}
checkpoint d
load r d latest
"#;

const THREE_CHECKPOINTS_SAY: &str = r#"d checkpoint 0 at 0
p loaded d at 1
p edited
q loaded d at 3
d checkpoint 1 at 3
p edited
q edited
q edited
p at 1: {"m":{"kind":"map","value":{"k":1}}}
q at 3: {"m":{"kind":"map","value":{"k":2}}}
p at 6
p at 6: {"m":{"kind":"map","value":{"k":2}}}
p summarized at 6
d scribe ack 7
p edited
d checkpoint 2 at 9
r loaded d at 10
"#;

// The same, and then the document begins again from each of them, and from one that there isn't.
pub const RESTARTS: &str = r#"checkpoint d
load p d none
edit p {"type":"attach","address":"m","kind":"map"}
load q d none
checkpoint d
edit p {"address":"m","contents":{"type":"set","key":"k","value":{"type":"Plain","value":1}}}
edit q {"address":"m","contents":{"type":"clear"}}
edit q {"address":"m","contents":{"type":"set","key":"k","value":{"type":"Plain","value":2}}}
show p
show q
pump p
show p
summarize p
scribe d
edit p {"address":"m","contents":{"type":"delete","key":"k"}}
checkpoint d
load r d latest
restart d 0
restart d 1
restart d 2
restart d 3
count d
"#;

pub const RESTARTS_SAY: &str = r#"d checkpoint 0 at 0
p loaded d at 1
p edited
q loaded d at 3
d checkpoint 1 at 3
p edited
q edited
q edited
p at 1: {"m":{"kind":"map","value":{"k":1}}}
q at 3: {"m":{"kind":"map","value":{"k":2}}}
p at 6
p at 6: {"m":{"kind":"map","value":{"k":2}}}
p summarized at 6
d scribe ack 7
p edited
d checkpoint 2 at 9
r loaded d at 10
d restarted from 0: 10 entries, number 10, minimum 3
d restarted from 1: 10 entries, number 10, minimum 3
d restarted from 2: 10 entries, number 10, minimum 3
d no checkpoint 3 of 3
d 10 entries, number 10, minimum 3
"#;

// What edits may be refused for.
const EDITS: &str = r#"load p d none
edit p {"address":"n","contents":{"type":"increment","incrementAmount":1}}
edit p {"type":"attach","address":"n","kind":"counter"}
edit p {"address":"n","contents":{"type":"increment","incrementAmount":9007199254740991}}
edit p {"address":"n","contents":{"type":"increment","incrementAmount":9007199254740992}}
edit p {"address":"n","contents":{"type":"clear"}}
edit p {"type":"attach","address":"n","kind":"map"}
show p
"#;

const EDITS_SAY: &str = r#"p loaded d at 1
p edit fault NoChannel
p edited
p edited
p edit fault OutOfRange
p edit fault WrongKind
p edit fault Exists
p at 1: {"n":{"kind":"counter","value":"9007199254740991"}}
"#;

// A new process lets all leave that were joined.
const REOPENED: &str = r#"load p d none
edit p {"type":"attach","address":"m","kind":"map"}
reopen d
edit p {"address":"m","contents":{"type":"clear"}}
"#;

const REOPENED_SAYS: &str = r#"p loaded d at 1
p edited
d reopened: 3 entries, number 3, minimum 3
p refused 400: Nonexistent client
"#;

// Whoever is silent for more than two lines leaves: the first joins in line 1, and the second says something last in line 3.
const SWEEPS: &str = r#"load a d none
load b d none
beat b
sweep d 2
sweep d 2
sweep d 2
"#;

const SWEEPS_SAY: &str = r#"a loaded d at 1
b loaded d at 2
b beats at 2
d swept c0
d swept none
d swept c1
"#;

// A connection that writes. The moment of each message is the number of the line by which it was entered.
const WRITES: &str =
    r#"send w ["connect_document",{"id":"g","mode":"write","scopes":["doc:read","doc:write"]}]
send w ["submitOp","c0",[{"clientSequenceNumber":1,"contents":"a","referenceSequenceNumber":1,"type":"op"}]]

collect w
collect w
close w
count g
send w x
"#;

const WRITES_SAY: &str =
    r#"w < ["connect_document_success",{"checkpointSequenceNumber":0,"clientId":"c0","maxMessageSize":1048576,"mode":"write","version":"1"}]
w < ["op","g",[{"clientId":null,"clientSequenceNumber":-1,"contents":null,"data":"{\"clientId\":\"c0\",\"detail\":null}","minimumSequenceNumber":0,"referenceSequenceNumber":-1,"sequenceNumber":1,"timestamp":1,"type":"join"},{"clientId":"c0","clientSequenceNumber":1,"contents":"a","minimumSequenceNumber":1,"referenceSequenceNumber":1,"sequenceNumber":2,"timestamp":2,"type":"op"}]]
w closed
g 3 entries, number 3, minimum 3
bad line 8: unknown name
"#;

// A summary is acknowledged whose channel `m` has the kind "map" and the content "x", which is none: the scribe doesn't read it, and no
// container can be loaded from it. Of another document nobody has acknowledged a summary. Both clients joined all the same.
const BAD_SUMMARIES: &str =
    r#"send w ["connect_document",{"id":"d","mode":"write","scopes":["doc:read","doc:write","summary:write"]}]
send w ["putObject","626c6f622033006d6170"]
send w ["putObject","626c6f6220310078"]
send w ["putObject","747265652036370031303036343420636f6e74656e7400c1b0730e0133447badcfd47fd144e254807b06e1313030363434206b696e6400e9589e4ae7d3b1a507c764e4f5bf3e7b3f231539"]
send w ["putObject","74726565203238003430303030206d00dfc071ce00a84e8e1ba6ca0c41fbe83954f9560b"]
send w ["submitOp","c0",[{"clientSequenceNumber":1,"contents":{"handle":"20f87b5053e2b461d76fa3d6c8748fd9e0109254","head":"","message":"summary at 1","parents":[]},"referenceSequenceNumber":1,"type":"summarize"}]]
scribe d
load r d latest
load s e latest
count d
count e
pump s
"#;

const BAD_SUMMARIES_SAY: &str =
    r#"w < ["connect_document_success",{"checkpointSequenceNumber":0,"clientId":"c0","maxMessageSize":1048576,"mode":"write","version":"1"}]
w < ["objectStored","e9589e4ae7d3b1a507c764e4f5bf3e7b3f231539"]
w < ["objectStored","c1b0730e0133447badcfd47fd144e254807b06e1"]
w < ["objectStored","dfc071ce00a84e8e1ba6ca0c41fbe83954f9560b"]
w < ["objectStored","20f87b5053e2b461d76fa3d6c8748fd9e0109254"]
d scribe ack 2
r bad summary .app/m/content
s no summary
d 4 entries, number 4, minimum 1
e 1 entries, number 1, minimum 0
bad line 12: unknown name
"#;

// The same summary, and nothing else.
const BAD_SUMMARIES_ALONE: &str =
    r#"send w ["connect_document",{"id":"d","mode":"write","scopes":["doc:read","doc:write","summary:write"]}]
send w ["putObject","626c6f622033006d6170"]
send w ["putObject","626c6f6220310078"]
send w ["putObject","747265652036370031303036343420636f6e74656e7400c1b0730e0133447badcfd47fd144e254807b06e1313030363434206b696e6400e9589e4ae7d3b1a507c764e4f5bf3e7b3f231539"]
send w ["putObject","74726565203238003430303030206d00dfc071ce00a84e8e1ba6ca0c41fbe83954f9560b"]
send w ["submitOp","c0",[{"clientSequenceNumber":1,"contents":{"handle":"20f87b5053e2b461d76fa3d6c8748fd9e0109254","head":"","message":"summary at 1","parents":[]},"referenceSequenceNumber":1,"type":"summarize"}]]
scribe d
"#;

// A roamer whose connection is lost with edits that stand and one that waits; and then its client is taken for gone, and an edit is refused.
const ROAMS: &str = r#"roam r e
say r {"type":"attach","address":"n","kind":"counter"}
say r {"address":"n","contents":{"type":"increment","incrementAmount":5}}
lose r
say r {"address":"n","contents":{"type":"increment","incrementAmount":7}}
back r
acked r
show r
say r {"address":"n","contents":{"type":"clear"}}
reopen e
say r {"address":"n","contents":{"type":"increment","incrementAmount":1}}
say r {"address":"n","contents":{"type":"increment","incrementAmount":2}}
show r
acked r
back r
show r
acked r
show r
"#;

const ROAMS_SAY: &str = r#"r roams e as c0 at 1
r said 0
r said 1
r lost
r said 2
r back as c4 at 5
r acked 3 of 3
r at 6: {"n":{"kind":"counter","value":"12"}}
r edit fault WrongKind
e reopened: 7 entries, number 7, minimum 7
r refused 400: Nonexistent client
r said 4
r at 6: {"n":{"kind":"counter","value":"15"}}
r acked 3 of 5
r back as c9 at 8
r at 8: {"n":{"kind":"counter","value":"15"}}
r acked 5 of 5
r at 10: {"n":{"kind":"counter","value":"15"}}
"#;

// Two clients join, and each adds an item to a queue and is given one. The first item is given back, and the holder of the second
// leaves; then the first is given again and done.
const ITEMS: &str = r#"send a ["connect_document",{"id":"d","scopes":["doc:read","doc:write"]}]
send b ["connect_document",{"id":"d","scopes":["doc:read","doc:write"]}]
send a ["submitOp","c0",[{"clientSequenceNumber":1,"contents":{"type":"queue","name":"q","op":"add","value":"x"},"referenceSequenceNumber":2,"type":"op"}]]
send b ["submitOp","c1",[{"clientSequenceNumber":1,"contents":{"type":"queue","name":"q","op":"add","value":"y"},"referenceSequenceNumber":2,"type":"op"}]]
send b ["submitOp","c1",[{"clientSequenceNumber":2,"contents":{"type":"queue","name":"q","op":"acquire"},"referenceSequenceNumber":2,"type":"op"}]]
send a ["submitOp","c0",[{"clientSequenceNumber":2,"contents":{"type":"queue","name":"q","op":"acquire"},"referenceSequenceNumber":2,"type":"op"}]]
tasks d
send b ["submitOp","c1",[{"clientSequenceNumber":3,"contents":{"type":"queue","name":"q","op":"release","item":3},"referenceSequenceNumber":2,"type":"op"}]]
close a
tasks d
send b ["submitOp","c1",[{"clientSequenceNumber":4,"contents":{"type":"queue","name":"q","op":"acquire"},"referenceSequenceNumber":2,"type":"op"},{"clientSequenceNumber":5,"contents":{"type":"queue","name":"q","op":"complete","item":3},"referenceSequenceNumber":2,"type":"op"}]]
tasks d
"#;

const ITEMS_SAY: &str =
    r#"a < ["connect_document_success",{"checkpointSequenceNumber":0,"clientId":"c0","maxMessageSize":1048576,"mode":"write","version":"1"}]
b < ["connect_document_success",{"checkpointSequenceNumber":1,"clientId":"c1","maxMessageSize":1048576,"mode":"write","version":"1"}]
d tasks at 6: {"queues":{"q":{"free":[],"held":[{"by":"c1","item":3},{"by":"c0","item":4}]}},"tasks":{}}
a closed
d tasks at 8: {"queues":{"q":{"free":[3,4],"held":[]}},"tasks":{}}
d tasks at 10: {"queues":{"q":{"free":[4],"held":[]}},"tasks":{}}
"#;

// Two clients volunteer for a task. The second says that it is done, which counts for nothing, and the first leaves.
const VOLUNTEERS: &str = r#"tasks d
send a ["connect_document",{"id":"d","scopes":["doc:read","doc:write"]}]
send b ["connect_document",{"id":"d","scopes":["doc:read","doc:write"]}]
send a ["submitOp","c0",[{"clientSequenceNumber":1,"contents":{"type":"task","name":"t","op":"volunteer"},"referenceSequenceNumber":2,"type":"op"}]]
send b ["submitOp","c1",[{"clientSequenceNumber":1,"contents":{"type":"task","name":"t","op":"volunteer"},"referenceSequenceNumber":2,"type":"op"}]]
tasks d
send b ["submitOp","c1",[{"clientSequenceNumber":2,"contents":{"type":"task","name":"t","op":"complete"},"referenceSequenceNumber":2,"type":"op"}]]
tasks d
close a
tasks d
tasks D
"#;

const VOLUNTEERS_SAY: &str = r#"d tasks at 0: {"queues":{},"tasks":{}}
a < ["connect_document_success",{"checkpointSequenceNumber":0,"clientId":"c0","maxMessageSize":1048576,"mode":"write","version":"1"}]
b < ["connect_document_success",{"checkpointSequenceNumber":1,"clientId":"c1","maxMessageSize":1048576,"mode":"write","version":"1"}]
d tasks at 4: {"queues":{},"tasks":{"t":["c0","c1"]}}
d tasks at 5: {"queues":{},"tasks":{"t":["c0","c1"]}}
a closed
d tasks at 6: {"queues":{},"tasks":{"t":["c1"]}}
D tasks at 0: {"queues":{},"tasks":{}}
"#;

const SCRIPTS: &[(&str, &str, &str)] = &[
    (TWO_CONTAINERS, "done", TWO_CONTAINERS_SAY),
    (THREE_CHECKPOINTS, "done", THREE_CHECKPOINTS_SAY),
    (RESTARTS, "done", RESTARTS_SAY),
    (EDITS, "done", EDITS_SAY),
    (REOPENED, "done", REOPENED_SAYS),
    (SWEEPS, "done", SWEEPS_SAY),
    (ROAMS, "done", ROAMS_SAY),
    (WRITES, "bad line", WRITES_SAY),
    (BAD_SUMMARIES, "bad line", BAD_SUMMARIES_SAY),
    (ITEMS, "done", ITEMS_SAY),
    (VOLUNTEERS, "done", VOLUNTEERS_SAY),
    ("", "done", ""),
];

// What is written of the last container: from a summary, and of a document that nobody has used; and a refused line alone.
const LOADS: &[(&str, &str, &str, &str)] = &[
    (
        THIRTEEN,
        "d",
        "done",
        "d at 10: {\"m\":{\"kind\":\"map\",\"value\":{}}}\n",
    ),
    (THIRTEEN, "e", "done", "e at 1: {}\n"),
    (
        BAD_SUMMARIES_ALONE,
        "d",
        "done",
        "d bad summary .app/m/content\n",
    ),
    (
        "count d\ndance d\n",
        "d",
        "bad line",
        "bad line 2: unknown step\n",
    ),
];

// Within so many entries and clients: roamers whose edit, whose join and whose coming back is refused.
const LIMITED: &[(u64, u32, &str, &str, &str)] = &[
    (
        3,
        9,
        r#"roam r e
say r {"type":"attach","address":"n","kind":"counter"}
say r {"address":"n","contents":{"type":"increment","incrementAmount":5}}
say r {"address":"n","contents":{"type":"increment","incrementAmount":7}}
acked r
show r
back r
count e
acked r
roam q e
acked q
"#,
        "bad line",
        r#"r roams e as c0 at 1
r said 0
r said 1
r refused 429: document is full
r acked 2 of 3
r at 3: {"n":{"kind":"counter","value":"12"}}
r refused 429: document is full
e 4 entries, number 4, minimum 4
r acked 2 of 3
q refused 429: document is full
bad line 11: unknown name
"#,
    ),
    (
        4,
        9,
        r#"roam r e
say r {"type":"attach","address":"n","kind":"counter"}
say r {"address":"n","contents":{"type":"increment","incrementAmount":5}}
lose r
say r {"address":"n","contents":{"type":"increment","incrementAmount":7}}
back r
show r
acked r
back r
lose r
"#,
        "bad line",
        r#"r roams e as c0 at 1
r said 0
r said 1
r lost
r said 2
r refused 429: document is full
r at 5: {"n":{"kind":"counter","value":"12"}}
r acked 2 of 3
r refused 429: document is full
bad line 10: unknown name
"#,
    ),
    (
        9,
        1,
        r#"roam r e
roam q e
reopen e
roam p e
lose r
back r
show r
roam q d
"#,
        "bad line",
        r#"r roams e as c0 at 1
q refused 429: too many clients
e reopened: 2 entries, number 2, minimum 2
p roams e as c2 at 3
r lost
r refused 429: too many clients
r at 1: {}
bad line 8: name in use
"#,
    ),
];

// One document more than may be open, and each that is opened counted.
fn too_many(rt: &impl Abort, alloc: Global) {
    let mut input = String::new(alloc);
    let mut output = String::new(alloc);
    for number in 0..1_024 {
        let step = format!(in alloc; "count d{number}\n").expect(rt, "memory");
        let line = format!(in alloc; "d{number} 0 entries, number 0, minimum 0\n").expect(
            rt, "memory",
        );
        input.push_str(step.as_str()).expect(rt, "memory");
        output.push_str(line.as_str()).expect(rt, "memory");
    }
    input
        .push_str("count e\ncount d7\ntasks e\nload p e none\nroam r e\n")
        .expect(rt, "memory");
    output
        .push_str(
            "e refused 429: too many documents\nd7 0 entries, number 0, minimum 0\ne refused 429: too many documents\np refused 429: too many documents\nr refused 429: too many documents\n",
        )
        .expect(rt, "memory");
    is_done_as(
        rt,
        alloc,
        input.as_str().as_bytes(),
        None,
        "done",
        output.as_str(),
    );
    drop(input);
    drop(output);
}

#[test]
fn steps_write_their_lines(rt: HostRuntime) {
    for row in SCRIPTS {
        is_done_as(&rt, rt.alloc(), row.0.as_bytes(), None, row.1, row.2);
    }
}

#[test]
fn the_last_container_is_all_that_is_written(rt: HostRuntime) {
    for row in LOADS {
        is_done_as(&rt, rt.alloc(), row.0.as_bytes(), Some(row.1), row.2, row.3);
    }
}

#[test]
fn a_document_takes_no_more_than_its_limits(rt: HostRuntime) {
    for row in LIMITED {
        let limits = Limits {
            entries: row.0,
            clients: row.1,
            checkpoints: 9,
            bytes: 1_048_576,
        };
        is_done_within(
            &rt,
            rt.alloc(),
            row.2.as_bytes(),
            None,
            limits,
            row.3,
            row.4,
        );
    }
}

#[test]
fn as_many_documents_are_open_as_may_be(rt: HostRuntime) {
    too_many(&rt, rt.alloc());
}

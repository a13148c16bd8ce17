// Documents that are opened, used and closed.
use crate::desks::{CALM, Setting};
use crate::lives::{Step, live};

const CONNECT: &str =
    r#"["connect_document",{"id":"d","mode":"write","scopes":["doc:read","doc:write"]}]"#;

const CONNECTED: &str =
    r#"["connect_document_success",{"checkpointSequenceNumber":0,"clientId":"c0","maxMessageSize":1048576,"mode":"write","version":"1"}]"#;

const OP: &str =
    r#"["submitOp","c0",[{"clientSequenceNumber":1,"contents":"a","referenceSequenceNumber":1,"type":"op"}]]"#;

const NEXT_OP: &str =
    r#"["submitOp","c0",[{"clientSequenceNumber":2,"contents":"b","referenceSequenceNumber":1,"type":"op"}]]"#;

const LEFT: &str =
    r#"["nack","d",[{"content":{"code":400,"message":"Nonexistent client","type":"BadRequestError"},"operation":{"clientSequenceNumber":2,"contents":"b","referenceSequenceNumber":1,"type":"op"},"sequenceNumber":3}]]"#;

const READ: &str = r#"["connect_document",{"id":"d","mode":"read","scopes":["doc:read"]}]"#;

const READS: &str =
    r#"["connect_document_success",{"checkpointSequenceNumber":3,"clientId":null,"maxMessageSize":1048576,"mode":"read","version":"1"}]"#;

const JOINED: &str =
    r#"["deltas",1,[{"clientId":null,"clientSequenceNumber":-1,"contents":null,"data":"{\"clientId\":\"c0\",\"detail\":null}","minimumSequenceNumber":0,"referenceSequenceNumber":-1,"sequenceNumber":1,"timestamp":7,"type":"join"}]]"#;

// The first use opens a document, and a process that ends leaves its clients behind: c0's leave is the third entry and message.
const USED: &[Step] = &[
    Step::Names(""),
    Step::Hears(CONNECT, CONNECTED),
    Step::Hears(OP, ""),
    Step::Counts(2, 2, 1),
    Step::Opens("d", "open"),
    Step::Opens("a", "open"),
    Step::Names("a\nd"),
    Step::Reopens("d", "open"),
    Step::Counts(3, 3, 0),
    Step::Hears(NEXT_OP, LEFT),
    Step::Counts(4, 3, 0),
    Step::Reopens("d", "open"),
    Step::Counts(4, 3, 0),
    Step::Reopens("b", "open"),
    Step::Names("a\nb\nd"),
];

// The shelf fails, and the next use opens the document.
const SHELVED: &[Step] = &[
    Step::Opens("d", "shelf failed"),
    Step::Hears(CONNECT, CONNECTED),
];

// The keeper's first call appends the join, the second the op, the third and the fourth read them, and the fifth, which is to append
// the leave, fails: the document is closed, and the next use opens it.
const REOPENED: &[Step] = &[
    Step::Hears(CONNECT, CONNECTED),
    Step::Hears(OP, ""),
    Step::Reopens("d", "log failed"),
    Step::Names(""),
    Step::Counts(3, 3, 0),
];

// The append of the op fails, so that a cut is owed: the log is cut before the next one is entered.
const CUT: &[Step] = &[
    Step::Hears(CONNECT, CONNECTED),
    Step::Hears(OP, "log failed"),
    Step::Counts(1, 1, 1),
    Step::Hears(OP, ""),
    Step::Counts(2, 2, 1),
];

// Opened anew, the document has a leave behind the join.
const TORN: &[Step] = &[
    Step::Hears(CONNECT, CONNECTED),
    Step::Hears(OP, "log failed"),
    Step::Reopens("d", "open"),
    Step::Counts(2, 2, 0),
];

// Where the append added its record all the same, the op stands between them.
const ADDED: &[Step] = &[
    Step::Hears(CONNECT, CONNECTED),
    Step::Hears(OP, "log failed"),
    Step::Reopens("d", "open"),
    Step::Counts(3, 3, 0),
];

// The messages behind a checkpoint are read from the keeper: its third and fourth call put them, the fifth the checkpoint, the sixth reads
// that, the seventh appends the leave, and the eighth is the one that fails.
const RANGED: &[Step] = &[
    Step::Hears(CONNECT, CONNECTED),
    Step::Hears(OP, ""),
    Step::Stores,
    Step::Reopens("d", "open"),
    Step::Renews,
    Step::Hears(READ, READS),
    Step::Hears(r#"["getDeltas",1,2]"#, "delta failed"),
    Step::Hears(r#"["getDeltas",1,2]"#, JOINED),
];

// As many documents are open as may be.
const MANY: &[Step] = &[
    Step::OpensMany(1_024),
    Step::Opens("d", "too many documents"),
    Step::Opens("n1023", "open"),
    Step::Hears(CONNECT, "too many documents"),
    Step::Reopens("n7", "open"),
];

#[test]
fn documents_are_opened_and_closed(rt: HostRuntime) {
    let alloc = rt.alloc();
    live(&rt, alloc, &CALM, USED, 4);
    live(
        &rt,
        alloc,
        &Setting {
            shelf_fails: &[1],
            ..CALM
        },
        SHELVED,
        1,
    );
    live(
        &rt,
        alloc,
        &Setting {
            keeper_fails: &[5],
            ..CALM
        },
        REOPENED,
        3,
    );
    live(
        &rt,
        alloc,
        &Setting {
            keeper_fails: &[2],
            ..CALM
        },
        CUT,
        2,
    );
    live(
        &rt,
        alloc,
        &Setting {
            keeper_fails: &[2],
            ..CALM
        },
        TORN,
        2,
    );
    let adds = Setting {
        keeper_fails: &[2],
        keeper_adds: &[2],
        ..CALM
    };
    live(&rt, alloc, &adds, ADDED, 3);
    live(
        &rt,
        alloc,
        &Setting {
            keeper_fails: &[8],
            ..CALM
        },
        RANGED,
        3,
    );
    live(&rt, alloc, &CALM, MANY, 0);
}

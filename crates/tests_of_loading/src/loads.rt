// Lives of containers, line by line. Ids are those that `git hash-object` and `git mktree` give.
use crate::document::{Document, new_document, said};
use crate::play::play;
use crate::told::fault_text;
use fluid_json::Text;
use fluid_loader::{Container, Pick};
use fluid_store::store_object;
use fluid_tree::{Id, ObjectEntry, tree_bytes};
use std::alloc::Global;
use std::process::Abort;
use std::test::Fail;

// Messages 7 to 10 and no other; the version, `.app`, `m` and its two blobs, `.protocol` and its four.
const FETCHED: &str = "7 8 9 10 \n\
    e0aff463ddd5aeb9b88ded5400366f513e9d0814\n\
    636cb14c83245091ae086c8aeced17e21342b86f\n\
    2999b38563ca7ea7186cfcbf4b8549c4fdbc3ddc\n\
    0c7950b09b0375a797a9616561a126f3831a5759\n\
    e9589e4ae7d3b1a507c764e4f5bf3e7b3f231539\n\
    47c93635ab69fee4343bab9d656ce052049e1fbb\n\
    95a4e030ccfbd78fb47e326a9f6d449306d80ef4\n\
    6a7ef63c861df4330b50d1d6041030dd0056d510\n\
    0637a088a01e8ddab3bf3fa98dbe804cbde1a0dc\n\
    0637a088a01e8ddab3bf3fa98dbe804cbde1a0dc";

#[test]
fn what_one_client_uploads_another_loads(rt: HostRuntime) -> Result<(), Fail> {
    play(
        &rt,
        rt.alloc(),
        &[
            ("load p none", "at 1"),
            ("edit p attach m map", "edited"),
            ("load q none", "at 3"),
            ("edit p set m k 1", "edited"),
            ("edit q clear m", "edited"),
            ("edit q set m k 2", "edited"),
            ("show p", r#"{"m":{"kind":"map","value":{"k":1}}}"#),
            ("show q", r#"{"m":{"kind":"map","value":{"k":2}}}"#),
            ("pump p", "at 6"),
            ("show p", r#"{"m":{"kind":"map","value":{"k":2}}}"#),
            (
                "summarize p",
                "at 6 with 0: 636cb14c83245091ae086c8aeced17e21342b86f",
            ),
            ("tree p", "636cb14c83245091ae086c8aeced17e21342b86f"),
            ("scribe", "ack 7"),
            ("edit p delete m k", "edited"),
            ("load r latest", "at 10"),
            ("show r", r#"{"m":{"kind":"map","value":{}}}"#),
            ("fetched r", FETCHED),
            // from nothing it is the same
            ("reload r none", "at 10"),
            ("show r", r#"{"m":{"kind":"map","value":{}}}"#),
            ("pump q", "at 10"),
            ("show q", r#"{"m":{"kind":"map","value":{}}}"#),
            ("scribe", "idle"),
            // a noop uses a client number and changes nothing else
            ("beat q", "beats"),
            ("at q", "at 10"),
            ("show q", r#"{"m":{"kind":"map","value":{}}}"#),
            ("pump q", "at 10"),
            ("edit q set m k 3", "edited"),
            ("pump q", "at 11"),
            ("show q", r#"{"m":{"kind":"map","value":{"k":3}}}"#),
        ],
    );
    Ok(())
}

#[test]
fn channels_that_have_not_changed_are_handles(rt: HostRuntime) -> Result<(), Fail> {
    play(
        &rt,
        rt.alloc(),
        &[
            ("load p none", "at 1"),
            ("edit p attach m map", "edited"),
            ("edit p attach k map", "edited"),
            ("pump p", "at 3"),
            (
                "summarize p",
                "at 3 with 0: 6a7eeae58e8d441d7cd53c1efeda867085a573d3",
            ),
            ("scribe", "ack 4"),
            ("edit p set m a 1", "edited"),
            ("pump p", "at 6"),
            // the id is that of the full tree
            (
                "summarize p",
                "at 6 with 1: e6c47611973830c2a14a7ad8b0e941a63f57dbbe",
            ),
            ("scribe", "ack 7"),
            ("load q latest", "at 9"),
            (
                "show q",
                r#"{"k":{"kind":"map","value":{}},"m":{"kind":"map","value":{"a":1}}}"#,
            ),
            // the first one, by its handle, and one that nobody has acknowledged
            ("reload r 342114325de247c25c10a041ab7f796f9c27f44c", "at 9"),
            (
                "show r",
                r#"{"k":{"kind":"map","value":{}},"m":{"kind":"map","value":{"a":1}}}"#,
            ),
            (
                "reload r 6a7eeae58e8d441d7cd53c1efeda867085a573d3",
                "no summary",
            ),
            // loaded from a summary, only what the messages behind it speak to has changed
            ("edit q set k b 1", "edited"),
            ("pump q", "at 10"),
            ("refuse", ""),
            ("summarize q", "refused Full"),
            // the tree that was put before the refusal is the last one
            (
                "summarize q",
                "at 10 with 2: a308c40a463a9db39a6d7a591ce1fc05cb6bf13b",
            ),
            ("scribe", "ack 11"),
        ],
    );
    Ok(())
}

#[test]
fn a_refused_edit_leaves_no_trace(rt: HostRuntime) -> Result<(), Fail> {
    play(
        &rt,
        rt.alloc(),
        &[
            ("load q latest", "no summary"),
            ("pump q", "not loaded"),
            ("load p none", "at 2"),
            ("edit p add n 1", "NoChannel"),
            ("edit p attach n counter", "edited"),
            ("edit p add n 9007199254740991", "edited"),
            ("edit p add n 9007199254740992", "OutOfRange"),
            ("edit p clear n", "WrongKind"),
            ("edit p attach n counter", "Exists"),
            ("refuse", ""),
            ("edit p add n 1", "refused Full"),
            (
                "show p",
                r#"{"n":{"kind":"counter","value":"9007199254740991"}}"#,
            ),
            ("pump p", "at 4"),
            ("edit p add n 1", "edited"),
            ("pump p", "at 5"),
            (
                "show p",
                r#"{"n":{"kind":"counter","value":"9007199254740992"}}"#,
            ),
        ],
    );
    Ok(())
}

#[test]
fn each_call_of_the_link_fails_once(rt: HostRuntime) -> Result<(), Fail> {
    play(
        &rt,
        rt.alloc(),
        &[
            ("load p none", "at 1"),
            ("edit p attach m map", "edited"),
            ("pump p", "at 2"),
            (
                "summarize p",
                "at 2 with 0: d95f62e402c626b08319d070373fb1b1c5921200",
            ),
            ("scribe", "ack 3"),
            // the summary, ten objects, and the messages behind it
            ("fail 1", ""),
            ("reload q latest", "failed 0 1"),
            ("fail 2", ""),
            ("reload q latest", "failed 1 2"),
            ("fail 3", ""),
            ("reload q latest", "failed 2 3"),
            ("fail 4", ""),
            ("reload q latest", "failed 3 4"),
            ("fail 5", ""),
            ("reload q latest", "failed 4 5"),
            ("fail 6", ""),
            ("reload q latest", "failed 5 6"),
            ("fail 7", ""),
            ("reload q latest", "failed 6 7"),
            ("fail 8", ""),
            ("reload q latest", "failed 7 8"),
            ("fail 9", ""),
            ("reload q latest", "failed 8 9"),
            ("fail 10", ""),
            ("reload q latest", "failed 9 10"),
            ("fail 11", ""),
            ("reload q latest", "failed 10 11"),
            ("fail 12", ""),
            ("reload q latest", "failed 11 12"),
            ("at q", "not loaded"),
            ("fail 14", ""),
            ("load q latest", "at 5"),
            ("edit p set m a 1", "edited"),
            // no message was taken in
            ("fail 1", ""),
            ("pump q", "failed 12 13"),
            ("show q", r#"{"m":{"kind":"map","value":{}}}"#),
            ("pump q", "at 6"),
            // an edit whose submission failed stays, and its client number is used
            ("fail 1", ""),
            ("edit q set m a 2", "failed 13 14"),
            ("pump q", "at 6"),
            ("show q", r#"{"m":{"kind":"map","value":{"a":2}}}"#),
            // the upload: there is no new tree
            ("fail 1", ""),
            ("summarize q", "failed 14 15"),
            ("fail 2", ""),
            // the submission: the tree is there, and nothing has changed since
            ("summarize q", "failed 15 16"),
            (
                "summarize q",
                "at 6 with 1: 093804b363d4fe9f3218a36c0a9de31539e2ac9f",
            ),
            ("fail 1", ""),
            ("beat q", "failed 16 17"),
            ("at q", "at 6"),
        ],
    );
    Ok(())
}

// Under the id of the first tree stand other bytes, so that it isn't put; the second is put whole.
#[test]
fn a_tree_may_clash(rt: HostRuntime) -> Result<(), Fail> {
    play(
        &rt,
        rt.alloc(),
        &[
            ("load p none", "at 1"),
            ("edit p attach m map", "edited"),
            ("pump p", "at 2"),
            ("tree p", "d95f62e402c626b08319d070373fb1b1c5921200"),
            ("spoil d95f62e402c626b08319d070373fb1b1c5921200 x", ""),
            ("summarize p", "clash"),
            ("summarize p", "clash"),
            ("edit p set m a 1", "edited"),
            ("pump p", "at 3"),
            (
                "summarize p",
                "at 3 with 0: 093804b363d4fe9f3218a36c0a9de31539e2ac9f",
            ),
            ("scribe", "ack 4"),
        ],
    );
    Ok(())
}

// A map `m` whose content isn't JSON is uploaded by hand, and acknowledged, since the scribe doesn't read it.
#[test]
fn an_acknowledged_summary_may_be_bad(rt: HostRuntime) -> Result<(), Fail> {
    play(
        &rt,
        rt.alloc(),
        &[
            ("load p none", "at 1"),
            (
                r#"put {"type":1,"tree":{"m":{"type":1,"tree":{"content":{"type":2,"content":"x"},"kind":{"type":2,"content":"map"}}}}}"#,
                "20f87b5053e2b461d76fa3d6c8748fd9e0109254",
            ),
            (
                r#"enter {"clientId":"c0","moment":0,"operation":{"clientSequenceNumber":1,"contents":{"handle":"20f87b5053e2b461d76fa3d6c8748fd9e0109254","head":""},"referenceSequenceNumber":1,"type":"summarize"},"raw":"submit"}"#,
                "",
            ),
            ("scribe", "ack 2"),
            ("load q latest", "bad summary .app/m/content"),
            ("pump q", "not loaded"),
            // it joined all the same
            ("pump p", "at 4"),
        ],
    );
    Ok(())
}

// ---- versions outside their form

const SUMMARIZE: &str =
    r#"{"clientId":"c0","clientSequenceNumber":1,"contents":null,"minimumSequenceNumber":0,"referenceSequenceNumber":0,"sequenceNumber":1,"timestamp":0,"type":"summarize"}"#;

// The trees of versions of no messages, and the first path that is outside their form.
const VERSIONS: &[(&str, &str)] = &[
    (r#"{"type":2,"content":"x"}"#, "bad summary ."),
    (r#"{"type":1,"tree":{}}"#, "bad summary .app"),
    (
        r#"{"type":1,"tree":{".app":{"type":2,"content":"x"}}}"#,
        "bad summary .app",
    ),
    // a tree's name counts with a `/` behind it, so this one stands before `.app`
    (
        r#"{"type":1,"tree":{".app":{"type":1,"tree":{}},".app-x":{"type":1,"tree":{}}}}"#,
        "bad summary .app-x",
    ),
    (
        r#"{"type":1,"tree":{".app":{"type":1,"tree":{"a.b":{"type":1,"tree":{}}}}}}"#,
        "bad summary .app/a.b",
    ),
    (
        r#"{"type":1,"tree":{".app":{"type":1,"tree":{}}}}"#,
        "bad summary .protocol",
    ),
    // another number than the summary's, which stands before the other blobs
    (
        r#"{"type":1,"tree":{".app":{"type":1,"tree":{}},".protocol":{"type":1,"tree":{"attributes":{"type":2,"content":"{\"minimumSequenceNumber\":0,\"sequenceNumber\":1}"},"quorumMembers":{"type":2,"content":"x"}}}}}"#,
        "bad summary .protocol/attributes",
    ),
    (
        r#"{"type":1,"tree":{".app":{"type":1,"tree":{}},".protocol":{"type":1,"tree":{"attributes":{"type":2,"content":"{\"minimumSequenceNumber\":0,\"sequenceNumber\":0}"},"quorumMembers":{"type":2,"content":"x"}}}}}"#,
        "bad summary .protocol/quorumMembers",
    ),
    (
        r#"{"type":1,"tree":{".app":{"type":1,"tree":{}},".protocol":{"type":1,"tree":{"attributes":{"type":2,"content":"{\"minimumSequenceNumber\":0,\"sequenceNumber\":0}"},"quorumMembers":{"type":2,"content":"[]"},"quorumProposals":{"type":2,"content":"[]"},"quorumValues":{"type":2,"content":"[]"}}},"x":{"type":1,"tree":{}}}}"#,
        "bad summary x",
    ),
    (
        r#"{"type":1,"tree":{".app":{"type":1,"tree":{}},".protocol":{"type":1,"tree":{"attributes":{"type":2,"content":"{\"minimumSequenceNumber\":0,\"sequenceNumber\":0}"},"quorumMembers":{"type":2,"content":"[]"},"quorumProposals":{"type":2,"content":"[]"},"quorumValues":{"type":2,"content":"[]"}}}}}"#,
        "loaded",
    ),
];

// The version is acknowledged with the number 0.
fn assert_version(rt: &impl Abort, alloc: Global, tree: &str, wanted: &str) {
    let mut document = new_document(rt, alloc);
    drop(said(rt, alloc, &mut document, "message", SUMMARIZE));
    let id = said(rt, alloc, &mut document, "put", tree);
    assert_acknowledged(rt, alloc, &mut document, id.as_str(), wanted);
    drop(document);
}

fn assert_acknowledged(
    rt: &impl Abort,
    alloc: Global,
    document: &mut Document,
    id: &str,
    wanted: &str,
) {
    let ack = format!(in alloc;
        r#"{{"clientId":null,"clientSequenceNumber":-1,"contents":{{"handle":"{id}","summaryProposal":{{"summarySequenceNumber":1}}}},"minimumSequenceNumber":0,"referenceSequenceNumber":-1,"sequenceNumber":2,"timestamp":0,"type":"summaryAck"}}"#
    ).expect(rt, "memory");
    drop(said(rt, alloc, document, "message", ack.as_str()));
    match Container::load(alloc, &mut document.link, &Pick::Latest) {
        Ok(container) => {
            assert!(rt;
                wanted == "loaded" && container.seq() == 2,
                "in place of {wanted}"
            );
            drop(container);
        }
        Err(fault) => {
            let told = fault_text(rt, alloc, &fault);
            assert!(rt; told.as_str() == wanted, "in place of {wanted}");
        }
    }
}

#[test]
fn the_first_path_outside_the_form_is_named(rt: HostRuntime) -> Result<(), Fail> {
    let alloc = rt.alloc();
    for (tree, wanted) in VERSIONS {
        assert_version(&rt, alloc, tree, wanted);
    }
    // a version that isn't held
    let mut document = new_document(&rt, alloc);
    drop(said(&rt, alloc, &mut document, "message", SUMMARIZE));
    let id = "4b825dc642cb6eb9a060e54bf8d69288fbee4904";
    assert_acknowledged(&rt, alloc, &mut document, id, "bad summary .");
    drop(document);
    assert_unheld(&rt, alloc);
    Ok(())
}

// A version whose `.app` isn't held.
fn assert_unheld(rt: &impl Abort, alloc: Global) {
    let mut document = new_document(rt, alloc);
    drop(said(rt, alloc, &mut document, "message", SUMMARIZE));
    let mut entries = Vec::new(alloc);
    let app = ObjectEntry {
        name: Text::copied(alloc, ".app").expect(rt, "memory"),
        tree: true,
        id: Id::new([7; 20]),
    };
    entries.push(app).expect(rt, "memory");
    let bytes = tree_bytes(alloc, entries.as_slice()).expect(rt, "memory");
    let id = store_object(alloc, &mut document.link.objects, bytes.as_slice())
        .ok()
        .expect(rt, "a store");
    let id = id.print(alloc).expect(rt, "memory");
    assert_acknowledged(rt, alloc, &mut document, id.as_str(), "bad summary .app");
    drop(entries);
    drop(document);
}

// A message that isn't the next, one that refers to one behind it, and one in another spelling aren't put behind the others.
#[test]
fn an_order_has_the_next_message_alone(rt: HostRuntime) -> Result<(), Fail> {
    play(
        &rt,
        rt.alloc(),
        &[
            (
                r#"message {"clientId":"c0","clientSequenceNumber":1,"contents":null,"minimumSequenceNumber":0,"referenceSequenceNumber":0,"sequenceNumber":2,"timestamp":0,"type":"op"}"#,
                "not next",
            ),
            (
                r#"message {"clientId":"c0","clientSequenceNumber":1,"contents":null,"minimumSequenceNumber":0,"referenceSequenceNumber":2,"sequenceNumber":1,"timestamp":0,"type":"op"}"#,
                "not next",
            ),
            (
                r#"message { "clientId":"c0","clientSequenceNumber":1,"contents":null,"minimumSequenceNumber":0,"referenceSequenceNumber":0,"sequenceNumber":1,"timestamp":0,"type":"op"}"#,
                "not next",
            ),
            ("message x", "not next"),
            (
                r#"message {"clientId":"c0","clientSequenceNumber":1,"contents":null,"minimumSequenceNumber":0,"referenceSequenceNumber":1,"sequenceNumber":1,"timestamp":0,"type":"op"}"#,
                "",
            ),
            ("reload p none", "at 1"),
        ],
    );
    Ok(())
}

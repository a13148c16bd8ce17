use crate::play::play;
use std::test::Fail;

// Two clients of one order: attach, set 1 by the first; clear, set 2 by the second; then a delete by the first.

#[test]
fn the_first_of_two_clients(rt: HostRuntime) -> Result<(), Fail> {
    play(
        &rt,
        rt.alloc(),
        &[
            ("edit attach m map", "edited"),
            ("edit set m k 1", "edited"),
            ("show", r#"{"m":{"kind":"map","value":{"k":1}}}"#),
            ("own attach m map", ""),
            ("other noop", ""),
            ("own set m k 1", ""),
            ("other clear m", ""),
            ("other set m k 2", ""),
            ("show", r#"{"m":{"kind":"map","value":{"k":2}}}"#),
            ("edit delete m k", "edited"),
            ("show", r#"{"m":{"kind":"map","value":{}}}"#),
            ("tree", r#"m(content={"k":2} kind=map ) "#),
        ],
    );
    Ok(())
}

#[test]
fn the_second_of_two_clients(rt: HostRuntime) -> Result<(), Fail> {
    play(
        &rt,
        rt.alloc(),
        &[
            ("other attach m map", ""),
            ("edit clear m", "edited"),
            ("edit set m k 2", "edited"),
            ("show", r#"{"m":{"kind":"map","value":{"k":2}}}"#),
            ("other set m k 1", ""),
            ("show", r#"{"m":{"kind":"map","value":{"k":2}}}"#),
            ("own clear m", ""),
            ("own set m k 2", ""),
            ("other delete m k", ""),
            ("show", r#"{"m":{"kind":"map","value":{}}}"#),
        ],
    );
    Ok(())
}

#[test]
fn each_edit_fault_in_its_order(rt: HostRuntime) -> Result<(), Fail> {
    play(
        &rt,
        rt.alloc(),
        &[
            ("edit add n 9007199254740992", "NoChannel"),
            ("edit attach n counter", "edited"),
            ("edit add n 9007199254740991", "edited"),
            ("edit add n 9007199254740992", "OutOfRange"),
            ("edit add n -9007199254740992", "OutOfRange"),
            ("edit clear n", "WrongKind"),
            ("edit attach n counter", "Exists"),
            ("edit attach n map", "Exists"),
            (
                "show",
                r#"{"n":{"kind":"counter","value":"9007199254740991"}}"#,
            ),
            ("other attach m map", ""),
            ("edit add m 9007199254740992", "WrongKind"),
            ("edit attach m counter", "Exists"),
            ("edit delete x k", "NoChannel"),
        ],
    );
    Ok(())
}

#[test]
fn own_ops_among_those_of_others(rt: HostRuntime) -> Result<(), Fail> {
    play(
        &rt,
        rt.alloc(),
        &[
            // attached by another first, with another kind: the replay decides
            ("edit attach c map", "edited"),
            ("edit set c k 1", "edited"),
            ("other attach c counter", ""),
            ("other add c 5", ""),
            ("show", r#"{"c":{"kind":"counter","value":"5"}}"#),
            ("own attach c map", ""),
            ("own set c k 1", ""),
            ("show", r#"{"c":{"kind":"counter","value":"5"}}"#),
            // an own set is shown over another's, and lies before a later one in the order
            ("other attach m map", ""),
            ("edit set m k 1", "edited"),
            ("edit add c 2", "edited"),
            ("other set m k 7", ""),
            (
                "show",
                r#"{"c":{"kind":"counter","value":"7"},"m":{"kind":"map","value":{"k":1}}}"#,
            ),
            ("own set m k 1", ""),
            ("other set m k 8", ""),
            (
                "show",
                r#"{"c":{"kind":"counter","value":"7"},"m":{"kind":"map","value":{"k":8}}}"#,
            ),
            // a message that is no op takes no edit off
            ("own noop", ""),
            (
                "show",
                r#"{"c":{"kind":"counter","value":"7"},"m":{"kind":"map","value":{"k":8}}}"#,
            ),
            // what counts is the message, not the edit that was laid over
            ("own add c 30", ""),
            (
                "show",
                r#"{"c":{"kind":"counter","value":"35"},"m":{"kind":"map","value":{"k":8}}}"#,
            ),
            // the newest edit is taken back
            ("edit clear m", "edited"),
            ("edit set m j 1", "edited"),
            ("back", ""),
            (
                "show",
                r#"{"c":{"kind":"counter","value":"35"},"m":{"kind":"map","value":{}}}"#,
            ),
            ("back", ""),
            ("back", ""),
            (
                "show",
                r#"{"c":{"kind":"counter","value":"35"},"m":{"kind":"map","value":{"k":8}}}"#,
            ),
        ],
    );
    Ok(())
}

#[test]
fn ops_outside_the_forms(rt: HostRuntime) -> Result<(), Fail> {
    play(
        &rt,
        rt.alloc(),
        &[
            ("other set m k 1", ""),
            (
                "hear {\"type\":\"attach\",\"address\":\"m.\",\"kind\":\"map\"}",
                "",
            ),
            (
                "hear {\"type\":\"attach\",\"address\":\"m\",\"kind\":\"list\"}",
                "",
            ),
            ("show", "{}"),
            (
                "hear \"{\\\"type\\\":\\\"attach\\\",\\\"address\\\":\\\"m\\\",\\\"kind\\\":\\\"map\\\"}\"",
                "",
            ),
            ("show", r#"{"m":{"kind":"map","value":{}}}"#),
            (
                "hear {\"type\":\"other\",\"address\":\"m\",\"more\":1,\"contents\":{\"type\":\"set\",\"key\":\"k\",\"value\":{\"type\":\"Plain\",\"value\":[1]}}}",
                "",
            ),
            (
                "hear {\"address\":\"m\",\"contents\":{\"type\":\"set\",\"key\":\"k\",\"value\":{\"type\":\"Shared\",\"value\":2}}}",
                "",
            ),
            (
                "hear {\"type\":\"attach\",\"address\":\"m\",\"contents\":{\"type\":\"clear\"}}",
                "",
            ),
            (
                "hear {\"address\":\"m\",\"contents\":{\"type\":\"increment\",\"incrementAmount\":1}}",
                "",
            ),
            ("other attach n counter", ""),
            (
                "hear {\"address\":\"n\",\"contents\":{\"type\":\"increment\",\"incrementAmount\":9007199254740992}}",
                "",
            ),
            (
                "hear {\"address\":\"n\",\"contents\":{\"type\":\"increment\",\"incrementAmount\":-3}}",
                "",
            ),
            (
                "show",
                r#"{"m":{"kind":"map","value":{"k":[1]}},"n":{"kind":"counter","value":"-3"}}"#,
            ),
        ],
    );
    Ok(())
}

#[test]
fn what_has_changed_since_a_mark(rt: HostRuntime) -> Result<(), Fail> {
    play(
        &rt,
        rt.alloc(),
        &[
            ("other attach k map", ""),
            ("other attach m map", ""),
            ("since", "k(content={} kind=map ) m(content={} kind=map ) "),
            ("mark", ""),
            ("since", "k@ m@ "),
            ("other attach k counter", ""),
            ("other add k 1", ""),
            ("edit set k a 1", "edited"),
            ("other set m a 1", ""),
            ("other attach z counter", ""),
            (
                "since",
                r#"k@ m(content={"a":1} kind=map ) z(content={"value":"0"} kind=counter ) "#,
            ),
            ("own delete k a", ""),
            ("mark", ""),
            ("other noop", ""),
            ("since", "k@ m@ z@ "),
        ],
    );
    Ok(())
}

#[test]
fn summaries_that_are_read_or_refused(rt: HostRuntime) -> Result<(), Fail> {
    play(
        &rt,
        rt.alloc(),
        &[
            ("load ", ""),
            ("show", "{}"),
            ("load-blob", "bad "),
            (
                r#"load m: content={"k":[1]} kind=map; n: content={"value":"-5"} kind=counter"#,
                "",
            ),
            (
                "show",
                r#"{"m":{"kind":"map","value":{"k":[1]}},"n":{"kind":"counter","value":"-5"}}"#,
            ),
            (
                "since",
                r#"m(content={"k":[1]} kind=map ) n(content={"value":"-5"} kind=counter ) "#,
            ),
            ("edit set m k 2", "edited"),
            ("other add n 7", ""),
            (
                "show",
                r#"{"m":{"kind":"map","value":{"k":2}},"n":{"kind":"counter","value":"2"}}"#,
            ),
            // no tree, no address
            ("load m=x", "bad m"),
            ("load m@", "bad m"),
            ("load m.n: content={} kind=map", "bad m.n"),
            (
                "load m: content={} kind=map; m: content={} kind=map",
                "bad m",
            ),
            // what is missing, and what is there beside
            ("load m", "bad m/content"),
            ("load m: kind=map", "bad m/content"),
            ("load m: content={}", "bad m/kind"),
            ("load m: a=1 content={} kind=map", "bad m/a"),
            ("load m: a=1", "bad m/a"),
            ("load m: content={} i=1 kind=map", "bad m/i"),
            ("load m: content={} kind=map z=1", "bad m/z"),
            // blobs and what isn't one
            ("load m: content@ kind=map", "bad m/content"),
            ("load m: content kind=map", "bad m/content"),
            ("load m: content={} kind@", "bad m/kind"),
            // without a kind in its form any content is inside it
            ("load m: content=x kind=map", "bad m/content"),
            ("load m: content=x", "bad m/kind"),
            ("load m: content=x kind=list", "bad m/kind"),
            ("load m: content=x kind", "bad m/kind"),
            // texts that aren't the printed ones
            (r#"load m: content={"b":1,"a":1} kind=map"#, "bad m/content"),
            (r#"load m: content={"a":01} kind=map"#, "bad m/content"),
            (r#"load m: content={"value":"1"} kind=map"#, ""),
            (
                r#"load n: content={"value":1} kind=counter"#,
                "bad n/content",
            ),
            (
                r#"load n: content={"value":"01"} kind=counter"#,
                "bad n/content",
            ),
            (
                r#"load n: content={"value":"-0"} kind=counter"#,
                "bad n/content",
            ),
            (
                r#"load n: content={"value":"1","z":1} kind=counter"#,
                "bad n/content",
            ),
            // plus or minus 2^120
            (
                r#"load n: content={"value":"1329227995784915872903807060280344576"} kind=counter"#,
                "",
            ),
            (
                r#"load n: content={"value":"-1329227995784915872903807060280344577"} kind=counter"#,
                "bad n/content",
            ),
            // the first in order, of several
            (
                "load a: content={} kind=map; b: kind=map; c=x",
                "bad b/content",
            ),
            (
                "show",
                r#"{"n":{"kind":"counter","value":"1329227995784915872903807060280344576"}}"#,
            ),
        ],
    );
    Ok(())
}

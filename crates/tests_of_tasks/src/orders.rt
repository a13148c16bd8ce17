// Orders of a few messages. What is awaited is worked out by hand.
use crate::play::play;

// Two items are held, given back, left and done.
#[test]
fn two_items_of_a_queue(rt: HostRuntime) {
    play(
        &rt,
        rt.alloc(),
        &[
            ("c0 joins", ""),
            ("c1 joins", ""),
            (
                "c0 does {\"type\":\"queue\",\"name\":\"q\",\"op\":\"add\",\"value\":\"x\"}",
                "",
            ),
            (
                "c1 does {\"type\":\"queue\",\"name\":\"q\",\"op\":\"add\",\"value\":\"y\"}",
                "",
            ),
            (
                "c1 does {\"type\":\"queue\",\"name\":\"q\",\"op\":\"acquire\"}",
                "",
            ),
            (
                "c0 does {\"type\":\"queue\",\"name\":\"q\",\"op\":\"acquire\"}",
                "",
            ),
            ("held 3", "c1"),
            ("held 4", "c0"),
            ("free q", ""),
            ("value 3", "\"x\""),
            (
                "print",
                "{\"queues\":{\"q\":{\"free\":[],\"held\":[{\"by\":\"c1\",\"item\":3},{\"by\":\"c0\",\"item\":4}]}},\"tasks\":{}}",
            ),
            (
                "c1 does {\"type\":\"queue\",\"name\":\"q\",\"op\":\"release\",\"item\":3}",
                "",
            ),
            ("free q", "3 "),
            ("held 3", "none"),
            ("c0 leaves", ""),
            ("free q", "3 4 "),
            ("held 4", "none"),
            (
                "c1 does {\"type\":\"queue\",\"name\":\"q\",\"op\":\"acquire\"}",
                "",
            ),
            ("held 3", "c1"),
            ("free q", "4 "),
            (
                "c1 does {\"type\":\"queue\",\"name\":\"q\",\"op\":\"complete\",\"item\":3}",
                "",
            ),
            ("held 3", "none"),
            ("value 3", "none"),
            ("value 4", "\"y\""),
            (
                "print",
                "{\"queues\":{\"q\":{\"free\":[4],\"held\":[]}},\"tasks\":{}}",
            ),
        ],
    );
}

// The first holds it until it leaves; a complete by the other changes nothing.
#[test]
fn two_volunteers_of_a_task(rt: HostRuntime) {
    play(
        &rt,
        rt.alloc(),
        &[
            ("holder t", "none"),
            (
                "c0 does {\"type\":\"task\",\"name\":\"t\",\"op\":\"volunteer\"}",
                "",
            ),
            (
                "c1 does {\"type\":\"task\",\"name\":\"t\",\"op\":\"volunteer\"}",
                "",
            ),
            ("holder t", "c0"),
            (
                "c1 does {\"type\":\"task\",\"name\":\"t\",\"op\":\"complete\"}",
                "",
            ),
            ("holder t", "c0"),
            ("print", "{\"queues\":{},\"tasks\":{\"t\":[\"c0\",\"c1\"]}}"),
            ("c0 leaves", ""),
            ("holder t", "c1"),
            ("print", "{\"queues\":{},\"tasks\":{\"t\":[\"c1\"]}}"),
            ("c1 leaves", ""),
            ("holder t", "none"),
            ("print", "{\"queues\":{},\"tasks\":{}}"),
        ],
    );
}

// Releases, completes and leaves by others than the holder.
#[test]
fn what_another_says_counts_for_nothing(rt: HostRuntime) {
    play(
        &rt,
        rt.alloc(),
        &[
            (
                "c0 does {\"type\":\"queue\",\"name\":\"q\",\"op\":\"add\",\"value\":1}",
                "",
            ),
            (
                "c0 does {\"type\":\"queue\",\"name\":\"q\",\"op\":\"acquire\"}",
                "",
            ),
            ("held 1", "c0"),
            (
                "c1 does {\"type\":\"queue\",\"name\":\"q\",\"op\":\"release\",\"item\":1}",
                "",
            ),
            ("held 1", "c0"),
            ("free q", ""),
            (
                "c1 does {\"type\":\"queue\",\"name\":\"q\",\"op\":\"complete\",\"item\":1}",
                "",
            ),
            ("held 1", "c0"),
            ("value 1", "1"),
            ("c1 leaves", ""),
            ("held 1", "c0"),
            (
                "c0 does {\"type\":\"queue\",\"name\":\"q\",\"op\":\"complete\",\"item\":1}",
                "",
            ),
            ("value 1", "none"),
            ("held 1", "none"),
            (
                "c0 does {\"type\":\"queue\",\"name\":\"q\",\"op\":\"complete\",\"item\":1}",
                "",
            ),
            (
                "c0 does {\"type\":\"queue\",\"name\":\"q\",\"op\":\"release\",\"item\":1}",
                "",
            ),
            ("free q", ""),
            ("value 1", "none"),
            (
                "c1 does {\"type\":\"queue\",\"name\":\"q\",\"op\":\"acquire\"}",
                "",
            ),
            ("held 1", "none"),
            ("print", "{\"queues\":{},\"tasks\":{}}"),
        ],
    );
}

// A release and a complete that name another queue, or no item.
#[test]
fn the_queue_of_the_item_has_to_be_named(rt: HostRuntime) {
    play(
        &rt,
        rt.alloc(),
        &[
            (
                "c0 does {\"type\":\"queue\",\"name\":\"q\",\"op\":\"add\",\"value\":1}",
                "",
            ),
            (
                "c0 does {\"type\":\"queue\",\"name\":\"r\",\"op\":\"add\",\"value\":2}",
                "",
            ),
            (
                "c0 does {\"type\":\"queue\",\"name\":\"q\",\"op\":\"acquire\"}",
                "",
            ),
            (
                "c0 does {\"type\":\"queue\",\"name\":\"r\",\"op\":\"acquire\"}",
                "",
            ),
            ("held 1", "c0"),
            ("held 2", "c0"),
            (
                "c0 does {\"type\":\"queue\",\"name\":\"r\",\"op\":\"release\",\"item\":1}",
                "",
            ),
            (
                "c0 does {\"type\":\"queue\",\"name\":\"r\",\"op\":\"complete\",\"item\":1}",
                "",
            ),
            (
                "c0 does {\"type\":\"queue\",\"name\":\"q\",\"op\":\"complete\",\"item\":2}",
                "",
            ),
            (
                "c0 does {\"type\":\"queue\",\"name\":\"q\",\"op\":\"release\",\"item\":2}",
                "",
            ),
            (
                "c0 does {\"type\":\"queue\",\"name\":\"s\",\"op\":\"release\",\"item\":1}",
                "",
            ),
            ("held 1", "c0"),
            ("held 2", "c0"),
            ("value 1", "1"),
            ("value 2", "2"),
            (
                "c0 does {\"type\":\"queue\",\"name\":\"q\",\"op\":\"release\",\"item\":9}",
                "",
            ),
            (
                "c0 does {\"type\":\"queue\",\"name\":\"q\",\"op\":\"complete\",\"item\":0}",
                "",
            ),
            (
                "c0 does {\"type\":\"queue\",\"name\":\"q\",\"op\":\"release\",\"item\":-1}",
                "",
            ),
            ("free q", ""),
            ("free r", ""),
            (
                "c0 does {\"type\":\"queue\",\"name\":\"q\",\"op\":\"release\",\"item\":1}",
                "",
            ),
            (
                "c0 does {\"type\":\"queue\",\"name\":\"r\",\"op\":\"release\",\"item\":2}",
                "",
            ),
            ("free q", "1 "),
            ("free r", "2 "),
            ("free s", ""),
        ],
    );
}

// Those that are free longest come first, and of those that became free at once the lower number.
#[test]
fn items_are_given_in_turn(rt: HostRuntime) {
    play(
        &rt,
        rt.alloc(),
        &[
            (
                "c0 does {\"type\":\"queue\",\"name\":\"q\",\"op\":\"add\",\"value\":1}",
                "",
            ),
            (
                "c0 does {\"type\":\"queue\",\"name\":\"q\",\"op\":\"add\",\"value\":2}",
                "",
            ),
            (
                "c0 does {\"type\":\"queue\",\"name\":\"q\",\"op\":\"add\",\"value\":3}",
                "",
            ),
            (
                "c0 does {\"type\":\"queue\",\"name\":\"q\",\"op\":\"add\",\"value\":4}",
                "",
            ),
            (
                "c1 does {\"type\":\"queue\",\"name\":\"q\",\"op\":\"acquire\"}",
                "",
            ),
            (
                "c1 does {\"type\":\"queue\",\"name\":\"q\",\"op\":\"acquire\"}",
                "",
            ),
            (
                "c0 does {\"type\":\"queue\",\"name\":\"q\",\"op\":\"acquire\"}",
                "",
            ),
            ("free q", "4 "),
            (
                "c1 does {\"type\":\"queue\",\"name\":\"q\",\"op\":\"release\",\"item\":2}",
                "",
            ),
            (
                "c1 does {\"type\":\"queue\",\"name\":\"q\",\"op\":\"release\",\"item\":1}",
                "",
            ),
            ("free q", "4 2 1 "),
            (
                "c0 does {\"type\":\"queue\",\"name\":\"q\",\"op\":\"release\",\"item\":3}",
                "",
            ),
            ("free q", "4 2 1 3 "),
            (
                "c2 does {\"type\":\"queue\",\"name\":\"q\",\"op\":\"acquire\"}",
                "",
            ),
            (
                "c2 does {\"type\":\"queue\",\"name\":\"q\",\"op\":\"acquire\"}",
                "",
            ),
            (
                "c2 does {\"type\":\"queue\",\"name\":\"q\",\"op\":\"acquire\"}",
                "",
            ),
            ("held 4", "c2"),
            ("held 2", "c2"),
            ("held 1", "c2"),
            ("free q", "3 "),
            ("c2 leaves", ""),
            ("free q", "3 1 2 4 "),
            (
                "c0 does {\"type\":\"queue\",\"name\":\"q\",\"op\":\"acquire\"}",
                "",
            ),
            ("held 3", "c0"),
        ],
    );
}

// What a client held in two queues is free in its own, and it stands for no task; others keep theirs.
#[test]
fn a_leave_goes_through_each_queue(rt: HostRuntime) {
    play(
        &rt,
        rt.alloc(),
        &[
            (
                "c0 does {\"type\":\"queue\",\"name\":\"q\",\"op\":\"add\",\"value\":1}",
                "",
            ),
            (
                "c0 does {\"type\":\"queue\",\"name\":\"r\",\"op\":\"add\",\"value\":2}",
                "",
            ),
            (
                "c0 does {\"type\":\"queue\",\"name\":\"q\",\"op\":\"add\",\"value\":3}",
                "",
            ),
            (
                "c0 does {\"type\":\"queue\",\"name\":\"r\",\"op\":\"add\",\"value\":4}",
                "",
            ),
            (
                "c0 does {\"type\":\"queue\",\"name\":\"r\",\"op\":\"acquire\"}",
                "",
            ),
            (
                "c0 does {\"type\":\"queue\",\"name\":\"q\",\"op\":\"acquire\"}",
                "",
            ),
            (
                "c1 does {\"type\":\"queue\",\"name\":\"r\",\"op\":\"acquire\"}",
                "",
            ),
            (
                "c0 does {\"type\":\"queue\",\"name\":\"q\",\"op\":\"acquire\"}",
                "",
            ),
            (
                "c0 does {\"type\":\"task\",\"name\":\"t\",\"op\":\"volunteer\"}",
                "",
            ),
            (
                "c0 does {\"type\":\"task\",\"name\":\"u\",\"op\":\"volunteer\"}",
                "",
            ),
            (
                "c1 does {\"type\":\"task\",\"name\":\"u\",\"op\":\"volunteer\"}",
                "",
            ),
            (
                "print",
                "{\"queues\":{\"q\":{\"free\":[],\"held\":[{\"by\":\"c0\",\"item\":1},{\"by\":\"c0\",\"item\":3}]},\"r\":{\"free\":[],\"held\":[{\"by\":\"c0\",\"item\":2},{\"by\":\"c1\",\"item\":4}]}},\"tasks\":{\"t\":[\"c0\"],\"u\":[\"c0\",\"c1\"]}}",
            ),
            ("c0 leaves", ""),
            (
                "print",
                "{\"queues\":{\"q\":{\"free\":[1,3],\"held\":[]},\"r\":{\"free\":[2],\"held\":[{\"by\":\"c1\",\"item\":4}]}},\"tasks\":{\"u\":[\"c1\"]}}",
            ),
            ("c0 leaves", ""),
            ("free q", "1 3 "),
            ("holder u", "c1"),
            (
                "c0 does {\"type\":\"queue\",\"name\":\"q\",\"op\":\"acquire\"}",
                "",
            ),
            ("held 1", "c0"),
            (
                "c0 does {\"type\":\"task\",\"name\":\"u\",\"op\":\"volunteer\"}",
                "",
            ),
            ("holder u", "c1"),
        ],
    );
}

// A second volunteering, an abandoning and a return, and a complete by the holder.
#[test]
fn who_stands_for_a_task(rt: HostRuntime) {
    play(
        &rt,
        rt.alloc(),
        &[
            (
                "a does {\"type\":\"task\",\"name\":\"t\",\"op\":\"volunteer\"}",
                "",
            ),
            (
                "b does {\"type\":\"task\",\"name\":\"t\",\"op\":\"volunteer\"}",
                "",
            ),
            (
                "a does {\"type\":\"task\",\"name\":\"t\",\"op\":\"volunteer\"}",
                "",
            ),
            ("print", "{\"queues\":{},\"tasks\":{\"t\":[\"a\",\"b\"]}}"),
            (
                "a does {\"type\":\"task\",\"name\":\"t\",\"op\":\"abandon\"}",
                "",
            ),
            ("holder t", "b"),
            (
                "a does {\"type\":\"task\",\"name\":\"t\",\"op\":\"abandon\"}",
                "",
            ),
            (
                "a does {\"type\":\"task\",\"name\":\"t\",\"op\":\"volunteer\"}",
                "",
            ),
            ("print", "{\"queues\":{},\"tasks\":{\"t\":[\"b\",\"a\"]}}"),
            (
                "a does {\"type\":\"task\",\"name\":\"t\",\"op\":\"complete\"}",
                "",
            ),
            ("holder t", "b"),
            (
                "a does {\"type\":\"task\",\"name\":\"u\",\"op\":\"complete\"}",
                "",
            ),
            (
                "b does {\"type\":\"task\",\"name\":\"t\",\"op\":\"complete\"}",
                "",
            ),
            ("holder t", "none"),
            ("print", "{\"queues\":{},\"tasks\":{}}"),
            (
                "a does {\"type\":\"task\",\"name\":\"t\",\"op\":\"volunteer\"}",
                "",
            ),
            ("holder t", "a"),
            (
                "b does {\"type\":\"task\",\"name\":\"t\",\"op\":\"abandon\"}",
                "",
            ),
            ("holder t", "a"),
            (
                "b does {\"type\":\"task\",\"name\":\"t\",\"op\":\"volunteer\"}",
                "",
            ),
            (
                "c does {\"type\":\"task\",\"name\":\"t\",\"op\":\"volunteer\"}",
                "",
            ),
            (
                "b does {\"type\":\"task\",\"name\":\"t\",\"op\":\"abandon\"}",
                "",
            ),
            ("print", "{\"queues\":{},\"tasks\":{\"t\":[\"a\",\"c\"]}}"),
        ],
    );
}

// What has another form counts for nothing; a text of JSON stands for what it spells.
#[test]
fn forms(rt: HostRuntime) {
    play(
        &rt,
        rt.alloc(),
        &[
            (
                "a does {\"address\":\"m\",\"type\":\"queue\",\"name\":\"q\",\"op\":\"add\",\"value\":1}",
                "",
            ),
            (
                "a does {\"type\":\"queue\",\"name\":\"q\",\"op\":\"add\"}",
                "",
            ),
            (
                "a does {\"type\":\"queue\",\"name\":\"q.r\",\"op\":\"add\",\"value\":1}",
                "",
            ),
            (
                "a does {\"type\":\"queue\",\"name\":\"\",\"op\":\"add\",\"value\":1}",
                "",
            ),
            ("a does {\"type\":\"queue\",\"op\":\"add\",\"value\":1}", ""),
            (
                "a does {\"type\":\"queues\",\"name\":\"q\",\"op\":\"add\",\"value\":1}",
                "",
            ),
            (
                "a does {\"type\":\"queue\",\"name\":\"q\",\"op\":\"volunteer\"}",
                "",
            ),
            (
                "a does {\"type\":\"task\",\"name\":\"q\",\"op\":\"add\",\"value\":1}",
                "",
            ),
            ("a does []", ""),
            ("a does \"no JSON\"", ""),
            (
                "a hints {\"type\":\"queue\",\"name\":\"q\",\"op\":\"add\",\"value\":1}",
                "",
            ),
            ("print", "{\"queues\":{},\"tasks\":{}}"),
            (
                "a does {\"contents\":7,\"kind\":\"map\",\"type\":\"queue\",\"name\":\"q\",\"op\":\"add\",\"value\":null}",
                "",
            ),
            ("free q", "12 "),
            ("value 12", "null"),
            (
                "a does \"{\\\"type\\\":\\\"queue\\\",\\\"name\\\":\\\"q\\\",\\\"op\\\":\\\"add\\\",\\\"value\\\":[1,2]}\"",
                "",
            ),
            ("free q", "12 13 "),
            ("value 13", "[1,2]"),
            (
                "a does {\"type\":\"queue\",\"name\":\"q\",\"op\":\"acquire\"}",
                "",
            ),
            (
                "a does {\"type\":\"queue\",\"name\":\"q\",\"op\":\"complete\",\"item\":\"12\"}",
                "",
            ),
            ("held 12", "a"),
            (
                "a does {\"type\":\"queue\",\"name\":\"q\",\"op\":\"complete\"}",
                "",
            ),
            ("held 12", "a"),
            (
                "a does {\"type\":\"queue\",\"name\":\"q\",\"op\":\"complete\",\"item\":12}",
                "",
            ),
            ("value 12", "none"),
        ],
    );
}

// Queues and tasks stand in byte order of their names; those with nothing to show are left out.
#[test]
fn names_in_the_text(rt: HostRuntime) {
    play(
        &rt,
        rt.alloc(),
        &[
            (
                "a does {\"type\":\"queue\",\"name\":\"r\",\"op\":\"add\",\"value\":1}",
                "",
            ),
            (
                "a does {\"type\":\"queue\",\"name\":\"q\",\"op\":\"add\",\"value\":2}",
                "",
            ),
            (
                "a does {\"type\":\"queue\",\"name\":\"Q\",\"op\":\"add\",\"value\":3}",
                "",
            ),
            (
                "a does {\"type\":\"task\",\"name\":\"u\",\"op\":\"volunteer\"}",
                "",
            ),
            (
                "a does {\"type\":\"task\",\"name\":\"T\",\"op\":\"volunteer\"}",
                "",
            ),
            (
                "print",
                "{\"queues\":{\"Q\":{\"free\":[3],\"held\":[]},\"q\":{\"free\":[2],\"held\":[]},\"r\":{\"free\":[1],\"held\":[]}},\"tasks\":{\"T\":[\"a\"],\"u\":[\"a\"]}}",
            ),
            (
                "a does {\"type\":\"queue\",\"name\":\"q\",\"op\":\"acquire\"}",
                "",
            ),
            (
                "a does {\"type\":\"queue\",\"name\":\"q\",\"op\":\"complete\",\"item\":2}",
                "",
            ),
            (
                "a does {\"type\":\"task\",\"name\":\"T\",\"op\":\"abandon\"}",
                "",
            ),
            (
                "print",
                "{\"queues\":{\"Q\":{\"free\":[3],\"held\":[]},\"r\":{\"free\":[1],\"held\":[]}},\"tasks\":{\"u\":[\"a\"]}}",
            ),
            ("value 0", "none"),
            ("value 99", "none"),
            ("held 99", "none"),
            ("free no-queue", ""),
            ("holder no-task", "none"),
        ],
    );
}

// Which lines are refused.
use crate::runs::is_done_as;

// Each reason, by the input's last line.
const REFUSED: &[(&[u8], &str)] = &[
    (b"dance d\n", "bad line 1: unknown step\n"),
    (b"count\n", "bad line 1: bad step\n"),
    (b"restart d 01\n", "bad line 1: bad step\n"),
    (b"edit p {}\n", "bad line 1: bad step\n"),
    (
        b"load p d none\nload p d none\n",
        "p loaded d at 1\nbad line 2: name in use\n",
    ),
    (b"pump p\n", "bad line 1: unknown name\n"),
    (b"say nobody {\n", "bad line 1: unknown name\n"),
    (b"back r\n", "bad line 1: unknown name\n"),
    (
        b"roam r e\nback r\n",
        "r roams e as c0 at 1\nbad line 2: unknown name\n",
    ),
    (
        b"roam r e\nlose r\nlose r\n",
        "r roams e as c0 at 1\nr lost\nbad line 3: unknown name\n",
    ),
    (
        b"roam r e\npump r\n",
        "r roams e as c0 at 1\nbad line 2: unknown name\n",
    ),
    (
        b"load p d none\nacked p\n",
        "p loaded d at 1\nbad line 2: unknown name\n",
    ),
    (
        b"roam r e\nroam r d\n",
        "r roams e as c0 at 1\nbad line 2: name in use\n",
    ),
    (
        b"roam r e\nsay r nothing\n",
        "r roams e as c0 at 1\nbad line 2: not JSON\n",
    ),
    (
        b"load p d none\nsend p x\n",
        "p loaded d at 1\nbad line 2: unknown name\n",
    ),
    (
        b"load p d none\ncollect p\n",
        "p loaded d at 1\nbad line 2: unknown name\n",
    ),
    // The name is looked at before the JSON.
    (b"edit p nothing\n", "bad line 1: unknown name\n"),
    (
        b"load p d none\nedit p nothing\n",
        "p loaded d at 1\nbad line 2: not JSON\n",
    ),
    (
        b"load p d none\nedit p 1.5\n",
        "p loaded d at 1\nbad line 2: a number is not whole\n",
    ),
    (
        b"load p d none\nedit p [[[[[[[[[[[[[[[[[[[[[[[[[[[[[[[[[[[[[[[[[[[[[[[[[[[[[[[[[[[[[[[[[[[[[[[[[[[[[[[[[[[[[[[[[[[[[[[[[[[]]]]]]]]]]]]]]]]]]]]]]]]]]]]]]]]]]]]]]]]]]]]]]]]]]]]]]]]]]]]]]]]]]]]]]]]]]]]]]]]]]]]]]]]]]]]]]]]]]]\n",
        "p loaded d at 1\nbad line 2: nested too deep\n",
    ),
    (
        b"load p d none\nedit p [[[[[[[[[[[[[[[[[[[[[[[[[[[[[[[[[[[[[[[[[[[[[[[[[[[[[[[[[[[[[[[[[[[[[[[[[[[[[[[[[[[[[[[[[[[[[[[[[[]]]]]]]]]]]]]]]]]]]]]]]]]]]]]]]]]]]]]]]]]]]]]]]]]]]]]]]]]]]]]]]]]]]]]]]]]]]]]]]]]]]]]]]]]]]]]]]]]]\n",
        "p loaded d at 1\nbad line 2: bad step\n",
    ),
    (
        b"count d\n\xff\n",
        "d 0 entries, number 0, minimum 0\nbad line 2: not UTF-8\n",
    ),
];

// The longest line is read, and one more byte is too many.
const LONGEST: usize = 1_048_576;

#[test]
fn each_refused_line_says_why(rt: HostRuntime) {
    for row in REFUSED {
        is_done_as(&rt, rt.alloc(), row.0, None, "bad line", row.1);
    }
}

#[test]
fn a_line_may_be_so_long(rt: HostRuntime) {
    let alloc = rt.alloc();
    let most = "a".repeat(alloc, LONGEST).expect(&rt, "memory");
    is_done_as(
        &rt,
        alloc,
        most.as_bytes(),
        None,
        "bad line",
        "bad line 1: unknown step\n",
    );
    let more = "a".repeat(alloc, LONGEST + 1).expect(&rt, "memory");
    is_done_as(
        &rt,
        alloc,
        more.as_bytes(),
        None,
        "bad line",
        "bad line 1: too long\n",
    );
    drop(most);
    drop(more);
}

//! Texts with the status and what is printed of each.
use crate::commands::tables::{PATH, PATH_REPORT, Row, Told};

/// A step script whose one step is not enabled.
const IDLE: &str = "am2 1\n\
    network direct\n\
    nodes 1\n\
    endpoint 0 0 5\n\
    x carry 0\n";

/// Under `step`: the first fault of a text.
pub static FAULTS: [Told; 11] = [
    ("", 3, "refused line 1 missing\n"),
    (
        "am2 1\n\
            network direct\n\
            nodes 17\n",
        3,
        "refused line 3 out-of-range\n",
    ),
    ("am2 1\nnodes x\n", 3, "refused line 2 bad-number\n"),
    (
        "am2 1\nnodes 18446744073709551616\n",
        3,
        "refused line 2 bad-number\n",
    ),
    (
        "am2 1\n\
            nodes 1\n\
            nodes 1\n",
        3,
        "refused line 3 twice\n",
    ),
    (
        "am2 1\n\
            nodes 1\n\
            endpoint 0 0 5\n",
        3,
        "refused line 3 missing\n",
    ),
    (
        "am2 1\n\
            network direct\n\
            nodes 1\n\
            x poll 0\n",
        3,
        "refused line 4 undeclared\n",
    ),
    ("am2 1\nspeed 3\n", 3, "refused line 2 unknown-word\n"),
    ("\t\n", 3, "refused line 1 not-text\n"),
    (
        "am2 1\n\
            network direct\n\
            nodes 1\n\
            endpoint 0 0 5\n\
            frames 2\n",
        3,
        "refused line 5 out-of-place\n",
    ),
    (
        "am2 1\n\
            network packet\n\
            nodes 1\n\
            thread 0 0\n\
            thread 1 0\n\
            thread 2 0\n\
            thread 3 0\n\
            thread 4 0\n",
        3,
        "refused line 8 too-many\n",
    ),
];

/// Two nodes; the third endpoint begins on disk.
pub const TWO_NODES: &str = "am2 1\n\
    network packet\n\
    nodes 2\n\
    endpoint 0 0 5\n\
    endpoint 1 1 7\n\
    endpoint 2 0 9 disk\n";

/// Steps of two nodes under `step`, behind `TWO_NODES`: the first condition that fails is named.
pub static CONDITIONS: [Told; 15] = [
    ("x poll 2\n", 3, "refused line 7 not-enabled on-disk\n"),
    ("x want 0\n", 3, "refused line 7 not-enabled not-on-disk\n"),
    ("x carry 0\n", 3, "refused line 7 not-enabled not-direct\n"),
    ("i1 bind 0\n", 3, "refused line 7 not-enabled other-node\n"),
    (
        "i0 bind 0\n",
        3,
        "refused line 7 not-enabled not-resident\n",
    ),
    (
        "d0 load 0 0\n\
            d0 drain 0\n\
            i0 bind 0\n",
        3,
        "refused line 9 not-enabled draining\n",
    ),
    (
        "d0 load 0 0\ni0 bind 0\n",
        3,
        "refused line 8 not-enabled no-message\n",
    ),
    (
        "x map 0 0 1 7 4\n\
            d0 load 0 0\n\
            x request 0 0 1 0 0 0 0\n\
            x request 0 0 1 0 0 0 0\n\
            i0 bind 0\n\
            i0 bind 0\n",
        3,
        "refused line 12 not-enabled no-channel\n",
    ),
    ("i0 expire 1 0\n", 3, "refused line 7 not-enabled idle\n"),
    (
        "i0 receive 1 1\n",
        3,
        "refused line 7 not-enabled no-packet\n",
    ),
    (
        "d0 drain 0\n",
        3,
        "refused line 7 not-enabled not-resident\n",
    ),
    (
        "d0 load 0 0\nd0 unload 0\n",
        3,
        "refused line 8 not-enabled not-draining\n",
    ),
    (
        "d0 load 2 0\n",
        3,
        "refused line 7 not-enabled not-on-host\n",
    ),
    (
        "x close 0\nd0 load 0 0\n",
        3,
        "refused line 8 not-enabled closed\n",
    ),
    (
        "d0 pagein 0\n",
        3,
        "refused line 7 not-enabled not-on-disk\n",
    ),
];

/// The report of `PATH` in front of its last entry; behind it, without its last line; and that line.
const FRONT: &str = "am2 report 1\n\
    entries 5\n\
    x handler 1 1 note -> ok\n\
    x map 0 0 1 7 1 -> ok\n\
    x request 0 0 1 10 20 30 40 -> ok 0.1\n\
    x carry 0 -> accepted 0.1\n";

const FATES: &str = "endpoint 0 runs 0\n\
    endpoint 1 runs 1\n\
    run 0.1 1 10 20 30 40\n\
    messages 2\n\
    fate 0.1 request ran\n\
    fate 1.1 empty pending\n";

const TOTALS: &str = "totals ran 1 returned 0 unknown 0 unknown-but-ran 0 pending 1\n";

/// Step scripts with what stands for their reports, under `check step`.
pub static CHECKS: [Row; 8] = [
    (&[PATH, PATH_REPORT], 0, &["check ok\n"]),
    (
        &[PATH, FRONT, "x poll 1 -> empty\n", FATES, TOTALS],
        10,
        &["check line 7 outcome\n"],
    ),
    (
        &[PATH, FRONT, "x poll 1 -> ran 0.1 1 sends 1.1\n", FATES],
        10,
        &["check line 14 tail\n"],
    ),
    (&[PATH], 10, &["check line 1 form\n"]),
    (
        &[
            PATH,
            "am2 report 1\n\
            entries 1\n\
            x poll 1 -> empty\n",
        ],
        10,
        &["check line 3 follows\n"],
    ),
    (
        &[
            IDLE,
            "am2 report 1\n\
            entries 1\n\
            x carry 0 -> accepted 0.1\n",
        ],
        10,
        &["check line 3 not-enabled no-message\n"],
    ),
    (
        &[
            "am2 1\n\
            network direct\n\
            nodes 1\n\
            log 3\n\
            endpoint 0 0 5\n\
            x poll 0\n\
            x poll 0\n\
            x poll 0\n\
            x poll 0\n",
            "am2 report 1\n\
            entries 4\n\
            x poll 0 -> empty\n\
            x poll 0 -> empty\n\
            x poll 0 -> empty\n\
            x poll 0 -> empty\n",
        ],
        6,
        &["log full e0\n"],
    ),
    (
        &["am2 1\nnodes x\n", PATH_REPORT],
        3,
        &["refused line 2 bad-number\n"],
    ),
];

/// The words, a text, the status and what is printed.
pub static COUNTS: [(&str, &[u8], u8, &[u8]); 9] = [
    (
        "count 8 10000",
        b"",
        0,
        b"am2 count 8 10000\n\
            words 0\n\
            long 0\n\
            left 0\n",
    ),
    (
        "count 2 0",
        b"b a b\n",
        0,
        b"am2 count 2 0\n\
            word 1 0 a\n\
            word 2 0 b\n\
            words 3\n\
            long 0\n\
            left 0\n",
    ),
    (
        "count 1 0",
        b"zzzzzzzzzzzzzzzzzzzzzzzzz",
        0,
        b"am2 count 1 0\n\
            words 1\n\
            long 1\n\
            left 0\n",
    ),
    (
        "count 1 0",
        b"",
        0,
        b"am2 count 1 0\n\
            words 0\n\
            long 0\n\
            left 0\n",
    ),
    (
        "count 1 0",
        b"zzzzzzzzzzzzzzzzzzzzzzzz",
        0,
        b"am2 count 1 0\n\
            word 1 0 zzzzzzzzzzzzzzzzzzzzzzzz\n\
            words 1\n\
            long 0\n\
            left 0\n",
    ),
    (
        "count 8 0",
        b" \t\r\n",
        0,
        b"am2 count 8 0\n\
            words 0\n\
            long 0\n\
            left 0\n",
    ),
    (
        "count 3 0",
        b"a\tb\rc\nd e\x00\xff \xff\x00",
        0,
        b"am2 count 3 0\n\
            word 1 0 a\n\
            word 1 0 b\n\
            word 1 0 c\n\
            word 1 0 d\n\
            word 1 0 e\x00\xff\n\
            word 1 0 \xff\x00\n\
            words 6\n\
            long 0\n\
            left 0\n",
    ),
    (
        "count 2 0",
        b"ab ba ab abc",
        0,
        b"am2 count 2 0\n\
            word 2 0 ab\n\
            word 1 0 abc\n\
            word 1 0 ba\n\
            words 4\n\
            long 0\n\
            left 0\n",
    ),
    (
        "count 4 0",
        b"x\n\
            x\n\
            x\n\
            x\n\
            x\n\
            x\n\
            x\n\
            x\n\
            x\n\
            x\n",
        0,
        b"am2 count 4 0\n\
            word 10 0 x\n\
            words 10\n\
            long 0\n\
            left 0\n",
    ),
];

/// The words, a text, and what its report begins and ends with.
pub static FRAMED: [(&str, &str, &str, &str); 5] = [
    (
        "make 0",
        "",
        "am2 make 0\ncalls 1744\nentries ",
        " pending 0\n",
    ),
    (
        "make 1",
        "",
        "am2 make 1\ncalls 1744\nentries ",
        " pending 0\n",
    ),
    (
        "make 18446744073709551615",
        "",
        "am2 make 18446744073709551615\ncalls 1744\nentries ",
        " pending 0\n",
    ),
    // Two bytes of a segment are written; and none, where the link loses each try of their message.
    (
        "segments",
        "am2 1\n\
            network packet\n\
            nodes 1\n\
            endpoint 0 0 5\n\
            endpoint 1 0 7\n\
            thread 0 0\n\
            segment 1 1 4\n\
            t0 handler 1 1 note\n\
            t0 map 0 0 1 7 1\n\
            t0 xfer 0 0 1 1 6869\n\
            t0 poll 1\n",
        "am2 report 1\nentries ",
        "\nsegment 1 1 4\n\
            00686900\n\
            transfer 1 ran 1 of 1\n",
    ),
    (
        "segments",
        "am2 1\n\
            network packet\n\
            nodes 1\n\
            endpoint 0 0 5\n\
            endpoint 1 0 7\n\
            thread 0 0\n\
            plan 0 0 1 lose\n\
            plan 0 0 2 lose\n\
            plan 0 0 3 lose\n\
            plan 0 0 4 lose\n\
            segment 1 1 4\n\
            t0 handler 1 1 note\n\
            t0 map 0 0 1 7 1\n\
            t0 xfer 0 0 1 1 6869\n\
            t0 poll 1\n",
        "am2 report 1\nentries ",
        "\nsegment 1 1 4\n\
            00000000\n\
            transfer 1 ran 0 of 1\n",
    ),
];

/// Words that have no form, one after another with a space between them.
pub static NO_FORMS: [&str; 23] = [
    "",
    "stop",
    "Step",
    "step now",
    "run 1",
    "make",
    "make x",
    "make 01",
    "make 00",
    "make +1",
    "make -1",
    "make 18446744073709551616",
    "make 1 2",
    "count",
    "count 1",
    "count 0 0",
    "count 9 0",
    "count 1 10001",
    "count 01 0",
    "count 1 00",
    "count 1 +5",
    "count x 0",
    "count 1 0 0",
];

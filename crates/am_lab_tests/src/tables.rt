//! Texts, and what is told of them by docs/LAB.md.

/// The way of one message, from its request to the run of its handler.
pub const PATH: &str = "am2 1\n\
    network direct\n\
    nodes 1\n\
    endpoint 0 0 5\n\
    endpoint 1 0 7\n\
    x handler 1 1 note\n\
    x map 0 0 1 7 1\n\
    x request 0 0 1 10 20 30 40\n\
    x carry 0\n\
    x poll 1\n";

/// Its report.
pub const REPORT: &str = "am2 report 1\n\
    entries 5\n\
    x handler 1 1 note -> ok\n\
    x map 0 0 1 7 1 -> ok\n\
    x request 0 0 1 10 20 30 40 -> ok 0.1\n\
    x carry 0 -> accepted 0.1\n\
    x poll 1 -> ran 0.1 1 sends 1.1\n\
    endpoint 0 runs 0\n\
    endpoint 1 runs 1\n\
    run 0.1 1 10 20 30 40\n\
    messages 2\n\
    fate 0.1 request ran\n\
    fate 1.1 empty pending\n\
    totals ran 1 returned 0 unknown 0 unknown-but-ran 0 pending 1\n";

// The same over two nodes, which has the same report.
const TWO_NODES: &str = "am2 1\n\
    network direct\n\
    nodes 2\n\
    endpoint 0 0 5\n\
    endpoint 1 1 7\n\
    x handler 1 1 note\n\
    x map 0 0 1 7 1\n\
    x request 0 0 1 10 20 30 40\n\
    x carry 0\n\
    x poll 1\n";

// The report with another last entry, and with another fate.
const NOT_RUN: &str = "am2 report 1\n\
    entries 5\n\
    x handler 1 1 note -> ok\n\
    x map 0 0 1 7 1 -> ok\n\
    x request 0 0 1 10 20 30 40 -> ok 0.1\n\
    x carry 0 -> accepted 0.1\n\
    x poll 1 -> empty\n";

const POLLED_ELSEWHERE: &str = "am2 report 1\n\
    entries 5\n\
    x handler 1 1 note -> ok\n\
    x map 0 0 1 7 1 -> ok\n\
    x request 0 0 1 10 20 30 40 -> ok 0.1\n\
    x carry 0 -> accepted 0.1\n\
    x poll 0 -> empty\n";

const ANOTHER_FATE: &str = "am2 report 1\n\
    entries 5\n\
    x handler 1 1 note -> ok\n\
    x map 0 0 1 7 1 -> ok\n\
    x request 0 0 1 10 20 30 40 -> ok 0.1\n\
    x carry 0 -> accepted 0.1\n\
    x poll 1 -> ran 0.1 1 sends 1.1\n\
    endpoint 0 runs 0\n\
    endpoint 1 runs 1\n\
    run 0.1 1 10 20 30 40\n\
    messages 2\n\
    fate 0.1 request unknown\n";

// A message whose first packet and whose answer are lost: two tries, and a poll runs it.
const LOST: &str = "am2 1\n\
    network packet\n\
    nodes 1\n\
    tries 2\n\
    endpoint 0 0 5\n\
    endpoint 1 0 7\n\
    thread 0 0\n\
    plan 0 0 1 lose\n\
    plan 0 0 3 lose\n\
    t0 handler 1 1 note\n\
    t0 map 0 0 1 7 1\n\
    t0 request 0 0 1 9 0 0 0\n\
    t0 poll 1\n";

const LOST_REPORT: &str = "am2 report 1\n\
    entries 15\n\
    t0 handler 1 1 note -> ok\n\
    t0 map 0 0 1 7 1 -> ok\n\
    t0 request 0 0 1 9 0 0 0 -> ok 0.1\n\
    d0 load 0 0\n\
    d0 load 1 1\n\
    i0 bind 0 -> sent 0.1 0 0 1 0 1\n\
    i0 expire 0 0 -> sent 0.1 0 0 1 1 2\n\
    i0 receive 0 2 -> accepted 0.1 answer 3\n\
    i0 expire 0 0 -> unknown 0.1\n\
    t0 poll 1 -> ran 0.1 1 sends 1.1\n\
    i0 bind 1 -> sent 1.1 0 0 2 0 4\n\
    i0 receive 0 4 -> refused 1.1 no-request answer 5\n\
    i0 receive 0 5 -> returned 1.1 no-request\n\
    x poll 0 -> zero 0.1 unknown\n\
    x poll 1 -> zero 1.1 no-request\n\
    endpoint 0 runs 1\n\
    zero 0.1 unknown\n\
    endpoint 1 runs 2\n\
    run 0.1 1 9 0 0 0\n\
    zero 1.1 no-request\n\
    messages 2\n\
    fate 0.1 request unknown-but-ran\n\
    fate 1.1 empty returned no-request\n\
    totals ran 0 returned 1 unknown 0 unknown-but-ran 1 pending 0\n";

// A text with segments.
const SEGMENTS: &str = "am2 1\n\
    network packet\n\
    nodes 1\n\
    endpoint 0 0 5\n\
    segment 0 1 8\n\
    thread 0 0\n\
    t0 serve 0 2\n";

/// The words, a scenario and its report or another text, and the status and the text that are answered.
pub static TOLD: [(&str, &str, &str, u8, &str); 26] = [
    ("am2_lab explain step", PATH, REPORT, 0, "check ok\n"),
    (
        "am2_lab json step --shiviz",
        TWO_NODES,
        REPORT,
        0,
        "n1 {\"n1\":1}\nx handler 1 1 note -> ok\n\
        n0 {\"n0\":1}\nx map 0 0 1 7 1 -> ok\n\
        n0 {\"n0\":2}\nx request 0 0 1 10 20 30 40 -> ok 0.1\n\
        n0 {\"n0\":3,\"n1\":1}\nx carry 0 -> accepted 0.1\n\
        n1 {\"n0\":3,\"n1\":2}\nx poll 1 -> ran 0.1 1 sends 1.1\n",
    ),
    (
        "am2_lab explain step",
        PATH,
        NOT_RUN,
        10,
        "check line 7 outcome\ndue x poll 1 -> ran 0.1 1 sends 1.1\n",
    ),
    (
        "am2_lab explain step",
        PATH,
        POLLED_ELSEWHERE,
        10,
        "check line 7 follows\nnext x poll 1\n",
    ),
    (
        "am2_lab explain step",
        PATH,
        ANOTHER_FATE,
        10,
        "check line 12 tail\ndue fate 0.1 request ran\n",
    ),
    (
        "am2_lab explain run",
        "am2 1\nnodes 0\n",
        "",
        3,
        "refused line 2 out-of-range\n  nodes 0\n        ^\nmay stand there: numbers from 1 to 16\n",
    ),
    (
        "am2_lab explain run",
        PATH,
        "",
        3,
        "refused line 2 out-of-range\n  network direct\n          ^\nmay stand there: packet\n\
        step reads on there: the text may be a step script\n",
    ),
    (
        "am2_lab explain step",
        PATH,
        "",
        10,
        "check line 1 form\nno report behind the scenario\n",
    ),
    (
        "am2_lab explain step",
        PATH,
        "x carry 0\n",
        3,
        "refused line 11 not-enabled no-message\n  x carry 0\n  ^\nfound endpoint 0 node 0 direct\n",
    ),
    (
        "am2_lab explain step --front",
        PATH,
        "x carry 0\n",
        3,
        "refused line 11 not-enabled no-message\n  x carry 0\n  ^\nfound endpoint 0 node 0 direct\n\
        x handler 1 1 note -> ok\nx map 0 0 1 7 1 -> ok\nx request 0 0 1 10 20 30 40 -> ok 0.1\n\
        x carry 0 -> accepted 0.1\nx poll 1 -> ran 0.1 1 sends 1.1\n",
    ),
    (
        "am2_lab explain step",
        "",
        REPORT,
        3,
        "refused line 1 missing\nthe text ends there: each scenario has an am2 line, a network line and a nodes line\n\
        there is no scenario: the text is empty, or begins with a report\n",
    ),
    (
        "am2_lab why step 0.1",
        PATH,
        REPORT,
        0,
        "line 5 x request 0 0 1 10 20 30 40 -> ok 0.1\nline 6 x carry 0 -> accepted 0.1\n\
        line 7 x poll 1 -> ran 0.1 1 sends 1.1\nmessage 0.1 ran: a poll at its destination ran it\n",
    ),
    (
        "am2_lab why step 1.1",
        PATH,
        REPORT,
        0,
        "line 7 x poll 1 -> ran 0.1 1 sends 1.1\n\
        message 1.1 pending: it waits to be sent\n",
    ),
    ("am2_lab why step 9.1", PATH, REPORT, 12, "no endpoint 9\n"),
    (
        "am2_lab why step 0.2",
        PATH,
        REPORT,
        0,
        "message 0.2 was never accepted\n",
    ),
    (
        "am2_lab why step 0.1",
        PATH,
        "log full e0\nam2 report 1\nentries 0\n",
        6,
        "log full e0\nthe run met this full log: its report ends early, so nothing of it is checked or shown\n",
    ),
    (
        "am2_lab why step 0.1",
        PATH,
        NOT_RUN,
        10,
        "check line 7 outcome\n",
    ),
    (
        "am2_lab why run 0.1",
        LOST,
        LOST_REPORT,
        0,
        "line 5 t0 request 0 0 1 9 0 0 0 -> ok 0.1\nline 8 i0 bind 0 -> sent 0.1 0 0 1 0 1\n\
        packet 1 from 0 to 0 lost by the plan\nline 9 i0 expire 0 0 -> sent 0.1 0 0 1 1 2\n\
        packet 2 from 0 to 0 received line 10\nline 10 i0 receive 0 2 -> accepted 0.1 answer 3\n\
        packet 3 from 0 to 0 lost by the plan\nline 11 i0 expire 0 0 -> unknown 0.1\n\
        line 12 t0 poll 1 -> ran 0.1 1 sends 1.1\nline 16 x poll 0 -> zero 0.1 unknown\n\
        message 0.1 unknown-but-ran: its last try timed out with no answer, and a poll ran it\n",
    ),
    (
        "am2_lab scenario step",
        PATH,
        "",
        0,
        "am2 1\nnetwork direct\nnodes 1\nframes 16\nchannels 1\ntries 4\nbounces 3\nkeep 64\nlog 65536\nturns 0\n\
        endpoint 0 0 5\nendpoint 1 0 7\nx handler 1 1 note\nx map 0 0 1 7 1\nx request 0 0 1 10 20 30 40\nx carry 0\n\
        x poll 1\n",
    ),
    (
        "am2_lab replay run",
        LOST,
        LOST_REPORT,
        0,
        "am2 1\nnetwork packet\nnodes 1\nframes 16\nchannels 1\ntries 2\nbounces 1\nkeep 64\nlog 65536\nturns 0\n\
        endpoint 0 0 5\nendpoint 1 0 7\nthread 0 0\nx handler 1 1 note\nx map 0 0 1 7 1\nx request 0 0 1 9 0 0 0\n\
        d0 load 0 0\nd0 load 1 1\ni0 bind 0\ni0 expire 0 0\ni0 receive 0 2\ni0 expire 0 0\nx poll 1\ni0 bind 1\n\
        i0 receive 0 4\ni0 receive 0 5\nx poll 0\nx poll 1\n",
    ),
    ("am2_lab schedule 0", LOST, "", 0, LOST_REPORT),
    (
        "am2_lab scenario segments",
        SEGMENTS,
        "",
        0,
        "am2 1\nnetwork packet\nnodes 1\nframes 16\nchannels 1\ntries 4\nbounces 3\nkeep 64\nlog 65536\nturns 0\n\
        endpoint 0 0 5\nthread 0 0\nt0 poll 0\nt0 poll 0\n",
    ),
    (
        "am2_lab scenario segments",
        SEGMENTS,
        "t0 serve 1 1\n",
        3,
        "refused line 8 undeclared\n",
    ),
    (
        "am2_lab scenario count 1 7 1",
        "ab\n",
        "",
        0,
        "am2 1\nnetwork packet\nnodes 1\nframes 2\nchannels 1\ntries 4\nbounces 3\nkeep 64\nlog 65536\nturns 7\n\
        endpoint 0 0 100\nendpoint 1 0 101\nthread 0 0\nt0 handler 1 1 note\nt0 map 0 0 1 101 8\n\
        t0 request 0 0 1 2 7017171169396654080 0 0\nt0 poll 1\nt0 poll 0\n",
    ),
    (
        "am2_lab scenario count 1 7 2",
        "ab\n",
        "",
        12,
        "no round 2 of 1\n",
    ),
    (
        "am2_lab scenario count 8 0 1",
        " ",
        "\n",
        12,
        "no round 1 of 0\n",
    ),
];

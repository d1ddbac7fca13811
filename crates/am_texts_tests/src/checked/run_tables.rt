//! Reports of runs, right and wrong, and the first fault of each.

use crate::checked::tables::Row;
use am_check::CheckStop::{Fault, LogFull};
use am_check::CheckWhat::{Follows, Form, NotEnabled, Outcome, Tail};
use am_names::EndpointId;
use am_office_entries::{Condition, Part};

/// Two clients and a server.
pub const CLIENTS: &str = "am2 1\n\
    network packet\n\
    nodes 2\n\
    frames 2\n\
    channels 2\n\
    endpoint 0 0 11\n\
    endpoint 1 0 12\n\
    endpoint 2 1 20\n\
    thread 0 0\n\
    thread 1 0\n\
    thread 2 1\n\
    plan 0 1 2 lose\n\
    t0 handler 0 4 note\n\
    t0 map 0 0 2 20 2\n\
    t0 request 0 0 3 100 0 0 0\n\
    t0 poll 0\n\
    t1 handler 1 4 note\n\
    t1 map 1 0 2 20 2\n\
    t1 request 1 0 3 23 0 0 0\n\
    t1 poll 1\n\
    t2 handler 2 3 add 4\n\
    t2 poll 2\n\
    t2 poll 2\n\
    t2 poll 2\n";

/// What its report begins with, and the lines 3 to 9, 10 to 13, 14 to 30, and 31 of the report; and what stands behind.
const HEAD: &str = "am2 report 1\nentries 29\n";

const CALLS: &str = "t0 handler 0 4 note -> ok\n\
    t1 handler 1 4 note -> ok\n\
    t2 handler 2 3 add 4 -> ok\n\
    t0 map 0 0 2 20 2 -> ok\n\
    t1 map 1 0 2 20 2 -> ok\n\
    t2 poll 2 -> empty\n\
    t0 request 0 0 3 100 0 0 0 -> ok 0.1\n";

const FIRST: &str = "d0 load 0 0\n\
    d1 load 2 0\n\
    i0 bind 0 -> sent 0.1 1 0 1 0 1\n\
    i1 receive 0 1 -> accepted 0.1 answer 1\n";

pub const REST: &str = "i0 receive 1 1 -> delivered 0.1\n\
    t1 request 1 0 3 23 0 0 0 -> ok 1.1\n\
    d0 load 1 1\n\
    i0 bind 1 -> sent 1.1 1 0 2 0 2\n\
    i0 expire 1 0 -> sent 1.1 1 0 2 1 3\n\
    i1 receive 0 3 -> accepted 1.1 answer 2\n\
    i0 receive 1 2 -> delivered 1.1\n\
    t2 poll 2 -> ran 0.1 3 sends 2.1\n\
    i1 bind 2 -> sent 2.1 0 0 1 0 3\n\
    i0 receive 1 3 -> accepted 2.1 answer 4\n\
    i1 receive 0 4 -> delivered 2.1\n\
    t0 poll 0 -> ran 2.1 4\n\
    t1 poll 1 -> empty\n\
    t2 poll 2 -> ran 1.1 3 sends 2.2\n\
    i1 bind 2 -> sent 2.2 0 0 2 0 4\n\
    i0 receive 1 4 -> accepted 2.2 answer 5\n\
    i1 receive 0 5 -> delivered 2.2\n";

const LAST: &str = "x poll 1 -> ran 2.2 4\n";

const TAIL: &str = "endpoint 0 runs 1\n\
    run 2.1 4 100 0 0 0\n\
    endpoint 1 runs 1\n\
    run 2.2 4 123 0 0 0\n\
    endpoint 2 runs 2\n\
    run 0.1 3 100 0 0 0\n\
    run 1.1 3 23 0 0 0\n\
    messages 4\n\
    fate 0.1 request ran\n\
    fate 1.1 request ran\n\
    fate 2.1 reply ran\n\
    fate 2.2 reply ran\n\
    totals ran 4 returned 0 unknown 0 unknown-but-ran 0 pending 0\n";

/// Behind the scenario and with the rest in front of the last two parts: its report, and the report with one part in place of another.
pub static REPORTS: [Row; 14] = [
    ([HEAD, CALLS, FIRST, LAST, TAIL], None),
    // the load of another node comes before or after a bind
    (
        [
            HEAD,
            CALLS,
            "d0 load 0 0\n\
                i0 bind 0 -> sent 0.1 1 0 1 0 1\n\
                d1 load 2 0\n\
                i1 receive 0 1 -> accepted 0.1 answer 1\n",
            LAST,
            TAIL,
        ],
        None,
    ),
    // a receipt before its packet
    (
        [
            HEAD,
            CALLS,
            "d0 load 0 0\n\
                d1 load 2 0\n\
                i1 receive 0 1 -> accepted 0.1 answer 1\n\
                i0 bind 0 -> sent 0.1 1 0 1 0 1\n",
            LAST,
            TAIL,
        ],
        Some(Fault {
            line: 12,
            what: Follows,
        }),
    ),
    // a receipt of the packet behind the next
    (
        [
            HEAD,
            CALLS,
            "d0 load 0 0\n\
                d1 load 2 0\n\
                i0 bind 0 -> sent 0.1 1 0 1 0 1\n\
                i1 receive 0 2 -> nothing\n",
            LAST,
            TAIL,
        ],
        Some(Fault {
            line: 13,
            what: Follows,
        }),
    ),
    // a call of the thread, and not its next one
    (
        [HEAD, "t0 map 0 0 2 20 2 -> ok\n", FIRST, LAST, TAIL],
        Some(Fault {
            line: 3,
            what: Follows,
        }),
    ),
    // a thread that isn't declared
    (
        [HEAD, "t3 poll 0 -> empty\n", FIRST, LAST, TAIL],
        Some(Fault {
            line: 3,
            what: Follows,
        }),
    ),
    // a call of nobody that is no poll
    (
        [HEAD, "x close 0 -> ok\n", FIRST, LAST, TAIL],
        Some(Fault {
            line: 3,
            what: Follows,
        }),
    ),
    // a node that there isn't
    (
        [HEAD, CALLS, "d2 load 0 0\n", LAST, TAIL],
        Some(Fault {
            line: 10,
            what: Follows,
        }),
    ),
    // a bind of an endpoint that is in no frame
    (
        [HEAD, CALLS, "i0 bind 0 -> sent 0.1 1 0 1 0 1\n", LAST, TAIL],
        Some(Fault {
            line: 10,
            what: NotEnabled(Condition::NotResident),
        }),
    ),
    // a packet that has another number
    (
        [
            HEAD,
            CALLS,
            "d0 load 0 0\n\
                d1 load 2 0\n\
                i0 bind 0 -> sent 0.1 1 0 1 0 2\n",
            LAST,
            TAIL,
        ],
        Some(Fault {
            line: 12,
            what: Outcome,
        }),
    ),
    (
        [HEAD, CALLS, "d0  load 0 0\n", LAST, TAIL],
        Some(Fault {
            line: 10,
            what: Form,
        }),
    ),
    // a poll of another endpoint in place of the last: what was received is not run
    (
        [HEAD, CALLS, FIRST, "x poll 0 -> empty\n", TAIL],
        Some(Fault {
            line: 32,
            what: Follows,
        }),
    ),
    (
        [
            HEAD,
            CALLS,
            FIRST,
            "x poll 1 -> ran 2.2 4\nendpoint 0 runs 2\n",
            TAIL,
        ],
        Some(Fault {
            line: 32,
            what: Tail,
        }),
    ),
    // a call is left
    (
        [
            "t0 poll 0\nam2 report 1\nentries 29\n",
            CALLS,
            FIRST,
            LAST,
            TAIL,
        ],
        Some(Fault {
            line: 32,
            what: Follows,
        }),
    ),
];

/// Three endpoints in two frames: a message that is refused is returned.
const FRAMES: &str = "am2 1\n\
    network packet\n\
    nodes 1\n\
    frames 2\n\
    keep 0\n\
    endpoint 0 0 5\n\
    endpoint 1 0 7\n\
    endpoint 2 0 9\n\
    thread 0 0\n\
    t0 map 0 0 1 7 1\n\
    t0 map 0 1 2 9 1\n\
    t0 request 0 0 1 1 0 0 0\n\
    t0 request 0 1 1 2 0 0 0\n\
    am2 report 1\n\
    entries 18\n\
    t0 map 0 0 1 7 1 -> ok\n\
    t0 map 0 1 2 9 1 -> ok\n\
    t0 request 0 0 1 1 0 0 0 -> ok 0.1\n\
    d0 load 0 0\n\
    d0 load 1 1\n\
    i0 bind 0 -> sent 0.1 0 0 1 0 1\n\
    i0 receive 0 1 -> refused 0.1 bad-handler answer 2\n\
    i0 receive 0 2 -> returned 0.1 bad-handler\n\
    t0 request 0 1 1 2 0 0 0 -> ok 0.2\n\
    d0 drain 1\n\
    d0 unload 1\n\
    d0 pageout 1 -> ok\n\
    d0 load 2 1\n\
    i0 bind 0 -> sent 0.2 0 0 2 0 3\n\
    i0 receive 0 3 -> refused 0.2 bad-handler answer 4\n\
    i0 receive 0 4 -> returned 0.2 bad-handler\n\
    x poll 0 -> zero 0.1 bad-handler\n\
    x poll 0 -> zero 0.2 bad-handler\n\
    endpoint 0 runs 2\n\
    zero 0.1 bad-handler\n\
    zero 0.2 bad-handler\n\
    endpoint 1 runs 0\n\
    endpoint 2 runs 0\n\
    messages 2\n\
    fate 0.1 request returned bad-handler\n\
    fate 0.2 request returned bad-handler\n\
    totals ran 0 returned 2 unknown 0 unknown-but-ran 0 pending 0\n";

/// Two tries: what the plan of the links loses.
const TRIES: &str = "am2 1\n\
    network packet\n\
    nodes 1\n\
    tries 2\n";

const ENDS: &str = "endpoint 0 0 5\n\
    endpoint 1 0 7\n\
    thread 0 0\n";

const LOSSES: &str = "plan 0 0 1 lose\nplan 0 0 3 lose\n";

/// The script, the report up to the bind, and what comes of it where the first packet and the answer are lost.
const TRIED: &str = "t0 handler 1 1 note\n\
    t0 map 0 0 1 7 1\n\
    t0 request 0 0 1 9 0 0 0\n\
    t0 poll 1\n\
    am2 report 1\n\
    entries 15\n\
    t0 handler 1 1 note -> ok\n\
    t0 map 0 0 1 7 1 -> ok\n\
    t0 request 0 0 1 9 0 0 0 -> ok 0.1\n\
    d0 load 0 0\n\
    d0 load 1 1\n\
    i0 bind 0 -> sent 0.1 0 0 1 0 1\n";

const LOST: &str = "i0 expire 0 0 -> sent 0.1 0 0 1 1 2\n\
    i0 receive 0 2 -> accepted 0.1 answer 3\n\
    i0 expire 0 0 -> unknown 0.1\n\
    t0 poll 1 -> ran 0.1 1 sends 1.1\n\
    i0 bind 1 -> sent 1.1 0 0 2 0 4\n\
    i0 receive 0 4 -> refused 1.1 no-request answer 5\n\
    i0 receive 0 5 -> returned 1.1 no-request\n\
    x poll 0 -> zero 0.1 unknown\n\
    x poll 1 -> zero 1.1 no-request\n\
    endpoint 0 runs 1\n\
    zero 0.1 unknown\n\
    endpoint 1 runs 2\n\
    run 0.1 1 9 0 0 0\n\
    zero 1.1 no-request\n\
    messages 2\n\
    fate 0.1 request unknown-but-ran\n\
    fate 1.1 empty returned no-request\n\
    totals ran 0 returned 1 unknown 0 unknown-but-ran 1 pending 0\n";

/// The same with logs that take so many entries.
const ONE_ENTRY: &str = "am2 1\n\
    network packet\n\
    nodes 1\n\
    tries 2\n\
    log 1\n";

const FOUR_ENTRIES: &str = "am2 1\n\
    network packet\n\
    nodes 1\n\
    tries 2\n\
    log 4\n";

/// Texts with nothing in front of them and nothing put between.
pub static TEXTS: [Row; 5] = [
    ([FRAMES, "", "", "", ""], None),
    ([TRIES, ENDS, LOSSES, TRIED, LOST], None),
    // a released packet waits, and the last try goes out
    (
        [TRIES, ENDS, TRIED, LOST, ""],
        Some(Fault {
            line: 9,
            what: Follows,
        }),
    ),
    // a log is full; and a binding would end too early, which comes before a full log
    (
        [ONE_ENTRY, ENDS, LOSSES, TRIED, LOST],
        Some(LogFull(Part::Endpoint(EndpointId(0)))),
    ),
    (
        [
            FOUR_ENTRIES,
            ENDS,
            "plan 0 0 1 lose\n",
            TRIED,
            "i0 expire 0 0 -> sent 0.1 0 0 1 1 2\ni0 expire 0 0 -> unknown 0.1\n",
        ],
        Some(Fault {
            line: 10,
            what: Follows,
        }),
    ),
];

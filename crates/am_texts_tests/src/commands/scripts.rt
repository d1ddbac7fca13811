//! Scenarios with the scripts of threads, and what is printed of their runs. They stand in parts, so that what several
//! of them begin with is said once.
use crate::commands::tables::Row;

pub const VERSION: &str = "am2 1\n";

/// Two clients and a server.
pub const CLIENTS: &str = "network packet\n\
    nodes 2\n\
    frames 2\n\
    channels 2\n\
    endpoint 0 0 11\n\
    endpoint 1 0 12\n\
    endpoint 2 1 20\n\
    thread 0 0\n\
    thread 1 0\n\
    thread 2 1\n";

const BUNDLED: &str = "bundle 0 notempty 2\n";

/// The link to the server loses one packet.
pub const ONE_LOST: &str = "plan 0 1 2 lose\n";

/// Two requests, and their replies.
pub const ASKING: &str = "t0 handler 0 4 note\n\
    t0 map 0 0 2 20 2\n\
    t0 request 0 0 3 100 0 0 0\n\
    t0 poll 0\n\
    t1 handler 1 4 note\n\
    t1 map 1 0 2 20 2\n\
    t1 request 1 0 3 23 0 0 0\n\
    t1 poll 1\n\
    t2 handler 2 3 add 4\n";

pub const POLLS: &str = "t2 poll 2\n\
    t2 poll 2\n\
    t2 poll 2\n";

const ANSWERED_TOLD: &str = "t0 handler 0 4 note -> ok\n\
    t1 handler 1 4 note -> ok\n\
    t2 handler 2 3 add 4 -> ok\n\
    t0 map 0 0 2 20 2 -> ok\n\
    t1 map 1 0 2 20 2 -> ok\n\
    t2 poll 2 -> empty\n\
    t0 request 0 0 3 100 0 0 0 -> ok 0.1\n\
    d0 load 0 0\n\
    d1 load 2 0\n\
    i0 bind 0 -> sent 0.1 1 0 1 0 1\n\
    i1 receive 0 1 -> accepted 0.1 answer 1\n\
    i0 receive 1 1 -> delivered 0.1\n\
    t1 request 1 0 3 23 0 0 0 -> ok 1.1\n\
    d0 load 1 1\n\
    i0 bind 1 -> sent 1.1 1 0 2 0 2\n\
    i0 expire 1 0 -> sent 1.1 1 0 2 1 3\n\
    i1 receive 0 3 -> accepted 1.1 answer 2\n\
    i0 receive 1 2 -> delivered 1.1\n\
    t2 poll 2 -> ran 0.1 3 sends 2.1\n\
    i1 bind 2 -> sent 2.1 0 0 1 0 3\n\
    i0 receive 1 3 -> accepted 2.1 answer 4\n\
    i1 receive 0 4 -> delivered 2.1\n\
    t0 poll 0 -> ran 2.1 4\n\
    t1 poll 1 -> empty\n\
    t2 poll 2 -> ran 1.1 3 sends 2.2\n\
    i1 bind 2 -> sent 2.2 0 0 2 0 4\n\
    i0 receive 1 4 -> accepted 2.2 answer 5\n\
    i1 receive 0 5 -> delivered 2.2\n";

const LAST_TOLD: &str = "x poll 1 -> ran 2.2 4\n\
    endpoint 0 runs 1\n\
    run 2.1 4 100 0 0 0\n\
    endpoint 1 runs 1\n\
    run 2.2 4 123 0 0 0\n\
    endpoint 2 runs 2\n\
    run 0.1 3 100 0 0 0\n\
    run 1.1 3 23 0 0 0\n\
    messages 4\n\
    fate 0.1 request ran\n\
    fate 1.1 request ran\n\
    fate 2.1 reply ran\n\
    fate 2.2 reply ran\n\
    totals ran 4 returned 0 unknown 0 unknown-but-ran 0 pending 0\n";

/// Three endpoints and two frames: one goes to disk.
const TWO_FRAMES: &str = "am2 1\n\
    network packet\n\
    nodes 1\n\
    frames 2\n\
    keep 0\n\
    endpoint 0 0 5\n\
    endpoint 1 0 7\n\
    endpoint 2 0 9\n";

const TWO_REQUESTS: &str = "thread 0 0\n\
    t0 map 0 0 1 7 1\n\
    t0 map 0 1 2 9 1\n\
    t0 request 0 0 1 1 0 0 0\n\
    t0 request 0 1 1 2 0 0 0\n";

const FRONT_TOLD: &str = "t0 map 0 0 1 7 1 -> ok\n\
    t0 map 0 1 2 9 1 -> ok\n\
    t0 request 0 0 1 1 0 0 0 -> ok 0.1\n\
    d0 load 0 0\n\
    d0 load 1 1\n\
    i0 bind 0 -> sent 0.1 0 0 1 0 1\n\
    i0 receive 0 1 -> refused 0.1 bad-handler answer 2\n\
    i0 receive 0 2 -> returned 0.1 bad-handler\n\
    t0 request 0 1 1 2 0 0 0 -> ok 0.2\n\
    d0 drain 1\n\
    d0 unload 1\n";

const BEHIND_TOLD: &str = "d0 load 2 1\n\
    i0 bind 0 -> sent 0.2 0 0 2 0 3\n\
    i0 receive 0 3 -> refused 0.2 bad-handler answer 4\n\
    i0 receive 0 4 -> returned 0.2 bad-handler\n\
    x poll 0 -> zero 0.1 bad-handler\n\
    x poll 0 -> zero 0.2 bad-handler\n\
    endpoint 0 runs 2\n\
    zero 0.1 bad-handler\n\
    zero 0.2 bad-handler\n\
    endpoint 1 runs 0\n\
    endpoint 2 runs 0\n\
    messages 2\n\
    fate 0.1 request returned bad-handler\n\
    fate 0.2 request returned bad-handler\n\
    totals ran 0 returned 2 unknown 0 unknown-but-ran 0 pending 0\n";

/// A request with two tries.
const TWO_TRIES: &str = "am2 1\n\
    network packet\n\
    nodes 1\n\
    tries 2\n";

const ENDS: &str = "endpoint 0 0 5\n\
    endpoint 1 0 7\n\
    thread 0 0\n";

const ONE_REQUEST: &str = "t0 handler 1 1 note\n\
    t0 map 0 0 1 7 1\n\
    t0 request 0 0 1 9 0 0 0\n";

const ASKED_TOLD: &str = "t0 handler 1 1 note -> ok\n\
    t0 map 0 0 1 7 1 -> ok\n\
    t0 request 0 0 1 9 0 0 0 -> ok 0.1\n";

const TRIED_TOLD: &str = "d0 load 0 0\n\
    d0 load 1 1\n\
    i0 bind 0 -> sent 0.1 0 0 1 0 1\n\
    i0 expire 0 0 -> sent 0.1 0 0 1 1 2\n";

const BOTH_LOST: &str = "plan 0 0 1 lose\nplan 0 0 2 lose\n";

const UNKNOWN_BUT_RAN_TOLD: &str = "i0 receive 0 2 -> accepted 0.1 answer 3\n\
    i0 expire 0 0 -> unknown 0.1\n\
    t0 poll 1 -> ran 0.1 1 sends 1.1\n\
    i0 bind 1 -> sent 1.1 0 0 2 0 4\n\
    i0 receive 0 4 -> refused 1.1 no-request answer 5\n\
    i0 receive 0 5 -> returned 1.1 no-request\n\
    x poll 0 -> zero 0.1 unknown\n\
    x poll 1 -> zero 1.1 no-request\n\
    endpoint 0 runs 1\n\
    zero 0.1 unknown\n\
    endpoint 1 runs 2\n\
    run 0.1 1 9 0 0 0\n\
    zero 1.1 no-request\n\
    messages 2\n\
    fate 0.1 request unknown-but-ran\n\
    fate 1.1 empty returned no-request\n\
    totals ran 0 returned 1 unknown 0 unknown-but-ran 1 pending 0\n";

const UNKNOWN_TOLD: &str = "i0 expire 0 0 -> unknown 0.1\n\
    x poll 0 -> zero 0.1 unknown\n\
    endpoint 0 runs 1\n\
    zero 0.1 unknown\n\
    endpoint 1 runs 0\n\
    messages 1\n\
    fate 0.1 request unknown\n\
    totals ran 0 returned 0 unknown 1 unknown-but-ran 0 pending 0\n";

const PENDING_TOLD: &str = "endpoint 0 runs 0\n\
    endpoint 1 runs 0\n\
    messages 1\n\
    fate 0.1 request pending\n\
    totals ran 0 returned 0 unknown 0 unknown-but-ran 0 pending 1\n";

/// Under `run`.
pub static RUNS: [Row; 10] = [
    (
        &[VERSION, CLIENTS, ONE_LOST, ASKING, POLLS],
        0,
        &["am2 report 1\nentries 29\n", ANSWERED_TOLD, LAST_TOLD],
    ),
    (
        &[
            VERSION,
            CLIENTS,
            BUNDLED,
            ONE_LOST,
            ASKING,
            "t2 pollb 0\n\
            t2 pollb 0\n\
            t2 pollb 0\n",
        ],
        0,
        &["am2 report 1\nentries 29\n", ANSWERED_TOLD, LAST_TOLD],
    ),
    (
        &[
            VERSION,
            CLIENTS,
            BUNDLED,
            ONE_LOST,
            ASKING,
            POLLS,
            "t2 eventb 0\n",
        ],
        0,
        &[
            "am2 report 1\nentries 30\n",
            ANSWERED_TOLD,
            "t2 event 2 notempty -> quiet\n",
            LAST_TOLD,
        ],
    ),
    (
        &[TWO_FRAMES, TWO_REQUESTS],
        0,
        &[
            "am2 report 1\nentries 18\n",
            FRONT_TOLD,
            "d0 pageout 1 -> ok\n",
            BEHIND_TOLD,
        ],
    ),
    (
        &[TWO_FRAMES, "swapfault 0 1\n", TWO_REQUESTS],
        0,
        &[
            "am2 report 1\nentries 18\n",
            FRONT_TOLD,
            "d0 pageout 1 -> failed\n",
            BEHIND_TOLD,
        ],
    ),
    (
        &[
            TWO_TRIES,
            ENDS,
            "plan 0 0 1 lose\nplan 0 0 3 lose\n",
            ONE_REQUEST,
            "t0 poll 1\n",
        ],
        0,
        &[
            "am2 report 1\nentries 15\n",
            ASKED_TOLD,
            TRIED_TOLD,
            UNKNOWN_BUT_RAN_TOLD,
        ],
    ),
    (
        &[TWO_TRIES, ENDS, BOTH_LOST, ONE_REQUEST],
        0,
        &[
            "am2 report 1\nentries 9\n",
            ASKED_TOLD,
            TRIED_TOLD,
            UNKNOWN_TOLD,
        ],
    ),
    (
        &[TWO_TRIES, "log 2\n", ENDS, BOTH_LOST, ONE_REQUEST],
        6,
        &[
            "log full e0\n\
            am2 report 1\n\
            entries 3\n",
            ASKED_TOLD,
            PENDING_TOLD,
        ],
    ),
    (
        &[
            "am2 1\n\
            network direct\n\
            nodes 1\n",
        ],
        3,
        &["refused line 2 out-of-range\n"],
    ),
    (&[], 3, &["refused line 1 missing\n"]),
];

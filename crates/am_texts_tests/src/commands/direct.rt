//! Step scripts on the direct network, each with its status and what is printed. They stand in parts, so that what
//! several of them begin with is said once.
use crate::commands::tables::{PATH, PATH_REPORT, Row};

/// One endpoint.
const ONE: &str = "am2 1\n\
    network direct\n\
    nodes 1\n\
    endpoint 0 0 5\n";

/// Two endpoints, whose tags match what the first one is mapped to.
const PAIR: &str = "am2 1\n\
    network direct\n\
    nodes 1\n\
    endpoint 0 0 5\n\
    endpoint 1 0 7\n";

/// The same, and nothing bounces.
const NO_BOUNCES: &str = "am2 1\n\
    network direct\n\
    nodes 1\n\
    bounces 0\n\
    endpoint 0 0 5\n\
    endpoint 1 0 7\n";

/// Logs of three entries.
const SHORT_LOG: &str = "am2 1\n\
    network direct\n\
    nodes 1\n\
    log 3\n\
    endpoint 0 0 5\n";

const THREE_POLLS: &str = "x poll 0\n\
    x poll 0\n\
    x poll 0\n";

const ECHO: &str = "x handler 1 2 echo 3\n\
    x handler 0 3 note\n\
    x map 0 0 1 7 1\n\
    x request 0 0 2 1 2 3 4\n\
    x request 0 0 2 1 2 3 4\n\
    x carry 0\n\
    x poll 1\n\
    x carry 1\n\
    x poll 0\n\
    x request 0 0 2 5 6 7 8\n";

const ECHO_REPORT: &str = "am2 report 1\n\
    entries 10\n\
    x handler 1 2 echo 3 -> ok\n\
    x handler 0 3 note -> ok\n\
    x map 0 0 1 7 1 -> ok\n\
    x request 0 0 2 1 2 3 4 -> ok 0.1\n\
    x request 0 0 2 1 2 3 4 -> refused no-credit\n\
    x carry 0 -> accepted 0.1\n\
    x poll 1 -> ran 0.1 2 sends 1.1\n\
    x carry 1 -> accepted 1.1\n\
    x poll 0 -> ran 1.1 3\n\
    x request 0 0 2 5 6 7 8 -> ok 0.2\n\
    endpoint 0 runs 1\n\
    run 1.1 3 1 2 3 4\n\
    endpoint 1 runs 1\n\
    run 0.1 2 1 2 3 4\n\
    messages 3\n\
    fate 0.1 request ran\n\
    fate 0.2 request pending\n\
    fate 1.1 reply ran\n\
    totals ran 2 returned 0 unknown 0 unknown-but-ran 0 pending 1\n";

const INDEXES: &str = "x handler 1 16 note\n\
    x handler 1 0 note\n\
    x map 0 0 1 7 1\n\
    x request 0 16 1 0 0 0 0\n\
    x request 0 15 1 0 0 0 0\n\
    x request 0 0 15 0 0 0 0\n\
    x carry 0\n";

const INDEXES_REPORT: &str = "am2 report 1\n\
    entries 7\n\
    x handler 1 16 note -> refused bad-index\n\
    x handler 1 0 note -> refused reserved\n\
    x map 0 0 1 7 1 -> ok\n\
    x request 0 16 1 0 0 0 0 -> refused bad-index\n\
    x request 0 15 1 0 0 0 0 -> refused not-mapped\n\
    x request 0 0 15 0 0 0 0 -> ok 0.1\n\
    x carry 0 -> returned 0.1 bad-handler\n\
    endpoint 0 runs 0\n\
    endpoint 1 runs 0\n\
    messages 1\n\
    fate 0.1 request returned bad-handler\n\
    totals ran 0 returned 1 unknown 0 unknown-but-ran 0 pending 0\n";

const GIVING_UP: &str = "x handler 1 1 note\n\
    x map 0 0 1 7 1\n\
    x request 0 0 1 10 20 30 40\n\
    x carry 0\n\
    x giveup 0 0.1\n\
    x poll 1\n\
    x carry 1\n\
    x poll 1\n\
    x giveup 0 0.1\n";

const GIVING_UP_REPORT: &str = "am2 report 1\n\
    entries 9\n\
    x handler 1 1 note -> ok\n\
    x map 0 0 1 7 1 -> ok\n\
    x request 0 0 1 10 20 30 40 -> ok 0.1\n\
    x carry 0 -> accepted 0.1\n\
    x giveup 0 0.1 -> ok\n\
    x poll 1 -> ran 0.1 1 sends 1.1\n\
    x carry 1 -> returned 1.1 no-request\n\
    x poll 1 -> zero 1.1 no-request\n\
    x giveup 0 0.1 -> refused no-request\n\
    endpoint 0 runs 0\n\
    endpoint 1 runs 2\n\
    run 0.1 1 10 20 30 40\n\
    zero 1.1 no-request\n\
    messages 2\n\
    fate 0.1 request ran\n\
    fate 1.1 empty returned no-request\n\
    totals ran 1 returned 1 unknown 0 unknown-but-ran 0 pending 0\n";

const TAGS: &str = "am2 1\n\
    network direct\n\
    nodes 1\n\
    endpoint 0 0 5\n\
    endpoint 1 0 8\n\
    x handler 1 1 note\n\
    x map 0 0 1 7 4\n\
    x request 0 0 1 1 0 0 0\n\
    x carry 0\n\
    x poll 0\n\
    x tag 1 all\n\
    x request 0 0 1 2 0 0 0\n\
    x carry 0\n\
    x tag 1 none\n\
    x poll 1\n\
    x carry 1\n\
    x poll 0\n\
    x tag 1 none\n\
    x request 0 0 1 3 0 0 0\n\
    x carry 0\n\
    x poll 0\n\
    x tag 0 none\n\
    x request 0 0 1 4 0 0 0\n\
    x close 0\n\
    x request 0 0 1 4 0 0 0\n\
    x poll 0\n";

const TAGS_REPORT: &str = "am2 report 1\n\
    entries 21\n\
    x handler 1 1 note -> ok\n\
    x map 0 0 1 7 4 -> ok\n\
    x request 0 0 1 1 0 0 0 -> ok 0.1\n\
    x carry 0 -> returned 0.1 bad-tag\n\
    x poll 0 -> zero 0.1 bad-tag\n\
    x tag 1 all -> ok\n\
    x request 0 0 1 2 0 0 0 -> ok 0.2\n\
    x carry 0 -> accepted 0.2\n\
    x tag 1 none -> refused in-use 1 0 0\n\
    x poll 1 -> ran 0.2 1 sends 1.1\n\
    x carry 1 -> accepted 1.1\n\
    x poll 0 -> ran 1.1 -\n\
    x tag 1 none -> ok\n\
    x request 0 0 1 3 0 0 0 -> ok 0.3\n\
    x carry 0 -> returned 0.3 bad-tag\n\
    x poll 0 -> zero 0.3 bad-tag\n\
    x tag 0 none -> ok\n\
    x request 0 0 1 4 0 0 0 -> refused own-tag-none\n\
    x close 0 -> ok\n\
    x request 0 0 1 4 0 0 0 -> refused closed\n\
    x poll 0 -> empty\n\
    endpoint 0 runs 2\n\
    zero 0.1 bad-tag\n\
    zero 0.3 bad-tag\n\
    endpoint 1 runs 1\n\
    run 0.2 1 2 0 0 0\n\
    messages 4\n\
    fate 0.1 request returned bad-tag\n\
    fate 0.2 request ran\n\
    fate 0.3 request returned bad-tag\n\
    fate 1.1 empty ran\n\
    totals ran 2 returned 2 unknown 0 unknown-but-ran 0 pending 0\n";

/// Three indexes with eight credits each.
const THREE_INDEXES: &str = "x handler 1 1 note\n\
    x map 0 0 1 7 8\n\
    x map 0 1 1 7 8\n\
    x map 0 2 1 7 8\n";

/// Sixteen requests over two indexes, each carried.
const SIXTEEN: &str = "x request 0 0 1 0 0 0 0\n\
    x carry 0\n\
    x request 0 0 1 0 0 0 0\n\
    x carry 0\n\
    x request 0 0 1 0 0 0 0\n\
    x carry 0\n\
    x request 0 0 1 0 0 0 0\n\
    x carry 0\n\
    x request 0 0 1 0 0 0 0\n\
    x carry 0\n\
    x request 0 0 1 0 0 0 0\n\
    x carry 0\n\
    x request 0 0 1 0 0 0 0\n\
    x carry 0\n\
    x request 0 0 1 0 0 0 0\n\
    x carry 0\n\
    x request 0 1 1 0 0 0 0\n\
    x carry 0\n\
    x request 0 1 1 0 0 0 0\n\
    x carry 0\n\
    x request 0 1 1 0 0 0 0\n\
    x carry 0\n\
    x request 0 1 1 0 0 0 0\n\
    x carry 0\n\
    x request 0 1 1 0 0 0 0\n\
    x carry 0\n\
    x request 0 1 1 0 0 0 0\n\
    x carry 0\n\
    x request 0 1 1 0 0 0 0\n\
    x carry 0\n\
    x request 0 1 1 0 0 0 0\n\
    x carry 0\n";

const SEVENTEENTH: &str = "x request 0 2 1 0 0 0 0\nx carry 0\n";

const THREE_INDEXES_TOLD: &str = "x handler 1 1 note -> ok\n\
    x map 0 0 1 7 8 -> ok\n\
    x map 0 1 1 7 8 -> ok\n\
    x map 0 2 1 7 8 -> ok\n";

const SIXTEEN_TOLD: &str = "x request 0 0 1 0 0 0 0 -> ok 0.1\n\
    x carry 0 -> accepted 0.1\n\
    x request 0 0 1 0 0 0 0 -> ok 0.2\n\
    x carry 0 -> accepted 0.2\n\
    x request 0 0 1 0 0 0 0 -> ok 0.3\n\
    x carry 0 -> accepted 0.3\n\
    x request 0 0 1 0 0 0 0 -> ok 0.4\n\
    x carry 0 -> accepted 0.4\n\
    x request 0 0 1 0 0 0 0 -> ok 0.5\n\
    x carry 0 -> accepted 0.5\n\
    x request 0 0 1 0 0 0 0 -> ok 0.6\n\
    x carry 0 -> accepted 0.6\n\
    x request 0 0 1 0 0 0 0 -> ok 0.7\n\
    x carry 0 -> accepted 0.7\n\
    x request 0 0 1 0 0 0 0 -> ok 0.8\n\
    x carry 0 -> accepted 0.8\n\
    x request 0 1 1 0 0 0 0 -> ok 0.9\n\
    x carry 0 -> accepted 0.9\n\
    x request 0 1 1 0 0 0 0 -> ok 0.10\n\
    x carry 0 -> accepted 0.10\n\
    x request 0 1 1 0 0 0 0 -> ok 0.11\n\
    x carry 0 -> accepted 0.11\n\
    x request 0 1 1 0 0 0 0 -> ok 0.12\n\
    x carry 0 -> accepted 0.12\n\
    x request 0 1 1 0 0 0 0 -> ok 0.13\n\
    x carry 0 -> accepted 0.13\n\
    x request 0 1 1 0 0 0 0 -> ok 0.14\n\
    x carry 0 -> accepted 0.14\n\
    x request 0 1 1 0 0 0 0 -> ok 0.15\n\
    x carry 0 -> accepted 0.15\n\
    x request 0 1 1 0 0 0 0 -> ok 0.16\n\
    x carry 0 -> accepted 0.16\n";

const SIXTEEN_PENDING: &str = "fate 0.1 request pending\n\
    fate 0.2 request pending\n\
    fate 0.3 request pending\n\
    fate 0.4 request pending\n\
    fate 0.5 request pending\n\
    fate 0.6 request pending\n\
    fate 0.7 request pending\n\
    fate 0.8 request pending\n\
    fate 0.9 request pending\n\
    fate 0.10 request pending\n\
    fate 0.11 request pending\n\
    fate 0.12 request pending\n\
    fate 0.13 request pending\n\
    fate 0.14 request pending\n\
    fate 0.15 request pending\n\
    fate 0.16 request pending\n";

const SEVENTEENTH_TOLD: &str = "x request 0 2 1 0 0 0 0 -> ok 0.17\n";

/// The seventeenth is returned, and its handler runs.
const ONE_RETURNED: &str = "x carry 0 -> returned 0.17 queue-full\n\
    x poll 0 -> zero 0.17 queue-full\n\
    endpoint 0 runs 1\n\
    zero 0.17 queue-full\n\
    endpoint 1 runs 0\n\
    messages 17\n";

const ONE_RETURNED_TOTALS: &str = "fate 0.17 request returned queue-full\n\
    totals ran 0 returned 1 unknown 0 unknown-but-ran 0 pending 16\n";

const POOLS: &str = "am2 2\n\
    network direct\n\
    nodes 1\n\
    pool 2\n\
    endpoint 0 0 5\n\
    endpoint 1 0 7\n\
    x map 0 0 1 7 1\n\
    x map 0 1 1 7 0\n\
    x request 0 1 1 0 0 0 0\n\
    x request 0 1 1 0 0 0 0\n\
    x request 0 1 1 0 0 0 0\n\
    x request 0 0 1 0 0 0 0\n\
    x request 0 0 1 0 0 0 0\n\
    x map 0 2 1 7 8\n\
    x map 0 3 1 7 8\n\
    x map 0 4 1 7 8\n\
    x map 0 5 1 7 8\n\
    x map 0 5 1 7 5\n";

const POOLS_REPORT: &str = "am2 report 1\n\
    entries 12\n\
    x map 0 0 1 7 1 -> ok\n\
    x map 0 1 1 7 0 -> ok\n\
    x request 0 1 1 0 0 0 0 -> ok 0.1\n\
    x request 0 1 1 0 0 0 0 -> ok 0.2\n\
    x request 0 1 1 0 0 0 0 -> refused no-credit\n\
    x request 0 0 1 0 0 0 0 -> ok 0.3\n\
    x request 0 0 1 0 0 0 0 -> refused no-credit\n\
    x map 0 2 1 7 8 -> ok\n\
    x map 0 3 1 7 8 -> ok\n\
    x map 0 4 1 7 8 -> ok\n\
    x map 0 5 1 7 8 -> refused over-share 25\n\
    x map 0 5 1 7 5 -> ok\n\
    endpoint 0 runs 0\n\
    endpoint 1 runs 0\n\
    messages 3\n\
    fate 0.1 request pending\n\
    fate 0.2 request pending\n\
    fate 0.3 request pending\n\
    totals ran 0 returned 0 unknown 0 unknown-but-ran 0 pending 3\n";

/// Five indexes of two endpoints.
const FIVE_INDEXES: &str = "am2 1\n\
    network direct\n\
    nodes 1\n\
    endpoint 0 0 5\n\
    endpoint 1 0 7\n\
    endpoint 2 0 9\n\
    x handler 1 1 note\n\
    x handler 2 1 note\n\
    x map 0 0 1 7 8\n\
    x map 0 1 1 7 8\n\
    x map 0 2 2 9 8\n\
    x map 0 3 2 9 8\n\
    x map 0 4 1 7 8\n";

const SIXTEEN_MORE: &str = "x request 0 2 1 0 0 0 0\n\
    x carry 0\n\
    x request 0 2 1 0 0 0 0\n\
    x carry 0\n\
    x request 0 2 1 0 0 0 0\n\
    x carry 0\n\
    x request 0 2 1 0 0 0 0\n\
    x carry 0\n\
    x request 0 2 1 0 0 0 0\n\
    x carry 0\n\
    x request 0 2 1 0 0 0 0\n\
    x carry 0\n\
    x request 0 2 1 0 0 0 0\n\
    x carry 0\n\
    x request 0 2 1 0 0 0 0\n\
    x carry 0\n\
    x request 0 3 1 0 0 0 0\n\
    x carry 0\n\
    x request 0 3 1 0 0 0 0\n\
    x carry 0\n\
    x request 0 3 1 0 0 0 0\n\
    x carry 0\n\
    x request 0 3 1 0 0 0 0\n\
    x carry 0\n\
    x request 0 3 1 0 0 0 0\n\
    x carry 0\n\
    x request 0 3 1 0 0 0 0\n\
    x carry 0\n\
    x request 0 3 1 0 0 0 0\n\
    x carry 0\n\
    x request 0 3 1 0 0 0 0\n\
    x carry 0\n";

const TABLE_IS_FULL: &str = "x request 0 4 1 0 0 0 0\n\
    x request 0 0 1 0 0 0 0\n\
    x unmap 0 0\n\
    x unmap 0 4\n\
    x unmap 0 4\n\
    x map 0 16 1 7 1\n";

const FIVE_INDEXES_TOLD: &str = "x handler 1 1 note -> ok\n\
    x handler 2 1 note -> ok\n\
    x map 0 0 1 7 8 -> ok\n\
    x map 0 1 1 7 8 -> ok\n\
    x map 0 2 2 9 8 -> ok\n\
    x map 0 3 2 9 8 -> ok\n\
    x map 0 4 1 7 8 -> ok\n";

const SIXTEEN_MORE_TOLD: &str = "x request 0 2 1 0 0 0 0 -> ok 0.17\n\
    x carry 0 -> accepted 0.17\n\
    x request 0 2 1 0 0 0 0 -> ok 0.18\n\
    x carry 0 -> accepted 0.18\n\
    x request 0 2 1 0 0 0 0 -> ok 0.19\n\
    x carry 0 -> accepted 0.19\n\
    x request 0 2 1 0 0 0 0 -> ok 0.20\n\
    x carry 0 -> accepted 0.20\n\
    x request 0 2 1 0 0 0 0 -> ok 0.21\n\
    x carry 0 -> accepted 0.21\n\
    x request 0 2 1 0 0 0 0 -> ok 0.22\n\
    x carry 0 -> accepted 0.22\n\
    x request 0 2 1 0 0 0 0 -> ok 0.23\n\
    x carry 0 -> accepted 0.23\n\
    x request 0 2 1 0 0 0 0 -> ok 0.24\n\
    x carry 0 -> accepted 0.24\n\
    x request 0 3 1 0 0 0 0 -> ok 0.25\n\
    x carry 0 -> accepted 0.25\n\
    x request 0 3 1 0 0 0 0 -> ok 0.26\n\
    x carry 0 -> accepted 0.26\n\
    x request 0 3 1 0 0 0 0 -> ok 0.27\n\
    x carry 0 -> accepted 0.27\n\
    x request 0 3 1 0 0 0 0 -> ok 0.28\n\
    x carry 0 -> accepted 0.28\n\
    x request 0 3 1 0 0 0 0 -> ok 0.29\n\
    x carry 0 -> accepted 0.29\n\
    x request 0 3 1 0 0 0 0 -> ok 0.30\n\
    x carry 0 -> accepted 0.30\n\
    x request 0 3 1 0 0 0 0 -> ok 0.31\n\
    x carry 0 -> accepted 0.31\n\
    x request 0 3 1 0 0 0 0 -> ok 0.32\n\
    x carry 0 -> accepted 0.32\n";

const TABLE_IS_FULL_TOLD: &str = "x request 0 4 1 0 0 0 0 -> refused table-full\n\
    x request 0 0 1 0 0 0 0 -> refused no-credit\n\
    x unmap 0 0 -> refused outstanding 8\n\
    x unmap 0 4 -> ok\n\
    x unmap 0 4 -> refused not-mapped\n\
    x map 0 16 1 7 1 -> refused bad-index\n\
    endpoint 0 runs 0\n\
    endpoint 1 runs 0\n\
    endpoint 2 runs 0\n\
    messages 32\n";

const THIRTY_TWO_TOTALS: &str = "fate 0.17 request pending\n\
    fate 0.18 request pending\n\
    fate 0.19 request pending\n\
    fate 0.20 request pending\n\
    fate 0.21 request pending\n\
    fate 0.22 request pending\n\
    fate 0.23 request pending\n\
    fate 0.24 request pending\n\
    fate 0.25 request pending\n\
    fate 0.26 request pending\n\
    fate 0.27 request pending\n\
    fate 0.28 request pending\n\
    fate 0.29 request pending\n\
    fate 0.30 request pending\n\
    fate 0.31 request pending\n\
    fate 0.32 request pending\n\
    totals ran 0 returned 0 unknown 0 unknown-but-ran 0 pending 32\n";

const NOTHING_RAN: &str = "endpoint 0 runs 0\n\
    messages 0\n\
    totals ran 0 returned 0 unknown 0 unknown-but-ran 0 pending 0\n";

const THREE_BOUNCES: &str = "x carry 0 -> requeued 0.17 queue-full\n\
    x carry 0 -> requeued 0.17 queue-full\n\
    x carry 0 -> requeued 0.17 queue-full\n";

/// Under `step`.
pub static DIRECT: [Row; 13] = [
    (&[ONE], 0, &["am2 report 1\nentries 0\n", NOTHING_RAN]),
    (&[PATH], 0, &[PATH_REPORT]),
    (
        &[SHORT_LOG, THREE_POLLS, "x poll 0\n"],
        6,
        &["log full e0\n"],
    ),
    (&[PAIR, ECHO], 0, &[ECHO_REPORT]),
    (&[TAGS], 0, &[TAGS_REPORT]),
    (&[PAIR, INDEXES], 0, &[INDEXES_REPORT]),
    (&[PAIR, GIVING_UP], 0, &[GIVING_UP_REPORT]),
    (&[POOLS], 0, &[POOLS_REPORT]),
    (
        &[SHORT_LOG, THREE_POLLS],
        0,
        &[
            "am2 report 1\n\
            entries 3\n\
            x poll 0 -> empty\n\
            x poll 0 -> empty\n\
            x poll 0 -> empty\n",
            NOTHING_RAN,
        ],
    ),
    (
        &[ONE, "x carry 0\n"],
        3,
        &["refused line 5 not-enabled no-message\n"],
    ),
    (
        &[ONE, "x want 0\n"],
        3,
        &["refused line 5 not-enabled not-on-disk\n"],
    ),
    (
        &[ONE, "i0 bind 0\n"],
        3,
        &["refused line 5 not-enabled not-packet\n"],
    ),
    (
        &[ONE, "x poll 0\nd0 load 0 0\n"],
        3,
        &["refused line 6 not-enabled not-packet\n"],
    ),
];

/// Under `step`: queues and tables that are full.
pub static QUEUES: [Row; 4] = [
    (
        &[
            PAIR,
            THREE_INDEXES,
            SIXTEEN,
            SEVENTEENTH,
            "x carry 0\n\
            x carry 0\n\
            x carry 0\n\
            x poll 0\n",
        ],
        0,
        &[
            "am2 report 1\nentries 42\n",
            THREE_INDEXES_TOLD,
            SIXTEEN_TOLD,
            SEVENTEENTH_TOLD,
            THREE_BOUNCES,
            ONE_RETURNED,
            SIXTEEN_PENDING,
            ONE_RETURNED_TOTALS,
        ],
    ),
    (
        &[
            NO_BOUNCES,
            THREE_INDEXES,
            SIXTEEN,
            SEVENTEENTH,
            "x poll 0\n",
        ],
        0,
        &[
            "am2 report 1\nentries 39\n",
            THREE_INDEXES_TOLD,
            SIXTEEN_TOLD,
            SEVENTEENTH_TOLD,
            ONE_RETURNED,
            SIXTEEN_PENDING,
            ONE_RETURNED_TOTALS,
        ],
    ),
    (
        &[FIVE_INDEXES, SIXTEEN, SIXTEEN_MORE, TABLE_IS_FULL],
        0,
        &[
            "am2 report 1\nentries 77\n",
            FIVE_INDEXES_TOLD,
            SIXTEEN_TOLD,
            SIXTEEN_MORE_TOLD,
            TABLE_IS_FULL_TOLD,
            SIXTEEN_PENDING,
            THIRTY_TWO_TOTALS,
        ],
    ),
    (
        &[
            NO_BOUNCES,
            THREE_INDEXES,
            SIXTEEN,
            SEVENTEENTH,
            "x carry 0\n",
        ],
        3,
        &["refused line 45 not-enabled no-message\n"],
    ),
];

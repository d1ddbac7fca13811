//! Step scripts on the packet network, each with its status and what is printed. They stand in parts, so that what
//! several of them begin with is said once.
use crate::commands::tables::Row;

/// Two nodes.
const THREE_TRIES: &str = "am2 1\n\
    network packet\n\
    nodes 2\n\
    tries 3\n";

const TWO_TRIES: &str = "am2 1\n\
    network packet\n\
    nodes 2\n\
    tries 2\n";

/// An endpoint on each; and such of which the second has another tag than the first is mapped to.
const ENDS: &str = "endpoint 0 0 5\nendpoint 1 1 7\n";

const OTHER_TAG: &str = "endpoint 0 0 5\nendpoint 1 1 8\n";

/// A request is bound.
const BOUND: &str = "x handler 1 1 note\n\
    x map 0 0 1 7 4\n\
    d0 load 0 0\n\
    d1 load 1 0\n\
    x request 0 0 1 9 0 0 0\n\
    i0 bind 0\n";

const BOUND_TOLD: &str = "x handler 1 1 note -> ok\n\
    x map 0 0 1 7 4 -> ok\n\
    d0 load 0 0\n\
    d1 load 1 0\n\
    x request 0 0 1 9 0 0 0 -> ok 0.1\n\
    i0 bind 0 -> sent 0.1 1 0 1 0 1\n";

const LOST_ACKNOWLEDGEMENT: &str = "i1 receive 0 1\n\
    i0 expire 1 0\n\
    i1 receive 0 2\n\
    i0 receive 1 2\n\
    x poll 1\n\
    i0 receive 1 1\n";

const LOST_ACKNOWLEDGEMENT_TOLD: &str = "i1 receive 0 1 -> accepted 0.1 answer 1\n\
    i0 expire 1 0 -> sent 0.1 1 0 1 1 2\n\
    i1 receive 0 2 -> again 0.1 accepted answer 2\n\
    i0 receive 1 2 -> delivered 0.1\n\
    x poll 1 -> ran 0.1 1 sends 1.1\n\
    i0 receive 1 1 -> nothing\n\
    endpoint 0 runs 0\n\
    endpoint 1 runs 1\n\
    run 0.1 1 9 0 0 0\n\
    messages 2\n\
    fate 0.1 request ran\n\
    fate 1.1 empty pending\n\
    totals ran 1 returned 0 unknown 0 unknown-but-ran 0 pending 1\n";

const DELAYED_TRY: &str = "i0 expire 1 0\n\
    i1 receive 0 2\n\
    i0 receive 1 1\n\
    x tag 1 7\n\
    i1 receive 0 1\n\
    x poll 1\n\
    x poll 0\n";

const DELAYED_TRY_TOLD: &str = "i0 expire 1 0 -> sent 0.1 1 0 1 1 2\n\
    i1 receive 0 2 -> refused 0.1 bad-tag answer 1\n\
    i0 receive 1 1 -> returned 0.1 bad-tag\n\
    x tag 1 7 -> ok\n\
    i1 receive 0 1 -> stale\n\
    x poll 1 -> empty\n\
    x poll 0 -> zero 0.1 bad-tag\n\
    endpoint 0 runs 1\n\
    zero 0.1 bad-tag\n\
    endpoint 1 runs 0\n\
    messages 1\n\
    fate 0.1 request returned bad-tag\n\
    totals ran 0 returned 1 unknown 0 unknown-but-ran 0 pending 0\n";

const OLD_REFUSAL: &str = "i1 receive 0 1\n\
    x tag 1 7\n\
    i0 expire 1 0\n\
    i1 receive 0 2\n\
    i0 receive 1 1\n\
    x poll 1\n\
    i0 receive 1 2\n";

const OLD_REFUSAL_TOLD: &str = "i1 receive 0 1 -> refused 0.1 bad-tag answer 1\n\
    x tag 1 7 -> ok\n\
    i0 expire 1 0 -> sent 0.1 1 0 1 1 2\n\
    i1 receive 0 2 -> accepted 0.1 answer 2\n\
    i0 receive 1 1 -> nothing\n\
    x poll 1 -> ran 0.1 1 sends 1.1\n\
    i0 receive 1 2 -> delivered 0.1\n\
    endpoint 0 runs 0\n\
    endpoint 1 runs 1\n\
    run 0.1 1 9 0 0 0\n\
    messages 2\n\
    fate 0.1 request ran\n\
    fate 1.1 empty pending\n\
    totals ran 1 returned 0 unknown 0 unknown-but-ran 0 pending 1\n";

/// Both tries of it are timed out.
const TIMED_OUT: &str = "i0 expire 1 0\n\
    i0 expire 1 0\n\
    x poll 0\n";

const TIMED_OUT_TOLD: &str = "i0 expire 1 0 -> sent 0.1 1 0 1 1 2\n\
    i0 expire 1 0 -> unknown 0.1\n\
    x poll 0 -> zero 0.1 unknown\n";

const UNKNOWN_BUT_RAN: &str = "i1 receive 0 2\n\
    x poll 1\n\
    i1 bind 1\n\
    i0 receive 1 2\n\
    i1 receive 0 3\n";

const UNKNOWN_BUT_RAN_TOLD: &str = "i1 receive 0 2 -> accepted 0.1 answer 1\n\
    x poll 1 -> ran 0.1 1 sends 1.1\n\
    i1 bind 1 -> sent 1.1 0 0 1 0 2\n\
    i0 receive 1 2 -> refused 1.1 no-request answer 3\n\
    i1 receive 0 3 -> returned 1.1 no-request\n\
    endpoint 0 runs 1\n\
    zero 0.1 unknown\n\
    endpoint 1 runs 1\n\
    run 0.1 1 9 0 0 0\n\
    messages 2\n\
    fate 0.1 request unknown-but-ran\n\
    fate 1.1 empty returned no-request\n\
    totals ran 0 returned 1 unknown 0 unknown-but-ran 1 pending 0\n";

const UNKNOWN_TOLD: &str = "endpoint 0 runs 1\n\
    zero 0.1 unknown\n\
    endpoint 1 runs 0\n\
    messages 1\n\
    fate 0.1 request unknown\n\
    totals ran 0 returned 0 unknown 1 unknown-but-ran 0 pending 0\n";

/// Three endpoints and two frames, which two of them take.
const TWO_FRAMES: &str = "am2 1\n\
    network packet\n\
    nodes 1\n\
    frames 2\n\
    endpoint 0 0 5\n\
    endpoint 1 0 7\n\
    endpoint 2 0 9\n\
    d0 load 0 0\n\
    d0 load 1 1\n";

const FRAMES: &str = "d0 drain 1\n\
    d0 unload 1\n\
    d0 load 2 1\n";

const FRAMES_TOLD: &str = "d0 load 0 0\n\
    d0 load 1 1\n\
    d0 drain 1\n\
    d0 unload 1\n\
    d0 load 2 1\n\
    endpoint 0 runs 0\n\
    endpoint 1 runs 0\n\
    endpoint 2 runs 0\n\
    messages 0\n\
    totals ran 0 returned 0 unknown 0 unknown-but-ran 0 pending 0\n";

/// One endpoint, of whose page calls one fails.
const SWAP: &str = "am2 1\n\
    network packet\n\
    nodes 1\n\
    endpoint 0 0 5\n";

const SECOND_FAILS: &str = "swapfault 0 2\n";

const FIRST_FAILS: &str = "swapfault 0 1\n";

/// Two requests, and it is paged out.
const PAGED_OUT: &str = "x map 0 0 0 5 4\n\
    x request 0 0 1 1 0 0 0\n\
    x request 0 0 1 2 0 0 0\n\
    d0 pageout 0\n";

const ASKED_TWICE_TOLD: &str = "x map 0 0 0 5 4 -> ok\n\
    x request 0 0 1 1 0 0 0 -> ok 0.1\n\
    x request 0 0 1 2 0 0 0 -> ok 0.2\n";

const PAGED_IN: &str = "d0 pagein 0\n\
    d0 pagein 0\n\
    x unmap 0 0\n\
    x request 0 0 1 3 0 0 0\n";

const PAGED_TOLD: &str = "d0 pageout 0 -> ok\n\
    x want 0\n\
    d0 pagein 0 -> failed\n\
    d0 pagein 0 -> ok\n\
    x unmap 0 0 -> refused outstanding 2\n\
    x request 0 0 1 3 0 0 0 -> ok 0.3\n\
    endpoint 0 runs 0\n\
    messages 3\n\
    fate 0.1 request pending\n\
    fate 0.2 request pending\n\
    fate 0.3 request pending\n\
    totals ran 0 returned 0 unknown 0 unknown-but-ran 0 pending 3\n";

const ON_DISK_TOLD: &str = "d0 pagein 0 -> ok\n\
    endpoint 0 runs 0\n\
    messages 0\n\
    totals ran 0 returned 0 unknown 0 unknown-but-ran 0 pending 0\n";

const FAILED_WRITE_TOLD: &str = "d0 pageout 0 -> failed\n\
    endpoint 0 runs 0\n\
    messages 2\n\
    fate 0.1 request pending\n\
    fate 0.2 request pending\n\
    totals ran 0 returned 0 unknown 0 unknown-but-ran 0 pending 2\n";

/// A request whose last try comes to an endpoint that is in no frame.
const NOT_RESIDENT: &str = "x handler 1 1 note\n\
    x map 0 0 1 7 4\n\
    d0 load 0 0\n\
    x request 0 0 1 9 0 0 0\n\
    i0 bind 0\n\
    i0 expire 1 0\n\
    i0 expire 1 0\n\
    i1 receive 0 3\n\
    i0 receive 1 1\n\
    d1 load 1 0\n";

const NOT_RESIDENT_TOLD: &str = "x handler 1 1 note -> ok\n\
    x map 0 0 1 7 4 -> ok\n\
    d0 load 0 0\n\
    x request 0 0 1 9 0 0 0 -> ok 0.1\n\
    i0 bind 0 -> sent 0.1 1 0 1 0 1\n\
    i0 expire 1 0 -> sent 0.1 1 0 1 1 2\n\
    i0 expire 1 0 -> sent 0.1 1 0 1 2 3\n\
    i1 receive 0 3 -> refused 0.1 not-resident answer 1\n";

const BOUND_AGAIN: &str = "i0 bind 0\ni1 receive 0 4\n";

const BOUNCED_TOLD: &str = "i0 receive 1 1 -> requeued 0.1 not-resident\n\
    d1 load 1 0\n\
    i0 bind 0 -> sent 0.1 1 0 2 0 4\n\
    i1 receive 0 4 -> accepted 0.1 answer 2\n\
    endpoint 0 runs 0\n\
    endpoint 1 runs 0\n\
    messages 1\n\
    fate 0.1 request pending\n\
    totals ran 0 returned 0 unknown 0 unknown-but-ran 0 pending 1\n";

const NOT_BOUNCED_TOLD: &str = "i0 receive 1 1 -> returned 0.1 not-resident\n\
    d1 load 1 0\n\
    endpoint 0 runs 0\n\
    endpoint 1 runs 0\n\
    messages 1\n\
    fate 0.1 request returned not-resident\n\
    totals ran 0 returned 1 unknown 0 unknown-but-ran 0 pending 0\n";

const ANSWERED: &str = "i1 receive 0 1\n\
    x poll 1\n\
    i1 bind 1\n\
    i0 receive 1 2\n\
    i0 expire 1 0\n\
    i0 expire 1 0\n\
    x poll 0\n";

const ANSWERED_TOLD: &str = "i1 receive 0 1 -> accepted 0.1 answer 1\n\
    x poll 1 -> ran 0.1 1 sends 1.1\n\
    i1 bind 1 -> sent 1.1 0 0 1 0 2\n\
    i0 receive 1 2 -> accepted 1.1 answer 2\n\
    i0 expire 1 0 -> sent 0.1 1 0 1 1 3\n\
    i0 expire 1 0 -> delivered 0.1\n\
    x poll 0 -> ran 1.1 -\n\
    endpoint 0 runs 0\n\
    endpoint 1 runs 1\n\
    run 0.1 1 9 0 0 0\n\
    messages 2\n\
    fate 0.1 request ran\n\
    fate 1.1 empty ran\n\
    totals ran 2 returned 0 unknown 0 unknown-but-ran 0 pending 0\n";

const REFUSED_AGAIN: &str = "i1 receive 0 1\n\
    i1 receive 0 1\n\
    i0 receive 1 2\n\
    i0 receive 1 1\n\
    x poll 0\n";

const REFUSED_AGAIN_TOLD: &str = "i1 receive 0 1 -> refused 0.1 bad-tag answer 1\n\
    i1 receive 0 1 -> again 0.1 bad-tag answer 2\n\
    i0 receive 1 2 -> returned 0.1 bad-tag\n\
    i0 receive 1 1 -> nothing\n\
    x poll 0 -> zero 0.1 bad-tag\n\
    endpoint 0 runs 1\n\
    zero 0.1 bad-tag\n\
    endpoint 1 runs 0\n\
    messages 1\n\
    fate 0.1 request returned bad-tag\n\
    totals ran 0 returned 1 unknown 0 unknown-but-ran 0 pending 0\n";

/// Four entries fill the log of the interface, and of the endpoint too.
const FOUR_ENTRIES: &str = "am2 1\n\
    network packet\n\
    nodes 1\n\
    tries 16\n\
    log 4\n\
    endpoint 0 0 5\n\
    x map 0 0 0 5 1\n\
    d0 load 0 0\n\
    x request 0 0 1 0 0 0 0\n\
    i0 bind 0\n\
    i0 expire 0 0\n\
    i0 expire 0 0\n\
    i0 expire 0 0\n";

/// Under `step`.
pub static PACKET: [Row; 20] = [
    (
        &[THREE_TRIES, ENDS, BOUND, LOST_ACKNOWLEDGEMENT],
        0,
        &[
            "am2 report 1\nentries 12\n",
            BOUND_TOLD,
            LOST_ACKNOWLEDGEMENT_TOLD,
        ],
    ),
    (
        &[THREE_TRIES, OTHER_TAG, BOUND, DELAYED_TRY],
        0,
        &["am2 report 1\nentries 13\n", BOUND_TOLD, DELAYED_TRY_TOLD],
    ),
    (
        &[THREE_TRIES, OTHER_TAG, BOUND, OLD_REFUSAL],
        0,
        &["am2 report 1\nentries 13\n", BOUND_TOLD, OLD_REFUSAL_TOLD],
    ),
    (
        &[TWO_TRIES, ENDS, BOUND, TIMED_OUT, UNKNOWN_BUT_RAN],
        0,
        &[
            "am2 report 1\nentries 14\n",
            BOUND_TOLD,
            TIMED_OUT_TOLD,
            UNKNOWN_BUT_RAN_TOLD,
        ],
    ),
    (
        &[TWO_TRIES, ENDS, BOUND, TIMED_OUT],
        0,
        &[
            "am2 report 1\nentries 9\n",
            BOUND_TOLD,
            TIMED_OUT_TOLD,
            UNKNOWN_TOLD,
        ],
    ),
    (
        &[TWO_FRAMES, FRAMES],
        0,
        &["am2 report 1\nentries 5\n", FRAMES_TOLD],
    ),
    (
        &[SWAP, SECOND_FAILS, PAGED_OUT, "x want 0\n", PAGED_IN],
        0,
        &["am2 report 1\nentries 9\n", ASKED_TWICE_TOLD, PAGED_TOLD],
    ),
    (
        &[
            "am2 1\n\
            network packet\n\
            nodes 1\n\
            endpoint 0 0 5 disk\n",
            SECOND_FAILS,
            "d0 pagein 0\n",
        ],
        0,
        &["am2 report 1\nentries 1\n", ON_DISK_TOLD],
    ),
    (
        &[SWAP, FIRST_FAILS, PAGED_OUT],
        0,
        &[
            "am2 report 1\nentries 4\n",
            ASKED_TWICE_TOLD,
            FAILED_WRITE_TOLD,
        ],
    ),
    (
        &[THREE_TRIES, "bounces 1\n", ENDS, NOT_RESIDENT, BOUND_AGAIN],
        0,
        &[
            "am2 report 1\nentries 12\n",
            NOT_RESIDENT_TOLD,
            BOUNCED_TOLD,
        ],
    ),
    (
        &[THREE_TRIES, "bounces 0\n", ENDS, NOT_RESIDENT],
        0,
        &[
            "am2 report 1\nentries 10\n",
            NOT_RESIDENT_TOLD,
            NOT_BOUNCED_TOLD,
        ],
    ),
    (
        &[TWO_TRIES, ENDS, BOUND, ANSWERED],
        0,
        &["am2 report 1\nentries 13\n", BOUND_TOLD, ANSWERED_TOLD],
    ),
    (
        &[THREE_TRIES, OTHER_TAG, BOUND, REFUSED_AGAIN],
        0,
        &["am2 report 1\nentries 11\n", BOUND_TOLD, REFUSED_AGAIN_TOLD],
    ),
    (
        &[TWO_FRAMES, "d0 load 2 1\n"],
        3,
        &["refused line 10 not-enabled frame-held\n"],
    ),
    (
        &[THREE_TRIES, ENDS, BOUND, "d0 drain 0\nd0 unload 0\n"],
        3,
        &["refused line 14 not-enabled in-flight\n"],
    ),
    (
        &[SWAP, SECOND_FAILS, PAGED_OUT, "x poll 0\n", PAGED_IN],
        3,
        &["refused line 10 not-enabled on-disk\n"],
    ),
    (
        &[SWAP, FIRST_FAILS, PAGED_OUT, "x want 0\n", PAGED_IN],
        3,
        &["refused line 10 not-enabled not-on-disk\n"],
    ),
    (
        &[THREE_TRIES, "bounces 0\n", ENDS, NOT_RESIDENT, BOUND_AGAIN],
        3,
        &["refused line 18 not-enabled no-message\n"],
    ),
    (&[FOUR_ENTRIES, "i0 expire 0 0\n"], 6, &["log full i0\n"]),
    (&[FOUR_ENTRIES, "i0 receive 0 1\n"], 6, &["log full e0\n"]),
];

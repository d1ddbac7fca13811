//! Small texts, each with what is printed or the line and the cause of its first fault, worked out by hand from the rules.

use crate::commands::tables::Told;
use crate::readers::Row;
use am_lexer::What;

/// Texts with the status and what is printed of each: texts without a fault whose events can all happen, and then texts whose last
/// event can't happen.
pub static SESSIONS: [Told; 14] = [
    (
        "am2session 1\ntries 2\n",
        0,
        "session report 1\n\
            entries 0\n\
            messages 0\n",
    ),
    // The receiver restarts before the parcel comes.
    (
        "am2session 1\n\
            tries 2\n\
            a hello\n\
            b receive 1 accept\n\
            a receive 1\n\
            a offer\n\
            a bind\n\
            b restart\n\
            b receive 2 accept\n\
            a receive 2\n",
        0,
        "session report 1\n\
            entries 8\n\
            a hello -> sent 1\n\
            b receive 1 accept -> welcome 1\n\
            a receive 1 -> peer 1\n\
            a offer -> ok 1\n\
            a bind -> sent 1 1 0 2\n\
            b restart -> ok\n\
            b receive 2 accept -> welcome 2\n\
            a receive 2 -> peer 2 unknown 1\n\
            messages 1\n\
            fate 1 unknown\n",
    ),
    // It restarts after it put the message.
    (
        "am2session 1\n\
            tries 2\n\
            a hello\n\
            b receive 1 accept\n\
            a receive 1\n\
            a offer\n\
            a bind\n\
            b receive 2 accept\n\
            b restart\n\
            b receive 2 accept\n\
            a receive 3\n\
            a receive 2\n",
        0,
        "session report 1\n\
            entries 10\n\
            a hello -> sent 1\n\
            b receive 1 accept -> welcome 1\n\
            a receive 1 -> peer 1\n\
            a offer -> ok 1\n\
            a bind -> sent 1 1 0 2\n\
            b receive 2 accept -> accepted 1 answer 2\n\
            b restart -> ok\n\
            b receive 2 accept -> welcome 3\n\
            a receive 3 -> peer 2 unknown 1\n\
            a receive 2 -> nothing\n\
            messages 1\n\
            fate 1 unknown-but-put\n",
    ),
    // A refusal for now, again, and then for good; the sender restarts with nothing bound.
    (
        "am2session 1\n\
            tries 2\n\
            a hello\n\
            b receive 1 bad\n\
            a receive 1\n\
            a offer\n\
            a offer\n\
            a bind\n\
            b receive 2 full\n\
            b receive 2 accept\n\
            a receive 3\n\
            a bind\n\
            b receive 3 accept\n\
            a receive 4\n\
            a bind\n\
            b receive 4 bad\n\
            b receive 2 accept\n\
            a receive 5\n\
            a restart\n",
        0,
        "session report 1\n\
            entries 17\n\
            a hello -> sent 1\n\
            b receive 1 bad -> welcome 1\n\
            a receive 1 -> peer 1\n\
            a offer -> ok 1\n\
            a offer -> ok 2\n\
            a bind -> sent 1 1 0 2\n\
            b receive 2 full -> refused 1 answer 2\n\
            b receive 2 accept -> again 1 answer 3\n\
            a receive 3 -> requeued 1\n\
            a bind -> sent 2 2 0 3\n\
            b receive 3 accept -> accepted 2 answer 4\n\
            a receive 4 -> delivered 2\n\
            a bind -> sent 1 3 0 4\n\
            b receive 4 bad -> refused 1 answer 5\n\
            b receive 2 accept -> stale\n\
            a receive 5 -> returned 1\n\
            a restart -> ok\n\
            messages 2\n\
            fate 1 returned\n\
            fate 2 put\n",
    ),
    // The last try, which is put after the message is given up; and one that waits.
    (
        "am2session 1\n\
            tries 2\n\
            a hello\n\
            b receive 1 accept\n\
            a receive 1\n\
            a offer\n\
            a bind\n\
            a expire\n\
            a expire\n\
            b receive 3 accept\n\
            a receive 2\n\
            a offer\n",
        0,
        "session report 1\n\
            entries 10\n\
            a hello -> sent 1\n\
            b receive 1 accept -> welcome 1\n\
            a receive 1 -> peer 1\n\
            a offer -> ok 1\n\
            a bind -> sent 1 1 0 2\n\
            a expire -> sent 1 1 1 3\n\
            a expire -> unknown 1\n\
            b receive 3 accept -> accepted 1 answer 2\n\
            a receive 2 -> nothing\n\
            a offer -> ok 2\n\
            messages 2\n\
            fate 1 unknown-but-put\n\
            fate 2 pending\n",
    ),
    // The sender restarts while a message is bound; an older hello, and a welcome for it, are of the past.
    (
        "am2session 1\n\
            tries 16\n\
            a hello\n\
            b receive 1 accept\n\
            a receive 1\n\
            a offer\n\
            a bind\n\
            a restart\n\
            a hello\n\
            b receive 3 accept\n\
            b receive 1 accept\n\
            a receive 1\n\
            a receive 2\n\
            b receive 2 accept\n",
        0,
        "session report 1\n\
            entries 12\n\
            a hello -> sent 1\n\
            b receive 1 accept -> welcome 1\n\
            a receive 1 -> peer 1\n\
            a offer -> ok 1\n\
            a bind -> sent 1 1 0 2\n\
            a restart -> unknown 1\n\
            a hello -> sent 3\n\
            b receive 3 accept -> welcome 2\n\
            b receive 1 accept -> stale\n\
            a receive 1 -> nothing\n\
            a receive 2 -> peer 1\n\
            b receive 2 accept -> stale\n\
            messages 1\n\
            fate 1 unknown\n",
    ),
    // Comments, blank lines, spaces and leading zeros.
    (
        "# a session\n\n  am2session   01\n tries 002\n#a offer\na  offer",
        0,
        "session report 1\n\
            entries 1\n\
            a offer -> ok 1\n\
            messages 1\n\
            fate 1 pending\n",
    ),
    (
        "am2session 1\n\
            tries 2\n\
            a bind\n",
        3,
        "refused line 3 not-enabled unknown-peer\n",
    ),
    (
        "am2session 1\n\
            tries 2\n\
            a hello\n\
            b receive 1 full\n\
            a receive 1\n\
            \n\
            a bind\n",
        3,
        "refused line 7 not-enabled no-message\n",
    ),
    (
        "am2session 1\n\
            tries 2\n\
            a hello\n\
            b receive 1 full\n\
            a receive 1\n\
            a offer\n\
            a bind\n\
            a bind\n\
            a bind\n",
        3,
        "refused line 8 not-enabled bound\n",
    ),
    (
        "am2session 1\n\
            tries 2\n\
            a expire\n",
        3,
        "refused line 3 not-enabled idle\n",
    ),
    (
        "am2session 1\n\
            tries 2\n\
            a receive 1\n",
        3,
        "refused line 3 not-enabled no-packet\n",
    ),
    (
        "am2session 1\n\
            tries 2\n\
            a hello\n\
            b receive 2 bad\n",
        3,
        "refused line 4 not-enabled no-packet\n",
    ),
    // A fault of the text comes before anything that the events do.
    (
        "am2session 1\n\
            tries 2\n\
            a bind\n\
            a fly\n",
        3,
        "refused line 4 unknown-word\n",
    ),
];

/// The faults of texts.
pub static FAULTS: [Row; 38] = [
    ("", 1, What::Missing),
    ("\n# c\n", 3, What::Missing),
    ("am2session 1", 2, What::Missing),
    ("am2session 1\n", 2, What::Missing),
    ("tries 2\n", 1, What::Missing),
    ("a offer\n", 1, What::Missing),
    ("am2 1\n", 1, What::UnknownWord),
    ("am2session\n", 1, What::Missing),
    ("am2session x\n", 1, What::BadNumber),
    ("am2session 2\n", 1, What::OutOfRange),
    ("am2session 0\n", 1, What::OutOfRange),
    ("am2session 1 1\n", 1, What::UnknownWord),
    ("am2session 1\nam2session 1\n", 2, What::Twice),
    ("am2session 1\nam2session 2\n", 2, What::OutOfRange),
    (
        "am2session 1\n\
        tries 2\n\
        am2session 1\n",
        3,
        What::OutOfPlace,
    ),
    ("am2session 1\ntries\n", 2, What::Missing),
    ("am2session 1\ntries two\n", 2, What::BadNumber),
    ("am2session 1\ntries 1\n", 2, What::OutOfRange),
    ("am2session 1\ntries 17\n", 2, What::OutOfRange),
    ("am2session 1\ntries 2 2\n", 2, What::UnknownWord),
    (
        "am2session 1\n\
        tries 2\n\
        tries 2\n",
        3,
        What::Twice,
    ),
    ("am2session 1\na offer\n", 2, What::Missing),
    (
        "am2session 1\n\
            tries 2\n\
            a offer\n\
            tries 2\n",
        4,
        What::OutOfPlace,
    ),
    (
        "am2session 1\n\
        tries 2\n\
        a\n",
        3,
        What::Missing,
    ),
    (
        "am2session 1\n\
        tries 2\n\
        a poll\n",
        3,
        What::UnknownWord,
    ),
    (
        "am2session 1\n\
        tries 2\n\
        a offer 1\n",
        3,
        What::UnknownWord,
    ),
    (
        "am2session 1\n\
        tries 2\n\
        a receive\n",
        3,
        What::Missing,
    ),
    (
        "am2session 1\n\
        tries 2\n\
        a receive x\n",
        3,
        What::BadNumber,
    ),
    (
        "am2session 1\n\
        tries 2\n\
        a receive 0\n",
        3,
        What::OutOfRange,
    ),
    (
        "am2session 1\n\
            tries 2\n\
            a receive 4294967296\n",
        3,
        What::OutOfRange,
    ),
    (
        "am2session 1\n\
            tries 2\n\
            a receive 1 accept\n",
        3,
        What::UnknownWord,
    ),
    (
        "am2session 1\n\
        tries 2\n\
        b receive 1\n",
        3,
        What::Missing,
    ),
    (
        "am2session 1\n\
            tries 2\n\
            b receive 1 maybe\n",
        3,
        What::UnknownWord,
    ),
    (
        "am2session 1\n\
            tries 2\n\
            b receive 1 full 2\n",
        3,
        What::UnknownWord,
    ),
    (
        "am2session 1\n\
        tries 2\n\
        b offer\n",
        3,
        What::UnknownWord,
    ),
    (
        "am2session 1\n\
        tries 2\n\
        b restart 1\n",
        3,
        What::UnknownWord,
    ),
    (
        "am2session 1\n\
        tries 2\n\
        c offer\n",
        3,
        What::UnknownWord,
    ),
    (
        "am2session 1\n\
        tries 2\n\
        a\toffer\n",
        3,
        What::NotText,
    ),
];

//! Small texts, each with the line and the cause of its first fault, worked out by hand from the rules.

use crate::readers::Row;
use am_lexer::What;

/// Two endpoints and a thread, in six lines.
pub const HEAD: &str = "am2 1\n\
    network packet\n\
    nodes 1\n\
    endpoint 0 0 5\n\
    endpoint 1 0 7\n\
    thread 0 0\n";

/// Lines behind the head: faults of own lines, and then those of the expanded text alone.
pub static FAULTS: [Row; 63] = [
    ("segment", 7, What::Missing),
    ("segment x 1 4", 7, What::BadNumber),
    ("segment 2 1 4", 7, What::Undeclared),
    ("segment 257 1 4", 7, What::Undeclared),
    ("segment 1", 7, What::Missing),
    ("segment 1 x 4", 7, What::BadNumber),
    ("segment 1 0 4", 7, What::OutOfRange),
    ("segment 1 16 4", 7, What::OutOfRange),
    ("segment 1 1", 7, What::Missing),
    ("segment 1 1 x", 7, What::BadNumber),
    ("segment 1 1 0", 7, What::OutOfRange),
    ("segment 1 1 65537", 7, What::OutOfRange),
    ("segment 1 1 4 4", 7, What::UnknownWord),
    ("segment 1 1 4 \x01", 7, What::NotText),
    ("segment 1 1 4\nsegment 1 2 8", 8, What::Twice),
    ("segment 1 1 4\nsegment 1 2 0", 8, What::OutOfRange),
    ("t0 poll 1\nsegment 1 1 4", 8, What::OutOfPlace),
    ("t0 poll 1\nsegment", 8, What::OutOfPlace),
    ("t0 poll 1\nsegment \x01", 8, What::NotText),
    ("t0 serve 1 1\nsegment 1 1 4", 8, What::OutOfPlace),
    ("i0 bind 1\nsegment 1 1 4", 8, What::OutOfPlace),
    ("segment 1 1 4\nt0 xfer", 8, What::Missing),
    ("segment 1 1 4\nt0 xfer x", 8, What::BadNumber),
    ("segment 1 1 4\nt0 xfer 2", 8, What::Undeclared),
    ("segment 1 1 4\nt0 xfer 0", 8, What::Missing),
    ("segment 1 1 4\nt0 xfer 0 x", 8, What::BadNumber),
    ("segment 1 1 4\nt0 xfer 0 16", 8, What::OutOfRange),
    ("segment 1 1 4\nt0 xfer 0 15", 8, What::Missing),
    ("segment 1 1 4\nt0 xfer 0 0 x", 8, What::BadNumber),
    ("segment 1 1 4\nt0 xfer 0 0 0", 8, What::Undeclared),
    ("segment 1 1 4\nt0 xfer 0 0 1", 8, What::Missing),
    ("segment 1 1 4\nt0 xfer 0 0 1 x", 8, What::BadNumber),
    ("segment 1 1 4\nt0 xfer 0 0 1 0", 8, What::Missing),
    ("segment 1 1 4\nt0 xfer 0 0 1 0 6", 8, What::BadNumber),
    ("segment 1 1 4\nt0 xfer 0 0 1 0 6g", 8, What::BadNumber),
    ("segment 1 1 4\nt0 xfer 0 0 1 0 6A", 8, What::BadNumber),
    ("segment 1 1 4\nt0 xfer 0 0 1 4 6", 8, What::BadNumber),
    ("segment 1 1 4\nt0 xfer 0 0 1 4 68", 8, What::OutOfRange),
    ("segment 1 1 4\nt0 xfer 0 0 1 3 6869", 8, What::OutOfRange),
    (
        "segment 1 1 4\nt0 xfer 0 0 1 18446744073709551615 68",
        8,
        What::OutOfRange,
    ),
    (
        "segment 1 1 4\nt0 xfer 0 0 1 2 6869 0",
        8,
        What::UnknownWord,
    ),
    ("segment 1 1 4\nt0 xfer 0 0 1 3 6869 0", 8, What::OutOfRange),
    ("segment 1 1 4\nt0 xfer 0 0 1 2 6869 \x7f", 8, What::NotText),
    ("t0 xfer 0 0 1 0 68", 7, What::Undeclared),
    ("t0 serve", 7, What::Missing),
    ("t0 serve x 1", 7, What::BadNumber),
    ("t0 serve 2 1", 7, What::Undeclared),
    ("t0 serve 1", 7, What::Missing),
    ("t0 serve 1 x", 7, What::BadNumber),
    ("t0 serve 1 0", 7, What::OutOfRange),
    ("t0 serve 1 1025", 7, What::OutOfRange),
    ("t0 serve 1 1 1", 7, What::UnknownWord),
    ("bogus\nt0 serve 2 1", 8, What::Undeclared),
    ("t9 serve 2 1", 7, What::Undeclared),
    ("segment 1 1 4\nbogus", 8, What::UnknownWord),
    ("t0 serve 1 3\nbogus\n", 8, What::UnknownWord),
    (
        "segment 1 1 4\n\
            t0 xfer 0 0 1 0 68\n\
            \n\
            t0 poll 2",
        10,
        What::Undeclared,
    ),
    ("t9 serve 1 2", 7, What::Undeclared),
    ("t0 poll 1\nendpoint 2 0 5", 8, What::OutOfPlace),
    ("t0 serve 1 1\nendpoint 2 0 5", 8, What::OutOfPlace),
    ("segments 1 1 4", 7, What::UnknownWord),
    ("tx serve 1 1", 7, What::UnknownWord),
    ("t0 \x01xfer 0 0 1 0 68", 7, What::NotText),
];

//! Single lines behind a head without fault, each with the cause of its fault, worked out by hand from the rules.

use crate::readers::Row;
use am_lexer::What;

/// Four lines of a step script: two nodes, and endpoint 0 on node 0.
pub const STEP_HEAD: &str = "am2 1\n\
    network packet\n\
    nodes 2\n\
    endpoint 0 0 5\n";

/// Fifth lines of a step script, behind `STEP_HEAD`.
pub static STEP_LINES: [Row; 84] = [
    ("x request\n", 5, What::Missing),
    ("x request 9 0 1 0 0 0 0\n", 5, What::Undeclared),
    ("x request e 0 1 0 0 0 0\n", 5, What::BadNumber),
    ("x request 0 i 1 0 0 0 0\n", 5, What::BadNumber),
    ("x request 0 0 h 0 0 0 0\n", 5, What::BadNumber),
    ("x tag\n", 5, What::Missing),
    ("x tag 9 5\n", 5, What::Undeclared),
    ("x tag e 5\n", 5, What::BadNumber),
    ("x tag 0 18446744073709551616\n", 5, What::BadNumber),
    ("x map\n", 5, What::Missing),
    ("x map 0 0 0 5\n", 5, What::Missing),
    ("x map e 0 0 5 1\n", 5, What::BadNumber),
    ("x map 0 0 e 5 1\n", 5, What::BadNumber),
    ("x map 0 0 300 5 1\n", 5, What::Undeclared),
    ("x map 0 0 0 5 c\n", 5, What::BadNumber),
    ("x map 0 0 0 5 1 1\n", 5, What::UnknownWord),
    ("x unmap\n", 5, What::Missing),
    ("x unmap 9 0\n", 5, What::Undeclared),
    ("x unmap 0 i\n", 5, What::BadNumber),
    ("x unmap 0 0 0\n", 5, What::UnknownWord),
    ("x handler\n", 5, What::Missing),
    ("x handler 0 1\n", 5, What::Missing),
    ("x handler 9 1 note\n", 5, What::Undeclared),
    ("x handler 0 h note\n", 5, What::BadNumber),
    ("x handler 0 1 echo 16\n", 5, What::OutOfRange),
    ("x handler 0 1 echo r\n", 5, What::BadNumber),
    ("x handler 0 1 echo 1 1\n", 5, What::UnknownWord),
    ("x handler 0 1 add\n", 5, What::Missing),
    ("x handler 0 1 add 0\n", 5, What::OutOfRange),
    ("x handler 0 1 add r\n", 5, What::BadNumber),
    ("x handler 0 1 add 1 1\n", 5, What::UnknownWord),
    ("x giveup\n", 5, What::Missing),
    ("x giveup 9 0.1\n", 5, What::Undeclared),
    ("x giveup e 0.1\n", 5, What::BadNumber),
    ("x giveup 0 0.1 0.1\n", 5, What::UnknownWord),
    ("x close 9\n", 5, What::Undeclared),
    ("x close e\n", 5, What::BadNumber),
    ("x event\n", 5, What::Missing),
    ("x event 9 notempty\n", 5, What::Undeclared),
    ("x event e notempty\n", 5, What::BadNumber),
    ("x event 0 notempty 1\n", 5, What::UnknownWord),
    ("x carry\n", 5, What::Missing),
    ("x carry e\n", 5, What::BadNumber),
    ("x want 9\n", 5, What::Undeclared),
    ("x want e\n", 5, What::BadNumber),
    ("x want 0 0\n", 5, What::UnknownWord),
    ("x pollb 0\n", 5, What::UnknownWord),
    ("x eventb 0\n", 5, What::UnknownWord),
    ("i0 bind\n", 5, What::Missing),
    ("i0 bind e\n", 5, What::BadNumber),
    ("i0 bind 0 0\n", 5, What::UnknownWord),
    ("i0 expire\n", 5, What::Missing),
    ("i0 expire p 0\n", 5, What::BadNumber),
    ("i0 expire 0 c\n", 5, What::BadNumber),
    ("i0 expire 0 0 0\n", 5, What::UnknownWord),
    ("i0 receive\n", 5, What::Missing),
    ("i0 receive 0\n", 5, What::Missing),
    ("i0 receive 2 1\n", 5, What::OutOfRange),
    ("i0 receive p 1\n", 5, What::BadNumber),
    ("i0 receive 0 1 1\n", 5, What::UnknownWord),
    ("d\n", 5, What::UnknownWord),
    ("d0\n", 5, What::Missing),
    ("d0 drain 9\n", 5, What::Undeclared),
    ("d0 drain e\n", 5, What::BadNumber),
    ("d0 drain 0 0\n", 5, What::UnknownWord),
    ("d0 unload\n", 5, What::Missing),
    ("d0 unload 9\n", 5, What::Undeclared),
    ("d0 unload 0 0\n", 5, What::UnknownWord),
    ("d0 load\n", 5, What::Missing),
    ("d0 load 0\n", 5, What::Missing),
    ("d0 load e 0\n", 5, What::BadNumber),
    ("d0 load 0 f\n", 5, What::BadNumber),
    ("d0 load 0 0 0\n", 5, What::UnknownWord),
    ("d0 pageout\n", 5, What::Missing),
    ("d0 pageout 9\n", 5, What::Undeclared),
    ("d0 pageout e\n", 5, What::BadNumber),
    ("d0 pagein\n", 5, What::Missing),
    ("d0 pagein e\n", 5, What::BadNumber),
    ("d0 pagein 0 0\n", 5, What::UnknownWord),
    ("x poll\t0\n", 5, What::NotText),
    ("x poll 0\x7f\n", 5, What::NotText),
    ("x jump \x01\n", 5, What::NotText),
    ("speed \x1f\n", 5, What::NotText),
    ("bundle 0 notempty 0 \x00\n", 5, What::NotText),
];

/// Eight lines of a run: endpoints 0 and 1 on nodes 0 and 1, each with a thread, and a bundle of endpoint 0.
pub const RUN_HEAD: &str = "am2 1\n\
    network packet\n\
    nodes 2\n\
    endpoint 0 0 5\n\
    endpoint 1 1 6\n\
    bundle 0 notempty 0\n\
    thread 0 0\n\
    thread 1 1\n";

/// Ninth lines of a run, behind `RUN_HEAD`.
pub static RUN_LINES: [Row; 25] = [
    ("t0 jump 0\n", 9, What::UnknownWord),
    ("t0 request 0 256 1 0 0 0 0\n", 9, What::OutOfRange),
    ("t0 request 1 0 1 0 0 0 0\n", 9, What::OutOfRange),
    ("t0 request 0 0 1 0 0 0\n", 9, What::Missing),
    ("t0 tag 9 5\n", 9, What::Undeclared),
    ("t0 tag 1 5\n", 9, What::OutOfRange),
    ("t0 tag 0 5 5\n", 9, What::UnknownWord),
    ("t0 map 1 0 0 5 1\n", 9, What::OutOfRange),
    ("t0 map 0 0 9 5 1\n", 9, What::Undeclared),
    ("t0 map 0 0 1 5 0\n", 9, What::OutOfRange),
    ("t0 unmap 1 0\n", 9, What::OutOfRange),
    ("t0 unmap 0\n", 9, What::Missing),
    ("t0 handler 1 1 note\n", 9, What::OutOfRange),
    ("t0 handler 0 1 sing\n", 9, What::UnknownWord),
    ("t0 giveup 1 0.1\n", 9, What::OutOfRange),
    ("t0 giveup 0 1\n", 9, What::BadNumber),
    ("t0 close 1\n", 9, What::OutOfRange),
    ("t0 close e\n", 9, What::BadNumber),
    ("t0 event 1 notempty\n", 9, What::OutOfRange),
    ("t0 event 0\n", 9, What::Missing),
    ("t0 event 0 always\n", 9, What::UnknownWord),
    ("t0 eventb\n", 9, What::Missing),
    ("t0 eventb 9\n", 9, What::Undeclared),
    ("t0 pollb x\n", 9, What::BadNumber),
    ("t0 poll\t0\n", 9, What::NotText),
];

/// Three lines of a run of two nodes.
pub const PLAN_HEAD: &str = "am2 1\nnetwork packet\nnodes 2\n";

/// Fourth lines of a run, behind `PLAN_HEAD`.
pub static PLAN_LINES: [Row; 13] = [
    ("plan 0 0 1 late\n", 4, What::Missing),
    ("plan 0 0 1 late x\n", 4, What::BadNumber),
    ("plan 0 0 1 late 0\n", 4, What::OutOfRange),
    ("plan 0 0 1 late 17\n", 4, What::OutOfRange),
    ("plan 0 0 1 late 1 1\n", 4, What::UnknownWord),
    ("plan p 0 1 lose\n", 4, What::BadNumber),
    ("plan 0 n 1 lose\n", 4, What::BadNumber),
    ("plan 0 0 1 lose 1\n", 4, What::UnknownWord),
    ("plan 0 0 1 repeat 1\n", 4, What::UnknownWord),
    ("plan\n", 4, What::Missing),
    ("plan 0\n", 4, What::Missing),
    ("plan 0 0\n", 4, What::Missing),
    ("plan 0 0 1\n", 4, What::Missing),
];

/// The first line of version 2.
pub const POOL_HEAD: &str = "am2 2\n";

/// Second lines, behind `POOL_HEAD`.
pub static POOL_LINES: [Row; 3] = [
    ("pool\n", 2, What::Missing),
    ("pool x\n", 2, What::BadNumber),
    ("pool 3 3\n", 2, What::UnknownWord),
];

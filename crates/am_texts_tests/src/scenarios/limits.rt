//! How many lines there may be, in each form of a text.

use crate::readers::{Limit, Reader};
use am_scenario::Form;

const STEP: Reader = Reader::Scenario(Form::Step);

const RUN: Reader = Reader::Scenario(Form::Run);

const NODE: &str = "am2 1\n\
    network packet\n\
    nodes 1\n";

const CLIENT: &str = "am2 1\n\
    network packet\n\
    nodes 1\n\
    endpoint 0 0 5\n\
    thread 0 0\n";

/// A bundle of two endpoints.
const BUNDLE: &str = "am2 1\n\
    network packet\n\
    nodes 1\n\
    endpoint 0 0 5\n\
    endpoint 1 0 6\n\
    bundle 0 notempty 0 1\n\
    thread 0 0\n";

/// The endpoints 1 to 17 and a thread, in 21 lines.
const SEVENTEEN_ENDS: &str = "am2 1\n\
    network packet\n\
    nodes 1\n\
    endpoint 1 0 5\n\
    endpoint 2 0 5\n\
    endpoint 3 0 5\n\
    endpoint 4 0 5\n\
    endpoint 5 0 5\n\
    endpoint 6 0 5\n\
    endpoint 7 0 5\n\
    endpoint 8 0 5\n\
    endpoint 9 0 5\n\
    endpoint 10 0 5\n\
    endpoint 11 0 5\n\
    endpoint 12 0 5\n\
    endpoint 13 0 5\n\
    endpoint 14 0 5\n\
    endpoint 15 0 5\n\
    endpoint 16 0 5\n\
    endpoint 17 0 5\n\
    thread 0 0\n";

/// How many endpoints, failing page calls, planned packets, steps, calls, segments and events there may be.
pub static LIMITS: [Limit; 9] = [
    (
        STEP,
        NODE,
        ("endpoint ", " 0 5"),
        64,
        "endpoint 65 0 5\n",
        68,
    ),
    (STEP, NODE, ("swapfault 0 ", ""), 64, "swapfault 0 65\n", 68),
    (
        RUN,
        NODE,
        ("plan 0 0 ", " lose"),
        4_096,
        "plan 0 0 4097 lose\n",
        4_100,
    ),
    (
        STEP,
        CLIENT,
        ("x tag 0 ", ""),
        65_536,
        "x tag 0 65537\n",
        65_542,
    ),
    (
        RUN,
        CLIENT,
        ("t0 tag 0 ", ""),
        16_384,
        "t0 tag 0 16385\n",
        16_390,
    ),
    // A bundle's polls are counted one by one: 16,383 calls leave room for one.
    (
        RUN,
        BUNDLE,
        ("t0 tag 0 ", ""),
        16_383,
        "t0 pollb 0\n",
        16_391,
    ),
    (
        Reader::Segments,
        SEVENTEEN_ENDS,
        ("segment ", " 1 4"),
        16,
        "segment 17 1 4\n",
        38,
    ),
    // Each line stands for 1,024 calls.
    (
        Reader::Segments,
        SEVENTEEN_ENDS,
        ("t0 serve ", " 1024"),
        16,
        "t0 serve 1 1\n",
        38,
    ),
    (
        Reader::Session,
        "am2session 1\ntries 2\n",
        ("a receive ", ""),
        65_536,
        "a offer\n",
        65_539,
    ),
];

//! Small texts of runs, each with the line and the cause of its first fault, worked out by hand from the rules.

use crate::readers::Row;
use am_lexer::What;

/// A run.
pub static RUNS: [Row; 38] = [
    ("am2 1\nnetwork direct\n", 2, What::OutOfRange),
    ("am2 1\nnetwork direct more\n", 2, What::OutOfRange),
    (
        "am2 1\nnetwork packet\nnodes 2\nendpoint 0 0 5\nendpoint 1 1 6\nbundle 0 notempty 0\nthread 0 0\nthread 1 1\nx poll 0\n",
        9,
        What::OutOfPlace,
    ),
    (
        "am2 1\nnetwork packet\nnodes 2\nendpoint 0 0 5\nendpoint 1 1 6\nbundle 0 notempty 0\nthread 0 0\nthread 1 1\ni0 bind 0\n",
        9,
        What::OutOfPlace,
    ),
    (
        "am2 1\nnetwork packet\nnodes 2\nendpoint 0 0 5\nendpoint 1 1 6\nbundle 0 notempty 0\nthread 0 0\nthread 1 1\nd0 drain 0\n",
        9,
        What::OutOfPlace,
    ),
    (
        "am2 1\nnetwork packet\nnodes 2\nendpoint 0 0 5\nendpoint 1 1 6\nbundle 0 notempty 0\nthread 0 0\nthread 1 1\nt2 poll 0\n",
        9,
        What::Undeclared,
    ),
    (
        "am2 1\nnetwork packet\nnodes 2\nendpoint 0 0 5\nendpoint 1 1 6\nbundle 0 notempty 0\nthread 0 0\nthread 1 1\nt18446744073709551615 poll 0\n",
        9,
        What::Undeclared,
    ),
    (
        "am2 1\nnetwork packet\nnodes 2\nendpoint 0 0 5\nendpoint 1 1 6\nbundle 0 notempty 0\nthread 0 0\nthread 1 1\nt2 jump\n",
        9,
        What::Undeclared,
    ),
    (
        "am2 1\nnetwork packet\nnodes 2\nendpoint 0 0 5\nendpoint 1 1 6\nbundle 0 notempty 0\nthread 0 0\nthread 1 1\nt0\n",
        9,
        What::Missing,
    ),
    (
        "am2 1\nnetwork packet\nnodes 2\nendpoint 0 0 5\nendpoint 1 1 6\nbundle 0 notempty 0\nthread 0 0\nthread 1 1\nt0 poll 1\n",
        9,
        What::OutOfRange,
    ),
    (
        "am2 1\nnetwork packet\nnodes 2\nendpoint 0 0 5\nendpoint 1 1 6\nbundle 0 notempty 0\nthread 0 0\nthread 1 1\nt0 poll 9\n",
        9,
        What::Undeclared,
    ),
    (
        "am2 1\nnetwork packet\nnodes 2\nendpoint 0 0 5\nendpoint 1 1 6\nbundle 0 notempty 0\nthread 0 0\nthread 1 1\nt0 carry 0\n",
        9,
        What::UnknownWord,
    ),
    (
        "am2 1\nnetwork packet\nnodes 2\nendpoint 0 0 5\nendpoint 1 1 6\nbundle 0 notempty 0\nthread 0 0\nthread 1 1\nt0 want 0\n",
        9,
        What::UnknownWord,
    ),
    (
        "am2 1\nnetwork packet\nnodes 2\nendpoint 0 0 5\nendpoint 1 1 6\nbundle 0 notempty 0\nthread 0 0\nthread 1 1\nt0 poll 0 0\n",
        9,
        What::UnknownWord,
    ),
    (
        "am2 1\nnetwork packet\nnodes 2\nendpoint 0 0 5\nendpoint 1 1 6\nbundle 0 notempty 0\nthread 0 0\nthread 1 1\nt0 pollb 1\n",
        9,
        What::Undeclared,
    ),
    (
        "am2 1\nnetwork packet\nnodes 2\nendpoint 0 0 5\nendpoint 1 1 6\nbundle 0 notempty 0\nthread 0 0\nthread 1 1\nt0 pollb 99\n",
        9,
        What::Undeclared,
    ),
    (
        "am2 1\nnetwork packet\nnodes 2\nendpoint 0 0 5\nendpoint 1 1 6\nbundle 0 notempty 0\nthread 0 0\nthread 1 1\nt1 pollb 0\n",
        9,
        What::OutOfRange,
    ),
    (
        "am2 1\nnetwork packet\nnodes 2\nendpoint 0 0 5\nendpoint 1 1 6\nbundle 0 notempty 0\nthread 0 0\nthread 1 1\nt0 pollb\n",
        9,
        What::Missing,
    ),
    (
        "am2 1\nnetwork packet\nnodes 2\nendpoint 0 0 5\nendpoint 1 1 6\nbundle 0 notempty 0\nthread 0 0\nthread 1 1\nt0 pollb 0 0\n",
        9,
        What::UnknownWord,
    ),
    (
        "am2 1\nnetwork packet\nnodes 2\nendpoint 0 0 5\nendpoint 1 1 6\nbundle 0 notempty 0\nthread 0 0\nthread 1 1\nt0 eventb x\n",
        9,
        What::BadNumber,
    ),
    (
        "am2 1\nnetwork packet\nnodes 2\nendpoint 0 0 5\nendpoint 1 1 6\nbundle 0 notempty 0\nthread 0 0\nthread 1 1\nt1 eventb 0\n",
        9,
        What::OutOfRange,
    ),
    (
        "am2 1\nnetwork packet\nnodes 2\nendpoint 0 0 5\nendpoint 1 1 6\nbundle 0 notempty 0\nthread 0 0\nthread 1 1\nt0 eventb 0 0\n",
        9,
        What::UnknownWord,
    ),
    ("am2 1\nnetwork packet\nnodes 2\nplan\n", 4, What::Missing),
    (
        "am2 1\nnetwork packet\nnodes 2\nplan 2 0 1 lose\n",
        4,
        What::OutOfRange,
    ),
    (
        "am2 1\nnetwork packet\nnodes 2\nplan 0 2 1 lose\n",
        4,
        What::OutOfRange,
    ),
    (
        "am2 1\nnetwork packet\nnodes 2\nplan 0 0 0 lose\n",
        4,
        What::OutOfRange,
    ),
    (
        "am2 1\nnetwork packet\nnodes 2\nplan 0 0 65537 lose\n",
        4,
        What::OutOfRange,
    ),
    (
        "am2 1\nnetwork packet\nnodes 2\nplan 0 0 one lose\n",
        4,
        What::BadNumber,
    ),
    (
        "am2 1\nnetwork packet\nnodes 2\nplan 0 0 1 drop\n",
        4,
        What::UnknownWord,
    ),
    (
        "am2 1\nnetwork packet\nnodes 2\nplan 0 0 1\n",
        4,
        What::Missing,
    ),
    (
        "am2 1\nnetwork packet\nnodes 2\nplan 0 0 1 late\n",
        4,
        What::Missing,
    ),
    (
        "am2 1\nnetwork packet\nnodes 2\nplan 0 0 1 late 0\n",
        4,
        What::OutOfRange,
    ),
    (
        "am2 1\nnetwork packet\nnodes 2\nplan 0 0 1 late 17\n",
        4,
        What::OutOfRange,
    ),
    (
        "am2 1\nnetwork packet\nnodes 2\nplan 0 0 1 lose 1\n",
        4,
        What::UnknownWord,
    ),
    (
        "am2 1\nnetwork packet\nnodes 2\nplan 0 0 1 lose\nplan 0 0 1 repeat\n",
        5,
        What::Twice,
    ),
    (
        "am2 1\nnetwork packet\nnodes 2\nendpoint 0 0 5\nendpoint 1 1 6\nbundle 0 notempty 0\nthread 0 0\nthread 1 1\nt0 poll 0\nthread 2 0\n",
        10,
        What::OutOfPlace,
    ),
    ("am2 1\nx poll 0\n", 2, What::OutOfPlace),
    ("am2 1\nt0 poll 0\n", 2, What::Missing),
];

//! Reports of step scripts, right and wrong, and the first fault of each.

use am_check::CheckStop::{self, Fault, Scenario};
use am_check::CheckWhat::{Follows, Form, NotEnabled, Outcome, Tail};
use am_office_entries::Condition;
use am_scenario::{ScenarioFault, What};

/// The parts of a text, and the answer to it.
pub type Row = ([&'static str; 5], Option<CheckStop>);

/// A request that a handler runs, step by step.
pub const SCENARIO: &str = "am2 1\n\
    network direct\n\
    nodes 1\n\
    endpoint 0 0 5\n\
    endpoint 1 0 7\n\
    x handler 1 1 note\n\
    x map 0 0 1 7 1\n\
    x request 0 0 1 10 20 30 40\n\
    x carry 0\n\
    x poll 1\n";

/// The first line of its report and the line that tells its entries; the lines of its journal; and what stands behind.
const HEAD: &str = "am2 report 1\nentries 5\n";

const CALLS: &str = "x handler 1 1 note -> ok\n\
    x map 0 0 1 7 1 -> ok\n\
    x request 0 0 1 10 20 30 40 -> ok 0.1\n";

const RUNS: &str = "x carry 0 -> accepted 0.1\nx poll 1 -> ran 0.1 1 sends 1.1\n";

const TAIL: &str = "endpoint 0 runs 0\n\
    endpoint 1 runs 1\n\
    run 0.1 1 10 20 30 40\n\
    messages 2\n\
    fate 0.1 request ran\n\
    fate 1.1 empty pending\n";

const TOTALS: &str = "totals ran 1 returned 0 unknown 0 unknown-but-ran 0 pending 1\n";

/// Behind the scenario: its report, and the report with one part in place of another.
pub static REPORTS: [Row; 13] = [
    ([HEAD, CALLS, RUNS, TAIL, TOTALS], None),
    (
        ["", "", "", "", ""],
        Some(Fault {
            line: 1,
            what: Form,
        }),
    ),
    (
        ["am2 report 1\n", "", "", "", ""],
        Some(Fault {
            line: 2,
            what: Form,
        }),
    ),
    (
        ["am2 report 1\nentries 05\n", CALLS, RUNS, TAIL, TOTALS],
        Some(Fault {
            line: 2,
            what: Form,
        }),
    ),
    (
        [
            HEAD,
            CALLS,
            "x carry 0 -> accepted 0.1\nx  poll 1\n",
            TAIL,
            TOTALS,
        ],
        Some(Fault {
            line: 7,
            what: Form,
        }),
    ),
    (
        [HEAD, CALLS, "x carry 0 -> accepted 0.1\n", "", ""],
        Some(Fault {
            line: 7,
            what: Form,
        }),
    ),
    (
        [
            HEAD,
            CALLS,
            "x carry 0 -> accepted 0.1\nx poll 1 -> empty\n",
            TAIL,
            TOTALS,
        ],
        Some(Fault {
            line: 7,
            what: Outcome,
        }),
    ),
    (
        [
            HEAD,
            CALLS,
            "x poll 1 -> empty\nx carry 0 -> accepted 0.1\n",
            TAIL,
            TOTALS,
        ],
        Some(Fault {
            line: 6,
            what: Follows,
        }),
    ),
    (
        ["am2 report 1\nentries 3\n", CALLS, "", TAIL, TOTALS],
        Some(Fault {
            line: 6,
            what: Follows,
        }),
    ),
    (
        [HEAD, CALLS, RUNS, "", ""],
        Some(Fault {
            line: 8,
            what: Tail,
        }),
    ),
    (
        [HEAD, CALLS, RUNS, "endpoint 0 runs 1\n", ""],
        Some(Fault {
            line: 8,
            what: Tail,
        }),
    ),
    // its last byte lacks; and there is one more
    (
        [
            HEAD,
            CALLS,
            RUNS,
            TAIL,
            "totals ran 1 returned 0 unknown 0 unknown-but-ran 0 pending 1",
        ],
        Some(Fault {
            line: 14,
            what: Tail,
        }),
    ),
    (
        [
            HEAD,
            CALLS,
            RUNS,
            TAIL,
            "totals ran 1 returned 0 unknown 0 unknown-but-ran 0 pending 1\n\n",
        ],
        Some(Fault {
            line: 15,
            what: Tail,
        }),
    ),
];

/// A scenario whose second step isn't enabled, and a report that says it was done.
const IDLE: &str = "am2 1\n\
    network direct\n\
    nodes 1\n\
    endpoint 0 0 5\n\
    x poll 0\n\
    x carry 0\n\
    am2 report 1\n\
    entries 2\n\
    x poll 0 -> empty\n\
    x carry 0 -> accepted 0.1\n";

/// Texts with nothing in front of them.
pub static TEXTS: [Row; 2] = [
    (
        [HEAD, "", "", "", ""],
        Some(Scenario(ScenarioFault {
            line: 1,
            what: What::Missing,
        })),
    ),
    (
        [IDLE, "", "", "", ""],
        Some(Fault {
            line: 4,
            what: NotEnabled(Condition::NoMessage),
        }),
    ),
];

//! What the lab tells of small texts.

use crate::answers::{is_between, is_told};
use crate::tables::{PATH, REPORT, TOLD};

#[test]
fn each_text_is_told_of(rt: HostRuntime) {
    for (line, scenario, report, status, printed) in TOLD.iter() {
        let told = is_told(rt.alloc(), line, (*scenario, *report), *status, printed);
        assert!(rt; matches!(told, Ok(true)), "{line}");
    }
}

/// A right report is drawn where there is memory.
#[test]
fn a_report_is_drawn(rt: HostRuntime) {
    let around = ("<svg ", "</svg>\n");
    let drawn = is_between(rt.alloc(), "am2_lab chart step", (PATH, REPORT), around);
    assert!(rt; matches!(drawn, Ok(true)));
}

//! Sources and sinks that fail.

use crate::commands::answers::{ends_so, prints_between};
use crate::commands::tables::{
    CASES, COMMANDS, Case, Device, Ending, PATH, PATH_REPORT, READ_FAULT, SOUND, sound,
};

fn path_text() -> &'static [u8] {
    PATH.as_bytes()
}

/// The end where this read fails: the text has 9 parts of at most 16 bytes, and the tenth read finds its end.
fn read_ending(fails: u32) -> Ending<'static> {
    if fails <= 10 {
        READ_FAULT
    } else {
        sound(0, PATH_REPORT.as_bytes())
    }
}

/// The end where this write fails: the report has 22 parts of at most 16 bytes, and those in front of the one that fails are printed.
fn write_ending(fails: u32) -> Ending<'static> {
    let report = PATH_REPORT.as_bytes();
    let held = (fails as usize).saturating_sub(1).saturating_mul(16);
    if held < report.len() {
        Ending {
            status: 5,
            printed: &report[..held],
            read_faults: 0,
            write_faults: 1,
        }
    } else {
        sound(0, report)
    }
}

#[test]
fn each_call_fails_in_turn(rt: HostRuntime) {
    for fails in 1..25u32 {
        let failing = Device { most: 16, fails };
        let read = (failing, SOUND);
        let read = ends_so(
            &rt,
            rt.alloc(),
            "step",
            path_text(),
            read,
            read_ending(fails),
        );
        assert!(rt; matches!(read, Ok(true)));
        let write = (SOUND, failing);
        let write = ends_so(
            &rt,
            rt.alloc(),
            "step",
            path_text(),
            write,
            write_ending(fails),
        );
        assert!(rt; matches!(write, Ok(true)));
    }
}

fn ending_of(case: &Case) -> Ending<'static> {
    Ending {
        status: case.status,
        printed: case.printed.as_bytes(),
        read_faults: case.faults.0,
        write_faults: case.faults.1,
    }
}

#[test]
fn a_read_fails_or_a_write_fails(rt: HostRuntime) {
    for case in CASES.iter() {
        let text = case.text.as_bytes();
        let ended = ends_so(
            &rt,
            rt.alloc(),
            case.line,
            text,
            (case.source, case.sink),
            ending_of(case),
        );
        assert!(rt; matches!(ended, Ok(true)));
    }
}

/// Each command that reads a text ends at a read fault, at a write fault, and else well.
#[test]
fn each_command_meets_faults(rt: HostRuntime) {
    let fails = Device { most: 16, fails: 2 };
    for (line, text, front) in COMMANDS.iter() {
        let (bytes, printed) = (text.as_bytes(), front.as_bytes());
        let cut = Ending {
            status: 5,
            printed,
            read_faults: 0,
            write_faults: 1,
        };
        let read = ends_so(&rt, rt.alloc(), line, bytes, (fails, SOUND), READ_FAULT);
        assert!(rt; matches!(read, Ok(true)));
        let write = ends_so(&rt, rt.alloc(), line, bytes, (SOUND, fails), cut);
        assert!(rt; matches!(write, Ok(true)));
        let whole = prints_between(&rt, rt.alloc(), line, text, (*front, "\n"));
        assert!(rt; matches!(whole, Ok(true)));
    }
}

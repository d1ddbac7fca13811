//! Texts with what is printed of them, and how sources and sinks fail.

/// The way of one message, from its request to the run of its handler.
pub const PATH: &str = "am2 1\n\
    network direct\n\
    nodes 1\n\
    endpoint 0 0 5\n\
    endpoint 1 0 7\n\
    x handler 1 1 note\n\
    x map 0 0 1 7 1\n\
    x request 0 0 1 10 20 30 40\n\
    x carry 0\n\
    x poll 1\n";

pub const PATH_REPORT: &str = "am2 report 1\n\
    entries 5\n\
    x handler 1 1 note -> ok\n\
    x map 0 0 1 7 1 -> ok\n\
    x request 0 0 1 10 20 30 40 -> ok 0.1\n\
    x carry 0 -> accepted 0.1\n\
    x poll 1 -> ran 0.1 1 sends 1.1\n\
    endpoint 0 runs 0\n\
    endpoint 1 runs 1\n\
    run 0.1 1 10 20 30 40\n\
    messages 2\n\
    fate 0.1 request ran\n\
    fate 1.1 empty pending\n\
    totals ran 1 returned 0 unknown 0 unknown-but-ran 0 pending 1\n";

/// The parts of a text, the status and the parts of what is printed.
pub type Row = (&'static [&'static str], u8, &'static [&'static str]);

/// A text, the status and what is printed.
pub type Told = (&'static str, u8, &'static str);

/// How a source or a sink fails: how many bytes a call moves, and the call that fails, counted from 1, or `NEVER`.
#[derive(Clone, Copy)]
pub struct Device {
    pub most: usize,
    pub fails: u32,
}

pub const NEVER: u32 = u32::MAX;

/// Moves all bytes in one call, and never fails.
pub const SOUND: Device = Device {
    most: 65_536,
    fails: NEVER,
};

/// Moves a few bytes in a call, and never fails.
pub const SLOW: Device = Device {
    most: 7,
    fails: NEVER,
};

/// How a command ends: its status, what the sink holds, and how many reads and writes failed.
#[derive(Clone, Copy)]
pub struct Ending<'a> {
    pub status: u8,
    pub printed: &'a [u8],
    pub read_faults: u64,
    pub write_faults: u64,
}

/// That of a command which met no fault.
pub fn sound(status: u8, printed: &[u8]) -> Ending {
    Ending {
        status,
        printed,
        read_faults: 0,
        write_faults: 0,
    }
}

/// A read failed.
pub const READ_FAULT: Ending = Ending {
    status: 4,
    printed: b"read fault\n",
    read_faults: 1,
    write_faults: 0,
};

/// What a command comes to over a source and a sink: its status, what the sink holds, and how many reads and writes failed.
#[derive(Clone, Copy)]
pub struct Case {
    pub line: &'static str,
    pub text: &'static str,
    pub source: Device,
    pub sink: Device,
    pub status: u8,
    pub printed: &'static str,
    pub faults: (u64, u64),
}

pub static CASES: [Case; 7] = [
    Case {
        line: "step",
        text: PATH,
        source: Device {
            most: 1,
            fails: NEVER,
        },
        sink: Device {
            most: 1,
            fails: NEVER,
        },
        status: 0,
        printed: PATH_REPORT,
        faults: (0, 0),
    },
    Case {
        line: "step",
        text: PATH,
        source: Device { most: 1, fails: 5 },
        sink: Device {
            most: 512,
            fails: NEVER,
        },
        status: 4,
        printed: "read fault\n",
        faults: (1, 0),
    },
    Case {
        line: "step",
        text: PATH,
        source: Device { most: 1, fails: 1 },
        sink: Device { most: 1, fails: 1 },
        status: 5,
        printed: "",
        faults: (1, 1),
    },
    Case {
        line: "step",
        text: PATH,
        source: Device {
            most: 7,
            fails: NEVER,
        },
        sink: Device { most: 16, fails: 2 },
        status: 5,
        printed: "am2 report 1\nent",
        faults: (0, 1),
    },
    // It reads nothing, so no read of it fails.
    Case {
        line: "make 1",
        text: "",
        source: Device { most: 16, fails: 1 },
        sink: Device { most: 16, fails: 2 },
        status: 5,
        printed: "am2 make 1\ncalls",
        faults: (0, 1),
    },
    // A line that fails to be written leaves its front, and is not tried again: the usage line, and what is told of a fault.
    Case {
        line: "stop",
        text: PATH,
        source: SOUND,
        sink: Device { most: 8, fails: 2 },
        status: 5,
        printed: "usage: a",
        faults: (0, 1),
    },
    Case {
        line: "step",
        text: "am2 1\nspeed 3\n",
        source: SOUND,
        sink: Device { most: 8, fails: 2 },
        status: 5,
        printed: "refused ",
        faults: (0, 1),
    },
];

/// The words of a command that reads a text, such a text, and the first 16 bytes of its report.
pub static COMMANDS: [(&str, &str, &str); 4] = [
    ("step", PATH, "am2 report 1\nent"),
    (
        "run",
        "am2 1\n\
            network packet\n\
            nodes 1\n\
            turns 2\n\
            endpoint 0 0 5\n\
            thread 0 0\n\
            t0 poll 0\n",
        "am2 report 1\nent",
    ),
    (
        "segments",
        "am2 1\n\
            network packet\n\
            nodes 1\n\
            endpoint 0 0 5\n\
            segment 0 1 8\n\
            thread 0 0\n\
            t0 serve 0 2\n",
        "am2 report 1\nent",
    ),
    (
        "session",
        "am2session 1\n\
            tries 2\n\
            a offer\n",
        "session report 1",
    ),
];

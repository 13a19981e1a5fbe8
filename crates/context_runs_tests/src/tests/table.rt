//! Programs, and how the runs of a layer and of two requests end.

use journal_model::{End, Why};
use machine_model::Stop;

/// Three layers, one on another, that add 1 and 2 to a sum.
pub const THREE: &str = "frames = 64\nworkers = 1\nidle = 1\nlayers = 3\n\
    [[layer]]\nname = \"l0\"\nimage = \"it.elf\"\ntrigger = 65544\n\
    [[layer]]\nname = \"l1\"\nbelow = \"l0\"\ntrigger = 65544\npackets = [\"01\"]\n\
    [[layer]]\nname = \"l2\"\nbelow = \"l1\"\ntrigger = 65544\npackets = [\"02\"]\n\
    [[function]]\nname = \"sum\"\nlayer = \"l2\"\n";

/// The file of the program that answers the low byte of the sum of all packets' first bytes.
pub const COUNT: &str = "\
    7f454c460201010000000000000000000200f30001000000000001000000000040000000000000000000\
    000000000000000000004000380002000000000000000100000005000000b00000000000000000000100\
    000000000000010000000000440000000000000000100000000000000100000000000000010000000600\
    0000f4000000000000000000020000000000000002000000000000000000000000000010000000000000\
    010000000000000037040200233004009308300073000000130504019305000493087000730000008332\
    040003430401b382620023305400130504009305100093086000730000006ff09ffc";

/// The head of a file of one segment at 0x10000, which may be read and executed, with 48 bytes in
/// the file.
pub const HEAD: &str = "\
    7f454c460201010000000000000000000200f30001000000000001000000000040000000000000000000\
    000000000000000000004000380001000000000000000100000005000000780000000000000000000100\
    000000000000010000000000300000000000000000100000000000000100000000000000";

/// The trigger of a layer, and the most instructions that its run and a request take.
#[derive(Clone, Copy)]
pub struct Limits {
    pub trigger: u64,
    pub prepare: u64,
    pub budget: u64,
}

/// How a request was answered, and how many instructions of its own were counted.
#[derive(Clone, Copy, Debug, PartialEq, Eq)]
pub struct Told {
    pub end: End,
    pub steps: u64,
}

/// A program's words (the segment's other bytes are 0), its limits, how its layer's run stops, and
/// what two requests are answered: the second one only where the first one rested.
#[derive(Clone, Copy)]
pub struct Row {
    pub words: &'static str,
    pub limits: Limits,
    pub layer: (Stop, u64),
    pub first: Told,
    pub second: Option<Told>,
}

/// Each of them, by hand.
pub const ROWS: [Row; 14] = [
    // Rests, and rests again.
    Row {
        words: "13000000930870007300000093083000730000006ff01fff",
        limits: Limits {
            trigger: 65540,
            prepare: 100,
            budget: 100,
        },
        layer: (Stop::Trigger, 1),
        first: Told {
            end: End::Ok,
            steps: 4,
        },
        second: Some(Told {
            end: End::Ok,
            steps: 5,
        }),
    },
    // Faults at once.
    Row {
        words: "1300000073001000",
        limits: Limits {
            trigger: 65540,
            prepare: 100,
            budget: 100,
        },
        layer: (Stop::Trigger, 1),
        first: Told {
            end: End::Fault {
                cause: 3,
                pc: 0x1_0004,
                tval: 0x1_0004,
            },
            steps: 0,
        },
        second: None,
    },
    // Halts with 5.
    Row {
        words: "13000000130550009308800073000000",
        limits: Limits {
            trigger: 65540,
            prepare: 100,
            budget: 100,
        },
        layer: (Stop::Trigger, 1),
        first: Told {
            end: End::Halt { code: 5 },
            steps: 3,
        },
        second: None,
    },
    // Jumps to itself.
    Row {
        words: "130000006f000000",
        limits: Limits {
            trigger: 65540,
            prepare: 100,
            budget: 64,
        },
        layer: (Stop::Trigger, 1),
        first: Told {
            end: End::Budget,
            steps: 64,
        },
        second: None,
    },
    // The same, with half the budget.
    Row {
        words: "130000006f000000",
        limits: Limits {
            trigger: 65540,
            prepare: 100,
            budget: 32,
        },
        layer: (Stop::Trigger, 1),
        first: Told {
            end: End::Budget,
            steps: 32,
        },
        second: None,
    },
    // Rests at the 32nd instruction; the word after it is none.
    Row {
        words: "1300000093087000730000009302d0009382f2ffe39e02fe130000009308300073000000",
        limits: Limits {
            trigger: 65540,
            prepare: 100,
            budget: 100,
        },
        layer: (Stop::Trigger, 1),
        first: Told {
            end: End::Ok,
            steps: 32,
        },
        second: Some(Told {
            end: End::Fault {
                cause: 2,
                pc: 0x1_0024,
                tval: 0,
            },
            steps: 0,
        }),
    },
    // Halts at the 32nd.
    Row {
        words: "130000009302e0009382f2ffe39e02fe130000009308800073000000",
        limits: Limits {
            trigger: 65540,
            prepare: 100,
            budget: 100,
        },
        layer: (Stop::Trigger, 1),
        first: Told {
            end: End::Halt { code: 0 },
            steps: 32,
        },
        second: None,
    },
    // Faults at the 33rd.
    Row {
        words: "130000009302f0009382f2ffe39e02fe1300000073001000",
        limits: Limits {
            trigger: 65540,
            prepare: 100,
            budget: 100,
        },
        layer: (Stop::Trigger, 1),
        first: Told {
            end: End::Fault {
                cause: 3,
                pc: 0x1_0014,
                tval: 0x1_0014,
            },
            steps: 32,
        },
        second: None,
    },
    // The layer's run comes to its trigger after 32.
    Row {
        words: "9302f0009382f2ffe39e02fe1300000093087000730000009308300073000000",
        limits: Limits {
            trigger: 65552,
            prepare: 100,
            budget: 100,
        },
        layer: (Stop::Trigger, 32),
        first: Told {
            end: End::Ok,
            steps: 4,
        },
        second: Some(Told {
            end: End::Fault {
                cause: 2,
                pc: 0x1_0020,
                tval: 0,
            },
            steps: 0,
        }),
    },
    // It jumps to itself.
    Row {
        words: "6f000000",
        limits: Limits {
            trigger: 65556,
            prepare: 100,
            budget: 100,
        },
        layer: (Stop::Budget, 100),
        first: Told {
            end: End::NoLayer {
                k: 0,
                why: Why::Budget,
            },
            steps: 0,
        },
        second: None,
    },
    // The same, up to a pause's end.
    Row {
        words: "6f000000",
        limits: Limits {
            trigger: 65556,
            prepare: 64,
            budget: 100,
        },
        layer: (Stop::Budget, 64),
        first: Told {
            end: End::NoLayer {
                k: 0,
                why: Why::Budget,
            },
            steps: 0,
        },
        second: None,
    },
    // It rests.
    Row {
        words: "9308300073000000",
        limits: Limits {
            trigger: 65556,
            prepare: 100,
            budget: 100,
        },
        layer: (Stop::Rest, 2),
        first: Told {
            end: End::NoLayer {
                k: 0,
                why: Why::Rest,
            },
            steps: 0,
        },
        second: None,
    },
    // It halts.
    Row {
        words: "130550009308800073000000",
        limits: Limits {
            trigger: 65556,
            prepare: 100,
            budget: 100,
        },
        layer: (Stop::Halt { code: 5 }, 3),
        first: Told {
            end: End::NoLayer {
                k: 0,
                why: Why::Halt { code: 5 },
            },
            steps: 0,
        },
        second: None,
    },
    // It faults.
    Row {
        words: "73001000",
        limits: Limits {
            trigger: 65556,
            prepare: 100,
            budget: 100,
        },
        layer: (
            Stop::Exception {
                cause: 3,
                pc: 0x1_0000,
                tval: 0x1_0000,
            },
            0,
        ),
        first: Told {
            end: End::NoLayer {
                k: 0,
                why: Why::Fault {
                    cause: 3,
                    pc: 0x1_0000,
                    tval: 0x1_0000,
                },
            },
            steps: 0,
        },
        second: None,
    },
];

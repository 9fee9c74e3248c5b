//! Whole runs: words, an image and devices, and the answer, what is put to out, to err and to the report.
use crate::images::wrap;
use crate::outside::{Outside, QUIET, SOUND, Want, check, check_guessed, check_rounds};
use asc_model::{Fault, FaultKind};
use asc_words::{Answer, Bad};
use std::test::Fail;

/// A run, and what must come of it.
struct Row {
    line: &'static str,
    program: &'static [u32],
    devices: Outside,
    want: Want,
}

/// The program ends with 7: ADDI x17,x0,93; ADDI x10,x0,7; ECALL.
const EXIT_SEVEN: Row = Row {
    line: "asc run image",
    program: &[0x05D0_0893, 0x0070_0513, 0x0000_0073],
    devices: SOUND,
    want: Want {
        answer: Answer::Exit(7),
        ..QUIET
    },
};

const REACHES_LIMIT: Want = Want {
    answer: Answer::Limit(2),
    report: "asc: limit after 2\n",
    ..QUIET
};

const USAGE: Want = Want {
    answer: Answer::Usage(Bad::Words),
    asked: 0,
    report: "asc: usage\n",
    ..QUIET
};

const NO_FILE: Want = Want {
    answer: Answer::StoreFault,
    report: "asc: store failed\n",
    ..QUIET
};

const WRITE_FAULT: Want = Want {
    answer: Answer::WriteFault,
    report: "asc: output failed\n",
    ..QUIET
};

const ERR_FAULT: Want = Want {
    answer: Answer::ErrFault,
    report: "asc: error output failed\n",
    ..QUIET
};

const REPORT_FAULT: Want = Want {
    answer: Answer::ReportFault,
    ..QUIET
};

const BYTEWISE: Outside = Outside { most: 1, ..SOUND };

/// LUI x10,0x20; LW x6,-3(x10), and then no instruction.
const LOADS: &[u32] = &[0x0002_0537, 0xFFD5_2303];

/// LUI x10,0x11; ADDI x6,x0,5; AMOADD.W x5,x6,(x10), twice; ADDI x10,x5,0; ADDI x17,x0,93; ECALL.
const ADDS: &[u32] = &[
    0x0001_1537,
    0x0050_0313,
    0x0065_22AF,
    0x0065_22AF,
    0x0002_8513,
    0x05D0_0893,
    0x0000_0073,
];

/// It writes three bytes at 0x10028, `Hi` and a line end, to file 1, and ends with 0.
const SAYS_HI: &[u32] = &[
    0x0400_0893, // ADDI x17,x0,64
    0x0010_0513, // ADDI x10,x0,1
    0x0001_05B7, // LUI x11,0x10
    0x0285_8593, // ADDI x11,x11,40
    0x0030_0613, // ADDI x12,x0,3
    0x0000_0073, // ECALL
    0x05D0_0893, // ADDI x17,x0,93
    0x0000_0513, // ADDI x10,x0,0
    0x0000_0073, // ECALL
    0,
    0x000A_6948,
];

/// The same to file 2.
const COMPLAINS: &[u32] = &[
    0x0400_0893,
    0x0020_0513,
    0x0001_05B7,
    0x0285_8593,
    0x0030_0613,
    0x0000_0073,
    0x05D0_0893,
    0x0000_0513,
    0x0000_0073,
    0,
    0x000A_6948,
];

/// It asks for its break to be at 0x20000, and ends with the number of the break's page: ADDI x17,x0,214; LUI x10,0x20;
/// ECALL; SRLI x10,x10,12; ADDI x17,x0,93; ECALL.
const BREAKS: &[u32] = &[
    0x0D60_0893,
    0x0002_0537,
    0x0000_0073,
    0x00C5_5513,
    0x05D0_0893,
    0x0000_0073,
];

static ROWS: [Row; 34] = [
    EXIT_SEVEN,
    // step_limits
    Row {
        line: "asc run image --steps 3",
        ..EXIT_SEVEN
    },
    Row {
        line: "asc run image --steps 2",
        want: REACHES_LIMIT,
        ..EXIT_SEVEN
    },
    Row {
        line: "asc run image --steps 0",
        want: Want {
            answer: Answer::Limit(0),
            report: "asc: limit after 0\n",
            ..QUIET
        },
        ..EXIT_SEVEN
    },
    // the report fails at its first call, and at its second, when three bytes are put
    Row {
        line: "asc run image --steps 2",
        devices: Outside {
            fails: [0, 0, 0, 0, 1],
            ..SOUND
        },
        want: REPORT_FAULT,
        ..EXIT_SEVEN
    },
    Row {
        line: "asc run image --steps 2",
        devices: Outside {
            fails: [0, 0, 0, 0, 2],
            ..SOUND
        },
        want: Want {
            report: "asc",
            ..REPORT_FAULT
        },
        ..EXIT_SEVEN
    },
    Row {
        devices: Outside {
            fails: [0, 0, 0, 0, 1],
            ..SOUND
        },
        ..EXIT_SEVEN
    },
    // load_outside: memory ends at 0x20000, and with one KiB more the load goes well
    Row {
        line: "asc run image --memory 64",
        program: LOADS,
        devices: SOUND,
        want: Want {
            answer: Answer::Fault(
                Fault {
                    kind: FaultKind::LoadOutside,
                    pc: 0x10004,
                    value: 0x1FFFD,
                },
                1,
            ),
            report: "asc: fault 4 at 00010004 value 0001fffd after 1\n",
            ..QUIET
        },
    },
    Row {
        line: "asc run --memory=65 image",
        program: LOADS,
        devices: SOUND,
        want: Want {
            answer: Answer::Fault(
                Fault {
                    kind: FaultKind::Illegal,
                    pc: 0x10008,
                    value: 0,
                },
                2,
            ),
            report: "asc: fault 3 at 00010008 value 00000000 after 2\n",
            ..QUIET
        },
    },
    // AMOADD.W twice, in each version
    Row {
        line: "asc run image --machine 2",
        program: ADDS,
        devices: SOUND,
        want: Want {
            answer: Answer::Exit(5),
            ..QUIET
        },
    },
    Row {
        line: "asc run image --machine 1",
        program: ADDS,
        devices: SOUND,
        want: Want {
            answer: Answer::Fault(
                Fault {
                    kind: FaultKind::Illegal,
                    pc: 0x10008,
                    value: 0x0065_22AF,
                },
                2,
            ),
            report: "asc: fault 3 at 00010008 value 006522af after 2\n",
            ..QUIET
        },
    },
    // illegal_and_break
    Row {
        program: &[0],
        want: Want {
            answer: Answer::Fault(
                Fault {
                    kind: FaultKind::Illegal,
                    pc: 0x10000,
                    value: 0,
                },
                0,
            ),
            report: "asc: fault 3 at 00010000 value 00000000 after 0\n",
            ..QUIET
        },
        ..EXIT_SEVEN
    },
    Row {
        program: &[0x0010_0073],
        want: Want {
            answer: Answer::Fault(
                Fault {
                    kind: FaultKind::Break,
                    pc: 0x10000,
                    value: 0,
                },
                0,
            ),
            report: "asc: fault 6 at 00010000 value 00000000 after 0\n",
            ..QUIET
        },
        ..EXIT_SEVEN
    },
    // bad_words
    Row {
        line: "",
        want: USAGE,
        ..EXIT_SEVEN
    },
    Row {
        line: "asc",
        want: USAGE,
        ..EXIT_SEVEN
    },
    Row {
        line: "asc run",
        want: USAGE,
        ..EXIT_SEVEN
    },
    Row {
        line: "asc fly x",
        want: USAGE,
        ..EXIT_SEVEN
    },
    Row {
        line: "asc run image --workers 65",
        want: USAGE,
        ..EXIT_SEVEN
    },
    Row {
        line: "asc run image --memory 65537",
        want: USAGE,
        ..EXIT_SEVEN
    },
    Row {
        line: "asc run image --memory 65536",
        ..EXIT_SEVEN
    },
    // a name that the store has not
    Row {
        line: "asc run imag",
        want: NO_FILE,
        ..EXIT_SEVEN
    },
    Row {
        line: "asc run ",
        want: NO_FILE,
        ..EXIT_SEVEN
    },
    // says_hi, one byte a call: nine steps, and out and err that fail or have no room
    Row {
        line: "asc run image --steps 9",
        program: SAYS_HI,
        devices: BYTEWISE,
        want: Want {
            out: "Hi\n",
            ..QUIET
        },
    },
    Row {
        line: "asc run image --steps 8",
        program: SAYS_HI,
        devices: BYTEWISE,
        want: Want {
            answer: Answer::Limit(8),
            out: "Hi\n",
            report: "asc: limit after 8\n",
            ..QUIET
        },
    },
    Row {
        program: SAYS_HI,
        devices: Outside {
            room: 3,
            ..BYTEWISE
        },
        want: Want {
            out: "Hi\n",
            ..QUIET
        },
        ..EXIT_SEVEN
    },
    Row {
        program: SAYS_HI,
        devices: Outside {
            room: 2,
            ..BYTEWISE
        },
        want: Want {
            out: "Hi",
            ..WRITE_FAULT
        },
        ..EXIT_SEVEN
    },
    Row {
        program: SAYS_HI,
        devices: Outside {
            fails: [0, 0, 2, 0, 0],
            ..BYTEWISE
        },
        want: Want {
            out: "H",
            ..WRITE_FAULT
        },
        ..EXIT_SEVEN
    },
    Row {
        line: "asc run image --steps 9",
        program: COMPLAINS,
        devices: Outside {
            room: 3,
            ..BYTEWISE
        },
        want: Want {
            err: "Hi\n",
            ..QUIET
        },
    },
    Row {
        line: "asc run image --steps 8",
        program: COMPLAINS,
        want: Want {
            answer: Answer::Limit(8),
            err: "Hi\n",
            report: "asc: limit after 8\n",
            ..QUIET
        },
        ..EXIT_SEVEN
    },
    // The break may rise to 64 KiB below the end of memory, and stays where it is asked to pass that.
    Row {
        line: "asc run image --memory 128",
        program: BREAKS,
        want: Want {
            answer: Answer::Exit(0x20),
            ..QUIET
        },
        ..EXIT_SEVEN
    },
    Row {
        line: "asc run image --memory 127",
        program: BREAKS,
        want: Want {
            answer: Answer::Exit(0x10),
            ..QUIET
        },
        ..EXIT_SEVEN
    },
    Row {
        program: COMPLAINS,
        devices: Outside {
            fails: [0, 0, 0, 1, 0],
            ..BYTEWISE
        },
        want: ERR_FAULT,
        ..EXIT_SEVEN
    },
    Row {
        program: COMPLAINS,
        devices: Outside {
            fails: [0, 0, 0, 3, 0],
            ..BYTEWISE
        },
        want: Want {
            err: "Hi",
            ..ERR_FAULT
        },
        ..EXIT_SEVEN
    },
    // The report fails in place of the answer that blames err.
    Row {
        program: COMPLAINS,
        devices: Outside {
            fails: [0, 0, 0, 3, 6],
            ..BYTEWISE
        },
        want: Want {
            err: "Hi",
            report: "asc: ",
            ..REPORT_FAULT
        },
        ..EXIT_SEVEN
    },
];

#[test]
fn whole_runs(rt: HostRuntime) -> Result<(), Fail> {
    let alloc = rt.alloc();
    for row in &ROWS {
        let file = wrap(alloc, row.program)?;
        // The greatest memory is taken once, and by no worker.
        if row.line.starts_with("asc run image") && !row.line.contains("65536") {
            check_guessed(
                &rt,
                alloc,
                row.line,
                " --pc 10000",
                &file,
                &row.devices,
                &row.want,
            )?;
        } else {
            check(&rt, alloc, row.line, file, &row.devices, &row.want)?;
        }
    }
    Ok(())
}

/// A loop of two instructions from 0x10008 on, which counts x5 from 0 to 4, and then an end with code 0. It does 13 steps.
pub(crate) const COUNTS: &[u32] = &[
    0x0000_0293, // ADDI x5,x0,0
    0x0040_0313, // ADDI x6,x0,4
    0x0012_8293, // ADDI x5,x5,1
    0xFE62_9EE3, // BNE x5,x6,-4
    0x05D0_0893, // ADDI x17,x0,93
    0x0000_0513, // ADDI x10,x0,0
    0x0000_0073, // ECALL
];

/// The program counts, and the numbers of its run are reported.
const COUNTING: Row = Row {
    line: "asc run image --report",
    program: COUNTS,
    devices: SOUND,
    want: Want {
        report: "asc: executed 13 skipped 0 asked 0 hits 0 made 0 refused 0\n",
        ..QUIET
    },
};

const VISITED: Want = Want {
    report: "asc: executed 13 skipped 0 asked 4 hits 0 made 0 refused 0\n",
    ..QUIET
};

const NO_ADDRESS: Want = Want {
    answer: Answer::Usage(Bad::Pc),
    ..USAGE
};

static NUMBERED: [Row; 36] = [
    COUNTING,
    // The recognised address: a jump is asked for at each visit.
    Row {
        line: "asc run image --pc 10008 --guess none --report",
        want: VISITED,
        ..COUNTING
    },
    Row {
        line: "asc run image --pc 10008",
        want: QUIET,
        ..COUNTING
    },
    Row {
        line: "asc run --report --guess none --pc=0001000c image",
        want: VISITED,
        ..COUNTING
    },
    Row {
        line: "asc run image --report --pc 1000C --guess=none",
        want: VISITED,
        ..COUNTING
    },
    Row {
        line: "asc run image --report --pc 10000",
        want: Want {
            report: "asc: executed 13 skipped 0 asked 1 hits 0 made 0 refused 0\n",
            ..QUIET
        },
        ..COUNTING
    },
    Row {
        line: "asc run image --report --pc FFFFFFFF",
        ..COUNTING
    },
    // Where the limit is reached the address is not visited.
    Row {
        line: "asc run image --pc 10008 --guess none --report --steps 6",
        want: Want {
            answer: Answer::Limit(6),
            report: "asc: limit after 6\nasc: executed 6 skipped 0 asked 2 hits 0 made 0 refused 0\n",
            ..QUIET
        },
        ..COUNTING
    },
    Row {
        line: "asc run image --pc 10000 --report --steps 0",
        want: Want {
            answer: Answer::Limit(0),
            report: "asc: limit after 0\nasc: executed 0 skipped 0 asked 0 hits 0 made 0 refused 0\n",
            ..QUIET
        },
        ..COUNTING
    },
    // Guesses, with a recognised address and with one that is chosen. Their numbers are worked out from the definitions.
    Row {
        line: "asc run image --pc 10008 --guess stride --ahead 2 --report",
        want: Want {
            report: "asc: executed 7 skipped 6 asked 4 hits 2 made 4 refused 0\n",
            ..QUIET
        },
        ..COUNTING
    },
    Row {
        line: "asc run image --pc 10008 --guess both --ahead 2 --report",
        want: Want {
            report: "asc: executed 5 skipped 8 asked 4 hits 3 made 8 refused 0\n",
            ..QUIET
        },
        ..COUNTING
    },
    Row {
        line: "asc run image --pc 10008 --guess stride --ahead 2 --report --steps 12",
        want: Want {
            answer: Answer::Limit(12),
            report: "asc: limit after 12\nasc: executed 6 skipped 6 asked 4 hits 2 made 4 refused 0\n",
            ..QUIET
        },
        ..COUNTING
    },
    Row {
        line: "asc run image --pc 10008 --guess stride --ahead 2 --report --steps 11",
        want: Want {
            answer: Answer::Limit(11),
            report: "asc: limit after 11\nasc: executed 9 skipped 2 asked 4 hits 1 made 4 refused 0\n",
            ..QUIET
        },
        ..COUNTING
    },
    // The entries of x5 = 2 and x5 = 3 are joined: one jump goes from the third visit to the end, where so many steps are left.
    Row {
        line: "asc run image --pc 10008 --guess stride --ahead 2 --join --report",
        want: Want {
            report: "asc: executed 7 skipped 6 asked 3 hits 1 made 3 refused 0\n",
            ..QUIET
        },
        ..COUNTING
    },
    Row {
        line: "asc run image --pc 10008 --guess stride --ahead 2 --join --report --steps 12",
        want: Want {
            answer: Answer::Limit(12),
            report: "asc: limit after 12\nasc: executed 6 skipped 6 asked 3 hits 1 made 3 refused 0\n",
            ..QUIET
        },
        ..COUNTING
    },
    Row {
        line: "asc run image --pc 10008 --guess stride --ahead 2 --join --report --steps 11",
        want: Want {
            answer: Answer::Limit(11),
            report: "asc: limit after 11\nasc: executed 9 skipped 2 asked 4 hits 1 made 4 refused 0\n",
            ..QUIET
        },
        ..COUNTING
    },
    Row {
        line: "asc run image --profile 6 --min 2 --ahead 2 --report",
        want: Want {
            report: "asc: executed 13 skipped 0 asked 2 hits 0 made 2 refused 0\n",
            ..QUIET
        },
        ..COUNTING
    },
    Row {
        line: "asc run image --profile 6 --min 3 --ahead 2 --report",
        ..COUNTING
    },
    // What nobody sees is not guessed.
    Row {
        line: "asc run image --pc 10008 --guess both --ahead 2",
        want: QUIET,
        ..COUNTING
    },
    // an instruction that meets a fault
    Row {
        line: "asc run image --report",
        program: &[0x0000_0293, 0],
        want: Want {
            answer: Answer::Fault(
                Fault {
                    kind: FaultKind::Illegal,
                    pc: 0x10004,
                    value: 0,
                },
                1,
            ),
            report: "asc: fault 3 at 00010004 value 00000000 after 1\n\
                     asc: executed 1 skipped 0 asked 0 hits 0 made 0 refused 0\n",
            ..QUIET
        },
        ..COUNTING
    },
    // addresses that are none, and flags that are wrong
    Row {
        line: "asc run image --pc 1000g",
        want: NO_ADDRESS,
        ..COUNTING
    },
    Row {
        line: "asc run image --pc ",
        want: NO_ADDRESS,
        ..COUNTING
    },
    Row {
        line: "asc run image --pc 000010008",
        want: NO_ADDRESS,
        ..COUNTING
    },
    Row {
        line: "asc run image --report --pc=+10008",
        want: NO_ADDRESS,
        ..COUNTING
    },
    Row {
        line: "asc run image --pc 1000g --steps x",
        want: USAGE,
        ..COUNTING
    },
    Row {
        line: "asc run image --report --report",
        want: USAGE,
        ..COUNTING
    },
    Row {
        line: "asc run image --report=yes",
        want: USAGE,
        ..COUNTING
    },
    // The report fails at its first call, and behind the answer's line, when three bytes are put at a time.
    Row {
        line: "asc run image --steps 2 --report",
        devices: Outside {
            fails: [0, 0, 0, 0, 1],
            ..SOUND
        },
        want: REPORT_FAULT,
        ..COUNTING
    },
    Row {
        line: "asc run image --steps 2 --report",
        devices: Outside {
            fails: [0, 0, 0, 0, 8],
            ..SOUND
        },
        want: Want {
            report: "asc: limit after 2\nas",
            ..REPORT_FAULT
        },
        ..COUNTING
    },
    Row {
        devices: Outside {
            fails: [0, 0, 0, 0, 1],
            ..SOUND
        },
        want: REPORT_FAULT,
        ..COUNTING
    },
    // A guest that puts something, and one whose device fails: that has no numbers.
    Row {
        program: SAYS_HI,
        devices: BYTEWISE,
        want: Want {
            out: "Hi\n",
            report: "asc: executed 9 skipped 0 asked 0 hits 0 made 0 refused 0\n",
            ..QUIET
        },
        ..COUNTING
    },
    Row {
        line: "asc run image --steps 8 --report --pc 10014",
        program: SAYS_HI,
        want: Want {
            answer: Answer::Limit(8),
            out: "Hi\n",
            report: "asc: limit after 8\nasc: executed 8 skipped 0 asked 1 hits 0 made 0 refused 0\n",
            ..QUIET
        },
        ..COUNTING
    },
    Row {
        program: SAYS_HI,
        devices: Outside {
            fails: [0, 0, 1, 0, 0],
            ..SOUND
        },
        want: WRITE_FAULT,
        ..COUNTING
    },
    Row {
        program: COMPLAINS,
        devices: Outside {
            fails: [0, 0, 0, 1, 0],
            ..SOUND
        },
        want: ERR_FAULT,
        ..COUNTING
    },
    // a name that the store has not, and a store that fails
    Row {
        line: "asc run imag --report",
        want: NO_FILE,
        ..COUNTING
    },
    Row {
        devices: Outside {
            fails: [1, 0, 0, 0, 0],
            ..SOUND
        },
        want: NO_FILE,
        ..COUNTING
    },
];

#[test]
fn numbered_runs(rt: HostRuntime) -> Result<(), Fail> {
    let alloc = rt.alloc();
    for row in &NUMBERED {
        let file = wrap(alloc, row.program)?;
        check_rounds(&rt, alloc, row.line, &file)?;
        check(&rt, alloc, row.line, file, &row.devices, &row.want)?;
    }
    Ok(())
}

/// It reads at most four bytes to 0x10100, writes them to file 1, and begins again, until the input ends.
const ECHO: &[u32] = &[
    0x03F0_0893, // ADDI x17,x0,63
    0x0000_0513, // ADDI x10,x0,0
    0x0001_05B7, // LUI x11,0x10
    0x1005_8593, // ADDI x11,x11,256
    0x0040_0613, // ADDI x12,x0,4
    0x0000_0073, // ECALL
    0x0005_0C63, // BEQ x10,x0,24
    0x0005_0613, // ADDI x12,x10,0
    0x0400_0893, // ADDI x17,x0,64
    0x0010_0513, // ADDI x10,x0,1
    0x0000_0073, // ECALL
    0xFD5F_F06F, // JAL x0,-44
    0x05D0_0893, // ADDI x17,x0,93
    0x0000_0513, // ADDI x10,x0,0
    0x0000_0073, // ECALL
];

// The line, the calls of the store, the input, out, err and the report that fail, and then the answer, out and the
// report. The program does 34 steps, and asks the input four times and out three times, for at most three bytes.
static ECHOES: [(&str, [u64; 5], Answer, &str, &str); 25] = [
    ("asc run image", [0; 5], Answer::Exit(0), "abcdefg", ""),
    (
        "asc run image",
        [2, 5, 4, 1, 1],
        Answer::Exit(0),
        "abcdefg",
        "",
    ),
    (
        "asc run image --steps 34",
        [0; 5],
        Answer::Exit(0),
        "abcdefg",
        "",
    ),
    (
        "asc run image --steps 33",
        [0; 5],
        Answer::Limit(33),
        "abcdefg",
        "asc: limit after 33\n",
    ),
    (
        "asc run image --steps 33",
        [0, 0, 0, 0, 1],
        Answer::ReportFault,
        "abcdefg",
        "",
    ),
    (
        "asc run image --steps 33",
        [0, 0, 0, 0, 7],
        Answer::ReportFault,
        "abcdefg",
        "asc: limit after 3",
    ),
    (
        "asc run image --steps 33",
        [0, 0, 0, 0, 8],
        Answer::Limit(33),
        "abcdefg",
        "asc: limit after 33\n",
    ),
    (
        "asc run image",
        [1, 0, 0, 0, 0],
        Answer::StoreFault,
        "",
        "asc: store failed\n",
    ),
    (
        "asc run image",
        [1, 0, 0, 0, 1],
        Answer::ReportFault,
        "",
        "",
    ),
    (
        "asc run image",
        [0, 1, 0, 0, 0],
        Answer::ReadFault,
        "",
        "asc: input failed\n",
    ),
    (
        "asc run image",
        [0, 2, 0, 0, 0],
        Answer::ReadFault,
        "",
        "asc: input failed\n",
    ),
    (
        "asc run image",
        [0, 3, 0, 0, 0],
        Answer::ReadFault,
        "abcd",
        "asc: input failed\n",
    ),
    (
        "asc run image",
        [0, 4, 0, 0, 0],
        Answer::ReadFault,
        "abcd",
        "asc: input failed\n",
    ),
    (
        "asc run image",
        [0, 0, 1, 0, 0],
        Answer::WriteFault,
        "",
        "asc: output failed\n",
    ),
    (
        "asc run image",
        [0, 0, 2, 0, 0],
        Answer::WriteFault,
        "abc",
        "asc: output failed\n",
    ),
    (
        "asc run image",
        [0, 0, 3, 0, 0],
        Answer::WriteFault,
        "abcd",
        "asc: output failed\n",
    ),
    (
        "asc run image",
        [0, 0, 3, 0, 1],
        Answer::ReportFault,
        "abcd",
        "",
    ),
    (
        "asc run image --report --pc 10000 --guess none",
        [0; 5],
        Answer::Exit(0),
        "abcdefg",
        "asc: executed 34 skipped 0 asked 3 hits 0 made 0 refused 0\n",
    ),
    (
        "asc run image --report --steps 33",
        [0; 5],
        Answer::Limit(33),
        "abcdefg",
        "asc: limit after 33\nasc: executed 33 skipped 0 asked 0 hits 0 made 0 refused 0\n",
    ),
    (
        "asc run image --report",
        [0, 3, 0, 0, 0],
        Answer::ReadFault,
        "abcd",
        "asc: input failed\n",
    ),
    (
        "asc run image --report",
        [0, 0, 2, 0, 0],
        Answer::WriteFault,
        "abc",
        "asc: output failed\n",
    ),
    (
        "asc run image --report",
        [0, 0, 0, 0, 1],
        Answer::ReportFault,
        "abcdefg",
        "",
    ),
    (
        "asc run image --report --pc 10000 --guess both",
        [0, 0, 0, 0, 1],
        Answer::ReportFault,
        "abcdefg",
        "",
    ),
    (
        "asc run image --report --pc 10000 --guess both --workers 2",
        [0, 0, 0, 0, 1],
        Answer::ReportFault,
        "abcdefg",
        "",
    ),
    (
        "asc run image --report",
        [0, 0, 0, 0, 2],
        Answer::ReportFault,
        "abcdefg",
        "asc",
    ),
];

#[test]
fn echo_failing_once(rt: HostRuntime) -> Result<(), Fail> {
    let alloc = rt.alloc();
    for (line, fails, answer, out, report) in &ECHOES {
        let outside = Outside {
            input: "abcdefg",
            fails: *fails,
            ..SOUND
        };
        let want = Want {
            answer: *answer,
            out,
            err: "",
            asked: 1,
            report,
        };
        let file = wrap(alloc, ECHO)?;
        if line.contains("--report") {
            check(&rt, alloc, line, file, &outside, &want)?;
        } else {
            check_guessed(&rt, alloc, line, " --pc 10000", &file, &outside, &want)?;
        }
    }
    Ok(())
}

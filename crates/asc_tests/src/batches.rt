//! Batches: one image over several inputs.
use crate::images::wrap;
use crate::outside::{Outside, QUIET, SOUND, Want, check, run_gated};
use crate::sought::COUNTS;
use asc_outside::Open;
use asc_words::{Answer, Bad};
use std::alloc::{AllocError, Global};
use std::process::Abort;
use std::sync::Wait;
use std::test::Fail;
use std::thread::Threads;

/// It reads a byte, counts from there up to 4 in a loop at 10020, and ends with 0.
const READING: &[u32] = &[
    0x03F0_0893, // ADDI x17,x0,63
    0x0000_0513, // ADDI x10,x0,0
    0x0001_05B7, // LUI x11,0x10
    0x1005_8593, // ADDI x11,x11,256
    0x0010_0613, // ADDI x12,x0,1
    0x0000_0073, // ECALL
    0x0005_C283, // LBU x5,0(x11)
    0x0040_0313, // ADDI x6,x0,4
    0x0012_8293, // ADDI x5,x5,1
    0xFE62_9EE3, // BNE x5,x6,-4
    0x05D0_0893, // ADDI x17,x0,93
    0x0000_0513, // ADDI x10,x0,0
    0x0000_0073, // ECALL
];

/// It reads up to three bytes, writes them to file 1, and ends with 0.
const ECHO: &[u32] = &[
    0x03F0_0893,
    0x0000_0513,
    0x0001_05B7,
    0x1005_8593,
    0x0030_0613, // ADDI x12,x0,3
    0x0000_0073,
    0x0005_0613, // ADDI x12,x10,0
    0x0400_0893, // ADDI x17,x0,64
    0x0010_0513, // ADDI x10,x0,1
    0x0000_0073,
    0x05D0_0893,
    0x0000_0513,
    0x0000_0073,
];

/// The same to file 2.
const COMPLAIN: &[u32] = &[
    0x03F0_0893,
    0x0000_0513,
    0x0001_05B7,
    0x1005_8593,
    0x0030_0613,
    0x0000_0073,
    0x0005_0613,
    0x0400_0893,
    0x0020_0513, // ADDI x10,x0,2
    0x0000_0073,
    0x05D0_0893,
    0x0000_0513,
    0x0000_0073,
];

/// It reads a byte. At 0 it goes on for ever, at 1 it comes to no instruction, and else it ends with one less.
const ENDING: &[u32] = &[
    0x03F0_0893,
    0x0000_0513,
    0x0001_05B7,
    0x1005_8593,
    0x0010_0613,
    0x0000_0073,
    0x0005_C283,
    0x0002_8063, // BEQ x5,x0,0
    0xFFF2_8293, // ADDI x5,x5,-1
    0x0002_9463, // BNE x5,x0,8
    0,
    0x05D0_0893,
    0x0002_8513, // ADDI x10,x5,0
    0x0000_0073,
];

/// It asks for its break, moves it to 0x20000, and ends with the number of the page at which it was.
const BREAKS: &[u32] = &[
    0x0D60_0893, // ADDI x17,x0,214
    0x0000_0513,
    0x0000_0073,
    0x00C5_5293, // SRLI x5,x10,12
    0x0002_0537, // LUI x10,0x20
    0x0000_0073,
    0x05D0_0893,
    0x0002_8513,
    0x0000_0073,
];

/// A batch over inputs `0` to `3`, of which there are as many as are given, and what must come of it.
struct Row {
    line: &'static str,
    program: &'static [u32],
    inputs: &'static [&'static str],
    devices: Outside,
    want: Want,
}

const DONE: Want = Want {
    answer: Answer::Done(0),
    ..QUIET
};

static ROWS: [Row; 16] = [
    // What the first run has learnt holds in the second.
    Row {
        line: "asc batch image 0 1 --pc 10020 --ahead 2 --report",
        program: READING,
        inputs: &["\0", "\u{2}"],
        devices: SOUND,
        want: Want {
            asked: 3,
            report: "asc: run 0: exit 0 after 19\n\
                asc: executed 13 skipped 6 asked 4 hits 2 made 4 refused 0\n\
                asc: run 1: exit 0 after 15\n\
                asc: executed 9 skipped 6 asked 2 hits 2 made 2 refused 0\n",
            ..DONE
        },
    },
    Row {
        line: "asc batch image 0 --pc 10020 --ahead 2 --report",
        program: READING,
        inputs: &["\u{2}"],
        devices: SOUND,
        want: Want {
            asked: 2,
            report: "asc: run 0: exit 0 after 15\n\
                asc: executed 15 skipped 0 asked 2 hits 0 made 2 refused 0\n",
            ..DONE
        },
    },
    // Each run seeks its address anew.
    Row {
        line: "asc batch image 0 1 --seek --report",
        program: COUNTS,
        inputs: &["", ""],
        devices: SOUND,
        want: Want {
            asked: 3,
            report: "asc: run 0: exit 0 after 262149\n\
                asc: executed 65541 skipped 196608 asked 98305 hits 98303 made 98307 refused 0\n\
                asc: run 1: exit 0 after 262149\n\
                asc: executed 65541 skipped 196608 asked 98305 hits 98303 made 98307 refused 0\n",
            ..DONE
        },
    },
    // Each run has its own input, to its own end, and the outputs stand one behind the other.
    Row {
        line: "asc batch image 0 1 2",
        program: ECHO,
        inputs: &["", "ab", "xyz!"],
        devices: SOUND,
        want: Want {
            asked: 4,
            out: "abxyz",
            report: "asc: run 0: exit 0 after 13\nasc: run 1: exit 0 after 13\nasc: run 2: exit 0 after 13\n",
            ..DONE
        },
    },
    Row {
        line: "asc batch image 1 0 1",
        program: COMPLAIN,
        inputs: &["ab", "x"],
        devices: SOUND,
        want: Want {
            asked: 4,
            err: "xabx",
            report: "asc: run 0: exit 0 after 13\nasc: run 1: exit 0 after 13\nasc: run 2: exit 0 after 13\n",
            ..DONE
        },
    },
    // A limit and a fault end their run, and not the batch.
    Row {
        line: "asc batch image 0 1 2 --steps 20",
        program: ENDING,
        inputs: &["\0", "\u{1}", "\u{3}"],
        devices: SOUND,
        want: Want {
            asked: 4,
            report: "asc: run 0: limit after 20\n\
                asc: run 1: fault 3 at 00010028 value 00000000 after 10\n\
                asc: run 2: exit 2 after 13\n",
            ..DONE
        },
    },
    // Each run has its own break.
    Row {
        line: "asc batch image 0 0",
        program: BREAKS,
        inputs: &[""],
        devices: SOUND,
        want: Want {
            asked: 3,
            report: "asc: run 0: exit 16 after 9\nasc: run 1: exit 16 after 9\n",
            ..DONE
        },
    },
    // A file that the store does not have, and one at which it fails.
    Row {
        line: "asc batch image 0 absent 1",
        program: ECHO,
        inputs: &["ab", "cd"],
        devices: SOUND,
        want: Want {
            answer: Answer::StoreFault,
            asked: 3,
            report: "asc: store failed\n",
            ..QUIET
        },
    },
    Row {
        line: "asc batch image 0 1",
        program: ECHO,
        inputs: &["ab", "cd"],
        devices: Outside {
            most: 1,
            fails: [1, 0, 0, 0, 0],
            ..SOUND
        },
        want: Want {
            answer: Answer::StoreFault,
            asked: 1,
            report: "asc: store failed\n",
            ..QUIET
        },
    },
    Row {
        line: "asc batch image",
        program: ECHO,
        inputs: &[],
        devices: SOUND,
        want: Want {
            answer: Answer::Usage(Bad::Words),
            asked: 0,
            report: "asc: usage\n",
            ..QUIET
        },
    },
    // Out, err and the report fail in the second of three runs, at its first and its second call, which moves one byte.
    Row {
        line: "asc batch image 0 1 2",
        program: ECHO,
        inputs: &["ab", "cd", "ef"],
        devices: Outside {
            most: 1,
            fails: [0, 0, 3, 0, 0],
            ..SOUND
        },
        want: Want {
            answer: Answer::WriteFault,
            asked: 4,
            out: "ab",
            report: "asc: run 0: exit 0 after 13\nasc: output failed\n",
            ..QUIET
        },
    },
    Row {
        line: "asc batch image 0 1 2",
        program: ECHO,
        inputs: &["ab", "cd", "ef"],
        devices: Outside {
            most: 1,
            fails: [0, 0, 4, 0, 0],
            ..SOUND
        },
        want: Want {
            answer: Answer::WriteFault,
            asked: 4,
            out: "abc",
            report: "asc: run 0: exit 0 after 13\nasc: output failed\n",
            ..QUIET
        },
    },
    Row {
        line: "asc batch image 0 1 2",
        program: COMPLAIN,
        inputs: &["ab", "cd", "ef"],
        devices: Outside {
            most: 1,
            fails: [0, 0, 0, 3, 0],
            ..SOUND
        },
        want: Want {
            answer: Answer::ErrFault,
            asked: 4,
            err: "ab",
            report: "asc: run 0: exit 0 after 13\nasc: error output failed\n",
            ..QUIET
        },
    },
    Row {
        line: "asc batch image 0 1 2",
        program: COMPLAIN,
        inputs: &["ab", "cd", "ef"],
        devices: Outside {
            most: 1,
            fails: [0, 0, 0, 4, 0],
            ..SOUND
        },
        want: Want {
            answer: Answer::ErrFault,
            asked: 4,
            err: "abc",
            report: "asc: run 0: exit 0 after 13\nasc: error output failed\n",
            ..QUIET
        },
    },
    Row {
        line: "asc batch image 0 1 2",
        program: ECHO,
        inputs: &["ab", "cd", "ef"],
        devices: Outside {
            most: 1,
            fails: [0, 0, 0, 0, 29],
            ..SOUND
        },
        want: Want {
            answer: Answer::ReportFault,
            asked: 4,
            out: "abcd",
            report: "asc: run 0: exit 0 after 13\n",
            ..QUIET
        },
    },
    Row {
        line: "asc batch image 0 1 2",
        program: ECHO,
        inputs: &["ab", "cd", "ef"],
        devices: Outside {
            most: 1,
            fails: [0, 0, 0, 0, 30],
            ..SOUND
        },
        want: Want {
            answer: Answer::ReportFault,
            asked: 4,
            out: "abcd",
            report: "asc: run 0: exit 0 after 13\na",
            ..QUIET
        },
    },
];

/// The store of a batch: the image, and the inputs by their numbers.
fn files_of(
    alloc: Global,
    program: &[u32],
    inputs: &[&str],
) -> Result<Vec<(String, Vec<u8>)>, AllocError> {
    let mut files = Vec::new(alloc);
    files.push((String::from_str(alloc, "image")?, wrap(alloc, program)?))?;
    for (name, input) in ["0", "1", "2", "3"].into_iter().zip(inputs) {
        files.push((
            String::from_str(alloc, name)?,
            input.as_bytes().to_vec(alloc)?,
        ))?;
    }
    Ok(files)
}

/// Runs a batch, and compares what came of it with what must.
fn check_batch<R: Abort + Threads + Wait + Sync + Copy + Drop + Send>(
    rt: &R,
    alloc: Global,
    line: &str,
    row: &Row,
) -> Result<(), AllocError> {
    let files = files_of(alloc, row.program, row.inputs)?;
    let got = run_gated(rt, alloc, line, files, &row.devices, &Open)?;
    let put = (got.out(), got.err(), got.report.bytes());
    let want = &row.want;
    let wanted = (
        want.out.as_bytes(),
        want.err.as_bytes(),
        want.report.as_bytes(),
    );
    assert_eq!(rt; (got.answer, put), (want.answer, wanted), "at {line}");
    assert_eq!(rt; got.asked(rt), want.asked, "at {line}");
    Ok(())
}

/// Each batch, and where no numbers are reported also with workers, which change nothing of it.
#[test]
fn batches(rt: HostRuntime) -> Result<(), Fail> {
    let alloc = rt.alloc();
    for row in &ROWS {
        check_batch(&rt, alloc, row.line, row)?;
        if row.line.contains("--report") || row.line == "asc batch image" {
            continue;
        }
        for workers in [
            " --workers 1",
            " --workers 2 --guess both",
            " --workers 64 --pc 10020",
        ] {
            let line = format!(in alloc; "{0}{workers}", row.line)?;
            check_batch(&rt, alloc, line.as_str(), row)?;
        }
    }
    Ok(())
}

/// A line with the same input so often.
fn line_with(alloc: Global, inputs: usize) -> Result<String, AllocError> {
    let mut line = String::from_str(alloc, "asc batch image --guess none")?;
    for _ in 0..inputs {
        line.push_str(" 0")?;
    }
    Ok(line)
}

/// At most 64 inputs are run, which may be the same, and none that is too long.
#[test]
fn inputs(rt: HostRuntime) -> Result<(), Fail> {
    let alloc = rt.alloc();
    let line = line_with(alloc, 65)?;
    let files = files_of(alloc, READING, &["\0"])?;
    let got = run_gated(&rt, alloc, line.as_str(), files, &SOUND, &Open)?;
    assert_eq!(rt;
        (got.answer, got.asked(&rt)),
        (Answer::Usage(Bad::Inputs), 0)
    );
    assert_eq!(rt; got.report.bytes(), "asc: usage\n".as_bytes());
    let line = line_with(alloc, 64)?;
    let files = files_of(alloc, READING, &["\0"])?;
    let got = run_gated(&rt, alloc, line.as_str(), files, &SOUND, &Open)?;
    assert_eq!(rt; (got.answer, got.asked(&rt)), (Answer::Done(0), 65));
    let report = str::from_utf8(got.report.bytes()).expect(&rt, "text");
    assert_eq!(rt; report.split(" exit 0 after 19\n").count(), 65);
    let mut files = files_of(alloc, ECHO, &["ab", "cd", "", "gh"])?;
    if let Some((_, input)) = files.get_mut(3) {
        input.resize(67_108_865, 0)?;
    }
    let line = "asc batch image 0 1 2 3";
    let got = run_gated(&rt, alloc, line, files, &SOUND, &Open)?;
    assert_eq!(rt; (got.answer, got.asked(&rt)), (Answer::InputTooLong(2), 4));
    let put = (got.out(), got.report.bytes());
    assert_eq!(rt; put, ("".as_bytes(), "asc: input 2 too long\n".as_bytes()));
    Ok(())
}

/// With workers the numbers of each run are its own, and add up.
#[test]
fn counted_batches(rt: HostRuntime) -> Result<(), Fail> {
    let alloc = rt.alloc();
    let line = "asc batch image 0 1 0 --pc 10020 --ahead 2 --report --workers 2";
    let files = files_of(alloc, READING, &["\0", "\u{2}"])?;
    let got = run_gated(&rt, alloc, line, files, &SOUND, &Open)?;
    assert_eq!(rt; got.answer, Answer::Done(0));
    check_counts(&rt, str::from_utf8(got.report.bytes()).expect(&rt, "text"));
    Ok(())
}

/// Checks the lines of three runs, and the numbers of each.
fn check_counts<R: Abort>(rt: &R, report: &str) {
    let mut lines = report.lines();
    for (head, steps, asked) in [
        ("asc: run 0: exit 0 after 19", 19, 4),
        ("asc: run 1: exit 0 after 15", 15, 2),
        ("asc: run 2: exit 0 after 19", 19, 4),
    ] {
        assert_eq!(rt; lines.next().expect(rt, "a line of the run"), head);
        let told = numbers(lines.next().expect(rt, "its numbers"));
        assert_eq!(rt; told[0].wrapping_add(told[1]), steps, "at {report}");
        assert!(rt; told[2] <= asked, "at {report}");
        let workers = numbers(lines.next().expect(rt, "those of its workers"));
        assert_eq!(rt; workers[0].wrapping_add(workers[1]), told[4], "at {report}");
        let columns = workers[2..7]
            .iter()
            .fold(0, |sum: u64, n| sum.wrapping_add(*n));
        assert_eq!(rt; columns, workers[0], "at {report}");
    }
    assert!(rt; lines.next().is_none());
}

/// The numbers of a line, in its order.
fn numbers(line: &str) -> [u64; 8] {
    let mut numbers = [0; 8];
    let told = line.split(' ').filter_map(|word| word.parse().ok());
    for (number, value) in numbers.iter_mut().zip(told) {
        *number = value;
    }
    numbers
}

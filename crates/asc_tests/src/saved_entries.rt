//! Saved entries: files that saves leave, runs that load one, and files that are refused.
use crate::images::{CODE, FIRST, wrap};
use crate::outside::{Got, Outside, SOUND, run_gated};
use crate::sought;
use crate::whole_runs::COUNTS;
use asc_elf::ElfFault;
use asc_model::SaveFault;
use asc_outside::Open;
use asc_words::{Answer, SavedFault};
use std::alloc::{AllocError, Global};
use std::process::Abort;
use std::sync::Wait;
use std::test::Fail;
use std::thread::Threads;

/// A run of the counting loop that loads the file with these bytes put over it and so many bytes, and what comes of it.
struct Row {
    line: &'static str,
    bytes: &'static [(usize, u8)],
    length: usize,
    answer: Answer,
    report: &'static str,
}

/// The file as it was saved.
const SAVED: Row = Row {
    line: "asc run image --pc 10008 --guess none --load saved",
    bytes: &[],
    length: 724,
    answer: Answer::Exit(0),
    report: "",
};

/// A run that loads the file, and reports its numbers.
const LOADS: &str = "asc run image --pc 10008 --guess none --load saved --report";

/// Laps 1 and 2 are run. The others are jumped over, by 2 steps and by 4.
const REPORTED: Row = Row {
    line: LOADS,
    report: "asc: executed 7 skipped 6 asked 4 hits 2 made 0 refused 0\n",
    ..SAVED
};

static ROWS: [Row; 20] = [
    SAVED,
    REPORTED,
    Row {
        line: "asc run image --pc 10008 --guess none --load saved --report --workers 2",
        report: "asc: executed 7 skipped 6 asked 4 hits 2 made 0 refused 0\n\
            asc: ran 0 left 0 stored 0 known 0 empty 0 dropped 0 stopped 0 full 0\n",
        ..SAVED
    },
    // The first entry alone.
    Row {
        line: "asc run image --pc 10008 --guess none --load saved --report --workers 2",
        bytes: &[(16, 1)],
        length: 176,
        report: "asc: executed 11 skipped 2 asked 4 hits 1 made 0 refused 0\n\
            asc: ran 0 left 0 stored 0 known 0 empty 0 dropped 0 stopped 0 full 0\n",
        ..SAVED
    },
    // In rounds the numbers are those without workers. With strides each of four guesses makes an entry that is held.
    Row {
        line: "asc run image --pc 10008 --guess none --load saved --report --workers 2 --rounds",
        report: "asc: executed 7 skipped 6 asked 4 hits 2 made 0 refused 0\n",
        ..SAVED
    },
    Row {
        line: "asc run image --pc 10008 --ahead 2 --load saved --report --workers 3 --rounds",
        report: "asc: executed 7 skipped 6 asked 4 hits 2 made 4 refused 0\n",
        ..SAVED
    },
    Row {
        length: 723,
        answer: Answer::Saved(SavedFault::File(SaveFault::Short)),
        report: "asc: saved fault 1\n",
        ..SAVED
    },
    Row {
        bytes: &[(0, 0x42)],
        answer: Answer::Saved(SavedFault::File(SaveFault::Magic)),
        report: "asc: saved fault 2\n",
        ..SAVED
    },
    Row {
        bytes: &[(4, 2)],
        answer: Answer::Saved(SavedFault::File(SaveFault::Version)),
        report: "asc: saved fault 3\n",
        ..SAVED
    },
    Row {
        bytes: &[(5, 3)],
        answer: Answer::Saved(SavedFault::File(SaveFault::Machine)),
        report: "asc: saved fault 4\n",
        ..SAVED
    },
    Row {
        bytes: &[(6, 1)],
        answer: Answer::Saved(SavedFault::File(SaveFault::Machine)),
        report: "asc: saved fault 4\n",
        ..SAVED
    },
    // a size of 65,532
    Row {
        bytes: &[(12, 0xFC), (13, 0xFF), (14, 0)],
        answer: Answer::Saved(SavedFault::File(SaveFault::Shape)),
        report: "asc: saved fault 5\n",
        ..SAVED
    },
    // a count of 1,025
    Row {
        bytes: &[(16, 1), (17, 4)],
        answer: Answer::Saved(SavedFault::File(SaveFault::Count)),
        report: "asc: saved fault 6\n",
        ..SAVED
    },
    // no steps
    Row {
        bytes: &[(20, 0)],
        answer: Answer::Saved(SavedFault::File(SaveFault::Entry(0))),
        report: "asc: saved fault 7 entry 0\n",
        ..SAVED
    },
    Row {
        length: 725,
        answer: Answer::Saved(SavedFault::File(SaveFault::Long)),
        report: "asc: saved fault 8\n",
        ..SAVED
    },
    // a step more
    Row {
        bytes: &[(20, 3)],
        answer: Answer::Saved(SavedFault::File(SaveFault::Untrue(0))),
        report: "asc: saved fault 9 entry 0\n",
        ..SAVED
    },
    Row {
        bytes: &[(723, 0xA5)],
        answer: Answer::Saved(SavedFault::File(SaveFault::Untrue(3))),
        report: "asc: saved fault 9 entry 3\n",
        ..SAVED
    },
    // refused beside workers too
    Row {
        line: "asc run image --pc 10008 --guess none --load saved --report --workers 2",
        bytes: &[(723, 0xA5)],
        answer: Answer::Saved(SavedFault::File(SaveFault::Untrue(3))),
        report: "asc: saved fault 9 entry 3\n",
        ..SAVED
    },
    Row {
        line: "asc run image --memory 64 --pc 10008 --guess none --load saved",
        answer: Answer::Saved(SavedFault::OtherShape),
        report: "asc: saved fault 10\n",
        ..SAVED
    },
    Row {
        line: "asc run image --pc 10008 --guess none --load absent",
        answer: Answer::StoreFault,
        report: "asc: store failed\n",
        ..SAVED
    },
];

/// A save of an image of these words, of which a call of out may fail, and what comes of it.
struct Save {
    line: &'static str,
    words: &'static [u32],
    out_fails: u64,
    answer: Answer,
    out: &'static [u8],
    report: &'static str,
}

/// A file without entries: `ASCE`, the file's version and the machine's, and the guest's base, size and count of entries.
const EMPTY: [u8; 20] = [
    0x41, 0x53, 0x43, 0x45, 1, 2, 0, 0, 0, 0, 1, 0, 0, 0, 0x10, 0, 0, 0, 0, 0,
];

/// A file of one entry, of the two steps of the lap from x5 = 0x8001 on: places with their bytes, first those that are read.
const ONE_LAP: [u8; 176] = [
    0x41, 0x53, 0x43, 0x45, 1, 2, 0, 0, 0, 0, 1, 0, 0, 0, 0x10, 0, 1, 0, 0, 0, //
    2, 0, 0, 0, 0, 0, 0, 0, 20, 0, 0, 0, 8, 0, 0, 0, // steps, and how many places are read and written
    0, 0, 0, 0, 0x08, 1, 0, 0, 0, 0x00, 2, 0, 0, 0, 0x01, 3, 0, 0, 0, 0x00, // the pc
    20, 0, 0, 0, 0x01, 21, 0, 0, 0, 0x80, 22, 0, 0, 0, 0x00, 23, 0, 0, 0, 0x00, // x5
    24, 0, 0, 0, 0x00, 25, 0, 0, 0, 0x00, 26, 0, 0, 0, 0x02, 27, 0, 0, 0, 0x00, // x6
    144, 0, 0, 0, 0x93, 145, 0, 0, 0, 0x82, 146, 0, 0, 0, 0x12, 147, 0, 0, 0, 0x00, // 0x10008
    148, 0, 0, 0, 0xE3, 149, 0, 0, 0, 0x9E, 150, 0, 0, 0, 0x62, 151, 0, 0, 0, 0xFE, // 0x1000C
    0, 0, 0, 0, 0x08, 1, 0, 0, 0, 0x00, 2, 0, 0, 0, 0x01, 3, 0, 0, 0, 0x00, // the pc
    20, 0, 0, 0, 0x02, 21, 0, 0, 0, 0x80, 22, 0, 0, 0, 0x00, 23, 0, 0, 0, 0x00, // x5
];

/// The guest comes to its limit.
const STOPPED: Save = Save {
    line: "asc save image --steps 2",
    words: COUNTS,
    out_fails: 0,
    answer: Answer::Done(0),
    out: &EMPTY,
    report: "",
};

static SAVES: [Save; 6] = [
    STOPPED,
    // Its address is sought, and it is stopped in the second lap of a trial.
    Save {
        line: "asc save image --seek --ahead 1 --steps 65540",
        words: sought::COUNTS,
        out: &ONE_LAP,
        ..STOPPED
    },
    // It ends with code 7, or meets a word that is no instruction.
    Save {
        words: &[0x05D0_0893, 0x0070_0513, 0x0000_0073],
        ..STOPPED
    },
    Save {
        words: &[0],
        ..STOPPED
    },
    Save {
        out_fails: 1,
        answer: Answer::WriteFault,
        out: &[],
        report: "asc: output failed\n",
        ..STOPPED
    },
    // What it writes is only counted.
    Save {
        words: &[
            0x0010_0513, // ADDI x10,x0,1
            0x0001_05B7, // LUI x11,0x10
            0x0040_0613, // ADDI x12,x0,4
            0x0400_0893, // ADDI x17,x0,64
            0x0000_0073, // ECALL
            0x05D0_0893, // ADDI x17,x0,93
            0x0000_0073, // ECALL
        ],
        ..STOPPED
    },
];

/// Room for the file, which is put 200 bytes at a time.
const ROOMY: Outside = Outside {
    most: 200,
    room: 1200,
    ..SOUND
};

/// Runs the words of a command line over a store that has this image, and this file as `saved`.
fn run_saved<R: Abort + Threads + Wait + Sync + Copy + Drop + Send>(
    rt: &R,
    alloc: Global,
    line: &str,
    image: Vec<u8>,
    saved: Vec<u8>,
    outside: &Outside,
) -> Result<Got, AllocError> {
    let mut files = Vec::new(alloc);
    files.push((String::from_str(alloc, "image")?, image))?;
    files.push((String::from_str(alloc, "saved")?, saved))?;
    run_gated(rt, alloc, line, files, outside, &Open)
}

/// Runs such a line, and compares its answer, how often the store was asked, and the report with what must come.
fn check_saved<R: Abort + Threads + Wait + Sync + Copy + Drop + Send>(
    rt: &R,
    alloc: Global,
    line: &str,
    image: Vec<u8>,
    saved: Vec<u8>,
    outside: &Outside,
    want: (Answer, usize, &str),
) -> Result<(), AllocError> {
    let got = run_saved(rt, alloc, line, image, saved, outside)?;
    assert_eq!(rt; (got.answer, got.asked(rt)), (want.0, want.1), "at {line}");
    assert_eq!(rt; got.report.bytes(), want.2.as_bytes(), "at {line}");
    Ok(())
}

/// The file that a save of a program leaves, which must have so many bytes. These are the steps of its first four entries.
fn left_by<R: Abort + Threads + Wait + Sync + Copy + Drop + Send>(
    rt: &R,
    alloc: Global,
    line: &str,
    program: &[u32],
    outside: &Outside,
    want: (usize, [usize; 4]),
) -> Result<Vec<u8>, AllocError> {
    let image = wrap(alloc, program)?;
    let got = run_saved(rt, alloc, line, image, Vec::new(alloc), outside)?;
    assert_eq!(rt;
        (got.answer, got.asked(rt)),
        (Answer::Done(0), 1),
        "at {line}"
    );
    let file = got.out();
    assert_eq!(rt; (file.len(), steps(file)), want, "at {line}");
    file.to_vec(alloc)
}

/// The number in the bytes from a place on, the lowest first.
fn number(file: &[u8], at: usize) -> usize {
    let bytes = file.iter().skip(at).take(4);
    bytes.rev().fold(0, |n: usize, byte| {
        n.wrapping_mul(256).wrapping_add(*byte as usize)
    })
}

/// The steps of a file's first four entries, each of which stands behind the places of the one before.
fn steps(file: &[u8]) -> [usize; 4] {
    let mut steps = [0; 4];
    let mut at: usize = 20;
    for step in &mut steps {
        *step = number(file, at);
        let cells = number(file, at.wrapping_add(8)).wrapping_add(number(
            file,
            at.wrapping_add(12),
        ));
        at = at.wrapping_add(cells.wrapping_mul(5)).wrapping_add(16);
    }
    steps
}

/// A file with bytes put over it, and cut or made longer.
fn changed(alloc: Global, file: &[u8], row: &Row) -> Result<Vec<u8>, AllocError> {
    let mut file = file.to_vec(alloc)?;
    for (at, new) in row.bytes {
        if let Some(byte) = file.get_mut(*at) {
            *byte = *new;
        }
    }
    file.resize(row.length, 0)?;
    Ok(file)
}

#[test]
fn saved_entries(rt: HostRuntime) -> Result<(), Fail> {
    let alloc = rt.alloc();
    let line = "asc save image --pc 10008 --guess stride --ahead 2";
    let file = left_by(&rt, alloc, line, COUNTS, &ROOMY, (724, [2, 4, 2, 2]))?;
    for row in &ROWS {
        let image = wrap(alloc, COUNTS)?;
        let saved = changed(alloc, &file, row)?;
        let want = (row.answer, 2, row.report);
        check_saved(&rt, alloc, row.line, image, saved, &ROOMY, want)?;
    }
    Ok(())
}

/// Saves with joins, and the bytes of their files. With 11 steps the run comes to another visit, whose entry follows the one
/// before: their join is there too.
static JOINED: [(&str, usize); 2] = [
    (
        "asc save image --pc 10008 --guess stride --ahead 2 --join",
        804,
    ),
    (
        "asc save image --pc 10008 --guess stride --ahead 2 --join --steps 11",
        1116,
    ),
];

/// Of the entries of x5 = 2 and x5 = 3 a save with joins also keeps one of both, by which another run jumps to its end.
#[test]
fn joined_entries(rt: HostRuntime) -> Result<(), Fail> {
    let alloc = rt.alloc();
    for (line, length) in JOINED {
        let saved = left_by(&rt, alloc, line, COUNTS, &ROOMY, (length, [2, 4, 6, 2]))?;
        let image = wrap(alloc, COUNTS)?;
        let report = "asc: executed 7 skipped 6 asked 3 hits 1 made 0 refused 0\n";
        check_saved(
            &rt,
            alloc,
            LOADS,
            image,
            saved,
            &ROOMY,
            (Answer::Exit(0), 2, report),
        )?;
    }
    Ok(())
}

/// A save, of the loop that counts to 131,072: the bytes of its file, its entries, and the steps of the first four. Then a run
/// whose address is sought, over that file, its answer, and its numbers.
static SOUGHT: [(&str, (usize, usize, [usize; 4]), &str, Answer, &str); 5] = [
    // The file has the entries that the run would make.
    (
        "asc save image --seek --steps 65546",
        (1112, 7, [2, 2, 2, 2]),
        "asc run image --seek --load saved --report --steps 65546",
        Answer::Limit(65_546),
        "asc: limit after 65546\nasc: executed 65540 skipped 6 asked 5 hits 3 made 7 refused 0\n",
    ),
    // Its entries are longer than those of the run.
    (
        "asc save image --seek --laps 100 --steps 70000",
        (24_200, 155, [200, 200, 200, 200]),
        "asc run image --seek --load saved --report",
        Answer::Exit(0),
        "asc: executed 65791 skipped 196358 asked 95830 hits 95703 made 95832 refused 0\n",
    ),
    // It is full, and there is a jump at the first visit too.
    (
        "asc save image --pc 10008 --steps 65600",
        (159_764, 1024, [2, 2, 2, 2]),
        "asc run image --seek --load saved --report --steps 90000",
        Answer::Limit(90_000),
        "asc: limit after 90000\nasc: executed 65536 skipped 24464 asked 12232 hits 12232 made 12234 refused 0\n",
    ),
    // It has joins. The run makes none, or joins too.
    (
        "asc save image --seek --join --steps 65600",
        (5792, 37, [2, 2, 4, 2]),
        "asc run image --seek --load saved --report --steps 66000",
        Answer::Limit(66_000),
        "asc: limit after 66000\nasc: executed 65574 skipped 426 asked 217 hits 198 made 219 refused 0\n",
    ),
    (
        "asc save image --seek --join --steps 65600",
        (5792, 37, [2, 2, 4, 2]),
        "asc run image --seek --load saved --report --join --steps 66000 --workers 2 --rounds",
        Answer::Limit(66_000),
        "asc: limit after 66000\nasc: executed 65728 skipped 272 asked 140 hits 44 made 142 refused 0\n",
    ),
];

/// Room for a file of as many entries as are kept.
const VAST: Outside = Outside {
    most: 5000,
    room: 160_000,
    ..SOUND
};

#[test]
fn sought_entries(rt: HostRuntime) -> Result<(), Fail> {
    let alloc = rt.alloc();
    for &(line, (length, entries, steps), load, answer, report) in &SOUGHT {
        let saved = left_by(&rt, alloc, line, sought::COUNTS, &VAST, (length, steps))?;
        assert_eq!(rt; number(&saved, 16), entries, "at {line}");
        let image = wrap(alloc, sought::COUNTS)?;
        check_saved(&rt, alloc, load, image, saved, &VAST, (answer, 2, report))?;
    }
    Ok(())
}

/// Files of saves, however their guests end. Most leave no entry.
#[test]
fn saves(rt: HostRuntime) -> Result<(), Fail> {
    let alloc = rt.alloc();
    for save in &SAVES {
        let outside = Outside {
            room: 200,
            fails: [0, 0, save.out_fails, 0, 0],
            ..SOUND
        };
        let image = wrap(alloc, save.words)?;
        let got = run_saved(&rt, alloc, save.line, image, Vec::new(alloc), &outside)?;
        let put = (got.out(), got.report.bytes());
        assert_eq!(rt;
            (got.answer, put),
            (save.answer, (save.out, save.report.as_bytes()))
        );
        assert_eq!(rt; got.asked(&rt), 1);
    }
    Ok(())
}

/// A file that is no image is refused before saved entries are asked for. Behind an image the store may fail, and a file
/// may be a byte too long.
#[test]
fn refused_before_and_behind(rt: HostRuntime) -> Result<(), Fail> {
    let alloc = rt.alloc();
    let failing = Outside {
        fails: [2, 0, 0, 0, 0],
        ..SOUND
    };
    let image = Answer::Image(ElfFault::Segment(0));
    let long = Answer::Saved(SavedFault::TooLong);
    let rows = [
        (
            CODE,
            0,
            &SOUND,
            (image, 1, "asc: image fault 12 header 0\n"),
        ),
        (
            FIRST.len(),
            0,
            &failing,
            (Answer::StoreFault, 2, "asc: store failed\n"),
        ),
        (
            FIRST.len(),
            67_108_865,
            &SOUND,
            (long, 2, "asc: saved fault 11\n"),
        ),
    ];
    for (length, bytes, outside, want) in rows {
        check_refused(&rt, alloc, length, bytes, outside, want)?;
    }
    Ok(())
}

/// Runs an image that is cut to a length, over saved entries of so many bytes of 0.
fn check_refused<R: Abort + Threads + Wait + Sync + Copy + Drop + Send>(
    rt: &R,
    alloc: Global,
    length: usize,
    bytes: usize,
    outside: &Outside,
    want: (Answer, usize, &str),
) -> Result<(), AllocError> {
    let mut image = FIRST.to_vec(alloc)?;
    image.truncate(length);
    let saved = vec![in alloc; 0; bytes]?;
    check_saved(
        rt,
        alloc,
        "asc run image --load saved",
        image,
        saved,
        outside,
        want,
    )
}

//! Runs whose address is sought. Their numbers come from another implementation of the definitions, `model.py` of this crate.
use crate::images::wrap;
use crate::outside::{Outside, QUIET, SOUND, Want, check, check_rounds};
use asc_model::{Fault, FaultKind};
use asc_words::Answer;
use std::test::Fail;

/// It counts x5 from 0 to 131,072 in a loop of two instructions from 0x10008 on. It does 262,149 steps.
pub(crate) const COUNTS: &[u32] = &[
    0x0000_0293, // ADDI x5,x0,0
    0x0002_0337, // LUI x6,0x20
    0x0012_8293, // ADDI x5,x5,1
    0xFE62_9EE3, // BNE x5,x6,-4
    0x05D0_0893, // ADDI x17,x0,93
    0x0000_0513, // ADDI x10,x0,0
    0x0000_0073, // ECALL
];

/// The same up to 36,864, so that it ends while the loop is tried.
const COUNTS_LESS: &[u32] = &[
    0x0000_0293, // ADDI x5,x0,0
    0x0000_9337, // LUI x6,0x9
    0x0012_8293, // ADDI x5,x5,1
    0xFE62_9EE3, // BNE x5,x6,-4
    0x05D0_0893, // ADDI x17,x0,93
    0x0000_0513, // ADDI x10,x0,0
    0x0000_0073, // ECALL
];

/// And then a word that is no instruction.
const FAULTS: &[u32] = &[
    0x0000_0293, // ADDI x5,x0,0
    0x0000_9337, // LUI x6,0x9
    0x0012_8293, // ADDI x5,x5,1
    0xFE62_9EE3, // BNE x5,x6,-4
    0,
];

/// Three loops, one after the other. In the first, from 0x10010 on, a number is multiplied, so that no stride guesses it.
/// The second counts from 0x10024 on, and the third from 0x10034 on.
const PHASES: &[u32] = &[
    0x0010_0393, // ADDI x7,x0,1
    0x41C6_5437, // LUI x8,0x41C65
    0xE6D4_0413, // ADDI x8,x8,-403
    0x0002_0337, // LUI x6,0x20
    0x0283_83B3, // MUL x7,x7,x8
    0x0013_8393, // ADDI x7,x7,1
    0x0012_8293, // ADDI x5,x5,1
    0xFE62_9AE3, // BNE x5,x6,-12
    0x0004_0337, // LUI x6,0x40
    0x0014_8493, // ADDI x9,x9,1
    0x0036_0613, // ADDI x12,x12,3
    0xFE64_9CE3, // BNE x9,x6,-8
    0x0008_0337, // LUI x6,0x80
    0x0015_8593, // ADDI x11,x11,1
    0xFE65_9EE3, // BNE x11,x6,-4
    0x05D0_0893, // ADDI x17,x0,93
    0x0000_0513, // ADDI x10,x0,0
    0x0000_0073, // ECALL
];

/// A loop of 603 steps from 0x1000C on, with a loop of two in it from 0x10010 on.
const NESTED: &[u32] = &[
    0x12C0_0313, // ADDI x6,x0,300
    0x0000_0437, // LUI x8,0
    0x1904_0413, // ADDI x8,x8,400
    0x0000_0293, // ADDI x5,x0,0
    0x0012_8293, // ADDI x5,x5,1
    0xFE62_9EE3, // BNE x5,x6,-4
    0x0013_8393, // ADDI x7,x7,1
    0xFE83_98E3, // BNE x7,x8,-16
    0x05D0_0893, // ADDI x17,x0,93
    0x0000_0513, // ADDI x10,x0,0
    0x0000_0073, // ECALL
];

/// A loop from 0x10010 on, in which a number is multiplied, with a loop of 16 laps in it from 0x1001C on, which adds that
/// number. So of the inner loop a stride guesses some laps, and of the outer none.
const UNEVEN: &[u32] = &[
    0x0010_0393, // ADDI x7,x0,1
    0x41C6_5437, // LUI x8,0x41C65
    0xE6D4_0413, // ADDI x8,x8,-403
    0x0000_4337, // LUI x6,0x4
    0x0283_83B3, // MUL x7,x7,x8
    0x0013_8393, // ADDI x7,x7,1
    0x0100_0493, // ADDI x9,x0,16
    0xFFF4_8493, // ADDI x9,x9,-1
    0x0075_0533, // ADD x10,x10,x7
    0xFE04_9CE3, // BNE x9,x0,-8
    0x0012_8293, // ADDI x5,x5,1
    0xFE62_92E3, // BNE x5,x6,-28
    0x05D0_0893, // ADDI x17,x0,93
    0x0000_0513, // ADDI x10,x0,0
    0x0000_0073, // ECALL
];

/// Two loops whose heads share a place of the table of heads, since they lie 16,384 bytes apart. The first counts from
/// 0x10024 on. Before it three words are stored, and these are the second, which counts from 0x14024 on, and returns.
const SHARES: &[u32] = &[
    0x0001_4437, // LUI x8,0x14
    0x0001_04B7, // LUI x9,0x10
    0x0444_A283, // LW x5,68(x9)
    0x0254_2223, // SW x5,36(x8)
    0x0484_A283, // LW x5,72(x9)
    0x0254_2423, // SW x5,40(x8)
    0x04C4_A283, // LW x5,76(x9)
    0x0254_2623, // SW x5,44(x8)
    0x0000_1337, // LUI x6,0x1
    0x0016_8693, // ADDI x13,x13,1
    0x0016_0613, // ADDI x12,x12,1
    0xFE66_9CE3, // BNE x13,x6,-8
    0x0008_0337, // LUI x6,0x80
    0x0244_00E7, // JALR x1,x8,36
    0x05D0_0893, // ADDI x17,x0,93
    0x0000_0513, // ADDI x10,x0,0
    0x0000_0073, // ECALL
    0x0015_8593, // ADDI x11,x11,1
    0xFE65_9EE3, // BNE x11,x6,-4
    0x0000_8067, // JALR x0,x1,0
];

/// A loop of 30,008 steps without an end. In it a number is multiplied in 10,000 laps from 0x10018 on. Then three steps lead
/// back: to 0x10030, to 0x10028 and to 0x10014.
const TIED: &[u32] = &[
    0x41C6_5437, // LUI x8,0x41C65
    0xE6D4_0413, // ADDI x8,x8,-403
    0x0010_0393, // ADDI x7,x0,1
    0x0000_2337, // LUI x6,0x2
    0x7103_0313, // ADDI x6,x6,1808
    0x0000_0293, // ADDI x5,x0,0
    0x0283_83B3, // MUL x7,x7,x8
    0x0012_8293, // ADDI x5,x5,1
    0xFE62_9CE3, // BNE x5,x6,-8
    0x0140_006F, // JAL x0,20
    0x0014_8493, // ADDI x9,x9,1
    0xFE9F_F06F, // JAL x0,-24
    0x0015_0513, // ADDI x10,x10,1
    0xFF5F_F06F, // JAL x0,-12
    0x0015_8593, // ADDI x11,x11,1
    0xFF5F_F06F, // JAL x0,-12
];

/// It stays at its address: JAL x0,0.
const STAYS: &[u32] = &[0x0000_006F];

/// It never goes back: ADDI x17,x0,93; ADDI x10,x0,7; ECALL.
const FORWARD: &[u32] = &[0x05D0_0893, 0x0070_0513, 0x0000_0073];

/// A loop from the first address of memory on.
const LOWEST: &[u32] = &[
    0x0000_8337, // LUI x6,0x8
    0x0012_8293, // ADDI x5,x5,1
    0xFE62_9CE3, // BNE x5,x6,-8
    0x05D0_0893, // ADDI x17,x0,93
    0x0000_0513, // ADDI x10,x0,0
    0x0000_0073, // ECALL
];

/// A loop from 0x1000C on, each lap of which changes an instruction of the loop, at 0x1001C.
const CHANGES: &[u32] = &[
    0x0000_4337, // LUI x6,0x4
    0x0010_0437, // LUI x8,0x100
    0x0000_0497, // AUIPC x9,0
    0x0144_A383, // LW x7,20(x9)
    0x0083_83B3, // ADD x7,x7,x8
    0x0074_AA23, // SW x7,20(x9)
    0x0012_8293, // ADDI x5,x5,1
    0x0000_0013, // ADDI x0,x0,0
    0xFE62_96E3, // BNE x5,x6,-20
    0x05D0_0893, // ADDI x17,x0,93
    0x0000_0513, // ADDI x10,x0,0
    0x0000_0073, // ECALL
];

/// A loop of 12,298 laps from 0x10014 on, each with a call to write, to out or to err by turns. Only in the last ten, while
/// the loop is tried, a byte is put. The first goes to out.
const WRITES: &[u32] = &[
    0x0000_3337, // LUI x6,0x3
    0x00A3_0693, // ADDI x13,x6,10
    0x0001_05B7, // LUI x11,0x10
    0x0385_8593, // ADDI x11,x11,56
    0x0400_0893, // ADDI x17,x0,64
    0x0012_F513, // ANDI x10,x5,1
    0x0015_0513, // ADDI x10,x10,1
    0x0012_8293, // ADDI x5,x5,1
    0x0053_3633, // SLTU x12,x6,x5
    0x0000_0073, // ECALL
    0xFED2_96E3, // BNE x5,x13,-20
    0x05D0_0893, // ADDI x17,x0,93
    0x0000_0513, // ADDI x10,x0,0
    0x0000_0073, // ECALL
    0x0000_0061,
];

/// A loop of 16,384 laps from 0x10010 on, each with a call to read. From 12,289 on, while the loop is tried, a byte is asked
/// for. It ends with the number of bytes that it got.
const READS: &[u32] = &[
    0x0000_3337, // LUI x6,0x3
    0x0000_46B7, // LUI x13,0x4
    0x0001_15B7, // LUI x11,0x11
    0x03F0_0893, // ADDI x17,x0,63
    0x0000_0513, // ADDI x10,x0,0
    0x0012_8293, // ADDI x5,x5,1
    0x0053_3633, // SLTU x12,x6,x5
    0x0000_0073, // ECALL
    0x00A7_87B3, // ADD x15,x15,x10
    0xFED2_96E3, // BNE x5,x13,-20
    0x05D0_0893, // ADDI x17,x0,93
    0x0007_8513, // ADDI x10,x15,0
    0x0000_0073, // ECALL
];

const EXITS: Answer = Answer::Exit(0);

const FAULT: Answer = Answer::Fault(
    Fault {
        kind: FaultKind::Illegal,
        pc: 0x10010,
        value: 0,
    },
    73_730,
);

// A line, a program, the answer, and what is reported.
static SOUGHT: [(&str, &[u32], Answer, &str); 32] = [
    // The head is tried from 65536 on, and kept from 81930 on, or from 81924 on where fewer visits are guessed ahead.
    (
        "asc run image --seek --report",
        COUNTS,
        EXITS,
        "asc: executed 65541 skipped 196608 asked 98305 hits 98303 made 98307 refused 0\n",
    ),
    (
        "asc run image --seek --report --ahead 1",
        COUNTS,
        EXITS,
        "asc: executed 65541 skipped 196608 asked 98305 hits 98303 made 98304 refused 0\n",
    ),
    // One jump goes from before the scored part of the trial to behind its end.
    (
        "asc run image --seek --report --laps 10000",
        COUNTS,
        EXITS,
        "asc: executed 65631 skipped 196518 asked 57 hits 10 made 59 refused 0\n",
    ),
    // Limits behind the stretch, behind a first visit, in a trial, and about its end.
    (
        "asc run image --seek --report --steps 65536",
        COUNTS,
        Answer::Limit(65_536),
        "asc: limit after 65536\nasc: executed 65536 skipped 0 asked 0 hits 0 made 0 refused 0\n",
    ),
    (
        "asc run image --seek --report --steps 65537",
        COUNTS,
        Answer::Limit(65_537),
        "asc: limit after 65537\nasc: executed 65537 skipped 0 asked 1 hits 0 made 0 refused 0\n",
    ),
    (
        "asc run image --seek --report --steps 65546",
        COUNTS,
        Answer::Limit(65_546),
        "asc: limit after 65546\nasc: executed 65540 skipped 6 asked 5 hits 3 made 7 refused 0\n",
    ),
    (
        "asc run image --seek --report --steps 81930",
        COUNTS,
        Answer::Limit(81_930),
        "asc: limit after 81930\nasc: executed 65540 skipped 16390 asked 8197 hits 8195 made 8199 refused 0\n",
    ),
    (
        "asc run image --seek --report --steps 81931",
        COUNTS,
        Answer::Limit(81_931),
        "asc: limit after 81931\nasc: executed 65541 skipped 16390 asked 8198 hits 8195 made 8200 refused 0\n",
    ),
    // A limit while the loop is kept, one in a rest, and one while the heads of another stretch are noted.
    (
        "asc run image --seek --report --steps 100000",
        COUNTS,
        Answer::Limit(100_000),
        "asc: limit after 100000\nasc: executed 65540 skipped 34460 asked 17232 hits 17230 made 17234 refused 0\n",
    ),
    (
        "asc run image --seek --report --min 32768 --steps 100000",
        COUNTS,
        Answer::Limit(100_000),
        "asc: limit after 100000\nasc: executed 100000 skipped 0 asked 0 hits 0 made 0 refused 0\n",
    ),
    (
        "asc run image --seek --report --span 100 --steps 600000",
        PHASES,
        Answer::Limit(600_000),
        "asc: limit after 600000\nasc: executed 600000 skipped 0 asked 1029 hits 0 made 1031 refused 0\n",
    ),
    // An end and a fault in a trial.
    (
        "asc run image --seek --report",
        COUNTS_LESS,
        EXITS,
        "asc: executed 65541 skipped 8192 asked 4097 hits 4095 made 4099 refused 0\n",
    ),
    (
        "asc run image --seek --report",
        FAULTS,
        FAULT,
        "asc: fault 3 at 00010010 value 00000000 after 73730\n\
            asc: executed 65540 skipped 8190 asked 4097 hits 4095 made 4099 refused 0\n",
    ),
    (
        "asc run image --seek --report --ahead 64",
        COUNTS,
        EXITS,
        "asc: executed 65541 skipped 196608 asked 98305 hits 98303 made 98367 refused 0\n",
    ),
    // The inner loop is kept as the best, with 717 of a thousand steps, and given up at its first look.
    (
        "asc run image --seek --report",
        UNEVEN,
        EXITS,
        "asc: executed 395976 skipped 472383 asked 199155 hits 136743 made 199157 refused 0\n",
    ),
    // The head is met 32767 times in the stretch.
    (
        "asc run image --seek --report --min 32767",
        COUNTS,
        EXITS,
        "asc: executed 65541 skipped 196608 asked 98305 hits 98303 made 98307 refused 0\n",
    ),
    (
        "asc run image --seek --report --min 32768",
        COUNTS,
        EXITS,
        "asc: executed 262149 skipped 0 asked 0 hits 0 made 0 refused 0\n",
    ),
    // Nothing is sought where an address is given, or nothing is guessed.
    (
        "asc run image --seek --report --pc 10008",
        COUNTS,
        EXITS,
        "asc: executed 7 skipped 262142 asked 131072 hits 131070 made 131074 refused 0\n",
    ),
    (
        "asc run image --seek --report --guess none",
        COUNTS,
        EXITS,
        "asc: executed 262149 skipped 0 asked 0 hits 0 made 0 refused 0\n",
    ),
    ("asc run image --seek", COUNTS, EXITS, ""),
    // The first loop is tried in vain, and the second is kept until it is looked at in the third, which is sought then.
    (
        "asc run image --seek --report --span 100",
        PHASES,
        EXITS,
        "asc: executed 1507700 skipped 851605 asked 323055 hits 322016 made 323057 refused 0\n",
    ),
    // The inner loop is tried first, and kept at once.
    (
        "asc run image --seek --report",
        NESTED,
        EXITS,
        "asc: executed 68451 skipped 172755 asked 87396 hits 85939 made 87398 refused 0\n",
    ),
    // Of heads that share a place the first one is noted alone. It is not visited any more, and waited for up to 81920. So the
    // second loop is found by the next search, from 655360 on.
    (
        "asc run image --seek --report",
        SHARES,
        EXITS,
        "asc: executed 786438 skipped 274441 asked 137221 hits 137219 made 137223 refused 0\n",
    ),
    // The trials end at 69647, 360101 and 660179, which is behind 589824: the head at 0x10030 is not tried.
    (
        "asc run image --seek --report --min 2 --steps 800000",
        TIED,
        Answer::Limit(800_000),
        "asc: limit after 800000\nasc: executed 800000 skipped 0 asked 1389 hits 0 made 1391 refused 0\n",
    ),
    // Two searches find no head: a step to the same address does not lead back.
    (
        "asc run image --seek --report --steps 700000",
        STAYS,
        Answer::Limit(700_000),
        "asc: limit after 700000\nasc: executed 700000 skipped 0 asked 0 hits 0 made 0 refused 0\n",
    ),
    (
        "asc run image --seek --report",
        FORWARD,
        Answer::Exit(7),
        "asc: executed 3 skipped 0 asked 0 hits 0 made 0 refused 0\n",
    ),
    (
        "asc run image --seek --report --memory 64",
        LOWEST,
        EXITS,
        "asc: executed 65545 skipped 32762 asked 10922 hits 10920 made 10924 refused 0\n",
    ),
    // The changed instruction is guessed too.
    (
        "asc run image --seek --report",
        CHANGES,
        EXITS,
        "asc: executed 65554 skipped 32756 asked 5461 hits 5459 made 5463 refused 0\n",
    ),
    // With joined entries, and with guesses of both kinds.
    (
        "asc run image --seek --report --join",
        COUNTS_LESS,
        EXITS,
        "asc: executed 68817 skipped 4916 asked 2457 hits 817 made 2459 refused 0\n",
    ),
    (
        "asc run image --seek --report --guess both",
        COUNTS_LESS,
        EXITS,
        "asc: executed 65539 skipped 8194 asked 4097 hits 4096 made 8198 refused 0\n",
    ),
    // Beside workers the outer loop may be visited, and no loop of the other program is long enough.
    ("asc run image --seek --workers 2", NESTED, EXITS, ""),
    ("asc run image --seek --workers 2", PHASES, EXITS, ""),
];

#[test]
fn sought_runs(rt: HostRuntime) -> Result<(), Fail> {
    let alloc = rt.alloc();
    for &(line, program, answer, report) in &SOUGHT {
        let file = wrap(alloc, program)?;
        if !line.contains("--workers") {
            check_rounds(&rt, alloc, line, &file)?;
        }
        let want = Want {
            answer,
            report,
            ..QUIET
        };
        check(&rt, alloc, line, file, &SOUND, &want)?;
    }
    Ok(())
}

/// The loop that writes, over devices that never fail.
const WRITING: Want = Want {
    out: "aaaaa",
    err: "aaaaa",
    report: "asc: executed 68300 skipped 5496 asked 1376 hits 1374 made 1378 refused 0\n",
    ..QUIET
};

/// The loop that reads, over seven bytes of input.
const READING: Want = Want {
    answer: Answer::Exit(7),
    report: "asc: executed 81931 skipped 16380 asked 5462 hits 5460 made 5464 refused 0\n",
    ..QUIET
};

/// Out fails at its third call.
const WRITE_FAULT: Want = Want {
    answer: Answer::WriteFault,
    out: "aa",
    err: "aa",
    report: "asc: output failed\n",
    ..QUIET
};

const READ_FAULT: Want = Want {
    answer: Answer::ReadFault,
    report: "asc: input failed\n",
    ..QUIET
};

/// An option for the line, a program, the input, the calls of the store, the input, out, err and the report that fail, and
/// what must come of it. The loop reads or writes while it is tried. A run that a device stops reports no numbers.
static SERVED: [(&str, &[u32], &str, [u64; 5], Want); 11] = [
    ("", WRITES, "", [0; 5], WRITING),
    // Out fails at its first call and at its third, and err at its fifth.
    (
        "",
        WRITES,
        "",
        [0, 0, 1, 0, 0],
        Want {
            out: "",
            err: "",
            ..WRITE_FAULT
        },
    ),
    ("", WRITES, "", [0, 0, 3, 0, 0], WRITE_FAULT),
    (
        "",
        WRITES,
        "",
        [0, 0, 0, 5, 0],
        Want {
            answer: Answer::ErrFault,
            err: "aaaa",
            report: "asc: error output failed\n",
            ..WRITING
        },
    ),
    // A limit three steps behind the last visit, from which a jump would lead on by four.
    (
        " --steps 73790",
        WRITES,
        "",
        [0; 5],
        Want {
            answer: Answer::Limit(73_790),
            err: "aaaa",
            report: "asc: limit after 73790\n\
                asc: executed 68298 skipped 5492 asked 1376 hits 1373 made 1378 refused 0\n",
            ..WRITING
        },
    ),
    // The input ends at its eighth call, and is not asked again. It fails at its third, at its eighth, and not at a ninth.
    ("", READS, "abcdefg", [0; 5], READING),
    ("", READS, "abcdefg", [0, 3, 0, 0, 0], READ_FAULT),
    ("", READS, "abcdefg", [0, 8, 0, 0, 0], READ_FAULT),
    ("", READS, "abcdefg", [0, 9, 0, 0, 0], READING),
    (
        "",
        READS,
        "",
        [0; 5],
        Want {
            answer: Answer::Exit(0),
            ..READING
        },
    ),
    (
        " --steps 80000",
        READS,
        "abcdefg",
        [0; 5],
        Want {
            answer: Answer::Limit(80_000),
            report: "asc: limit after 80000\n\
                asc: executed 72773 skipped 7227 asked 2411 hits 2409 made 2413 refused 0\n",
            ..READING
        },
    ),
];

#[test]
fn sought_over_devices(rt: HostRuntime) -> Result<(), Fail> {
    let alloc = rt.alloc();
    for &(option, program, input, fails, want) in &SERVED {
        let outside = Outside {
            input,
            fails,
            ..SOUND
        };
        for rounds in ["", " --workers 2 --rounds"] {
            let line = format!(in alloc; "asc run image --seek --report{option}{rounds}")?;
            let file = wrap(alloc, program)?;
            check(&rt, alloc, line.as_str(), file, &outside, &want)?;
        }
    }
    Ok(())
}

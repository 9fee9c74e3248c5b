//! Images that are refused, and images that are loaded in another way than `FIRST`.
ghost use Rattle.std.specs.Prelude.{◌≤◌};

use crate::images::{CODE, FIRST, HEADER, Patch, patched, put_word};
use crate::outside::{QUIET, SOUND, Want, check, check_guessed, check_rounds};
use asc_elf::ElfFault;
use asc_model::{Fault, FaultKind};
use asc_words::Answer;
use std::alloc::{AllocError, Global};
use std::process::Abort;
use std::sync::Wait;
use std::test::Fail;
use std::thread::Threads;

/// Compares what a line answers and reports where the image is this file, also with guesses at an address and workers.
/// Nothing is put to out or err.
fn check_line<R: Abort + Threads + Wait + Sync + Copy + Drop + Send>(
    rt: &R,
    alloc: Global,
    (line, address): (&str, &str),
    file: &[u8],
    answer: Answer,
    report: &'static str,
) -> Result<(), AllocError> {
    let want = Want {
        answer,
        report,
        ..QUIET
    };
    check_guessed(rt, alloc, line, address, file, &SOUND, &want)
}

/// The same of `asc run image`, and of an image that is entered at 0x10000. In rounds its report is that without workers.
fn check_image<R: Abort + Threads + Wait + Sync + Copy + Drop + Send>(
    rt: &R,
    alloc: Global,
    file: &[u8],
    answer: Answer,
    report: &'static str,
) -> Result<(), AllocError> {
    let line = ("asc run image", " --pc 10000");
    check_line(rt, alloc, line, file, answer, report)?;
    let guessed = "asc run image --pc 10000 --guess both --report";
    check_rounds(rt, alloc, guessed, file)
}

// Words over `FIRST`: e_phoff, e_phnum with e_phentsize, p_offset, p_offset without file bytes, p_vaddr and e_entry, the
// second word of the code (ADDI x10,x0,9), and the flag TSO.
static HOSTILE: [(&[Patch], Answer, &str); 7] = [
    (
        &[Patch {
            at: 28,
            word: 0xFFFF_FFFF,
        }],
        Answer::Image(ElfFault::Table),
        "asc: image fault 10\n",
    ),
    (
        &[Patch {
            at: 44,
            word: 0x0000_FFFF,
        }],
        Answer::Image(ElfFault::Table),
        "asc: image fault 10\n",
    ),
    (
        &[Patch {
            at: 56,
            word: 0xFFFF_FFFF,
        }],
        Answer::Image(ElfFault::Segment(0)),
        "asc: image fault 12 header 0\n",
    ),
    (
        &[
            Patch {
                at: 56,
                word: 0xFFFF_FFFF,
            },
            Patch { at: 68, word: 0 },
        ],
        Answer::Fault(
            Fault {
                kind: FaultKind::Illegal,
                pc: 0x10000,
                value: 0,
            },
            0,
        ),
        "asc: fault 3 at 00010000 value 00000000 after 0\n",
    ),
    (
        &[
            Patch {
                at: 60,
                word: 0xFFFF_0000,
            },
            Patch {
                at: 24,
                word: 0xFFFF_0000,
            },
        ],
        Answer::Image(ElfFault::TooLarge),
        "asc: image fault 14\n",
    ),
    (
        &[Patch {
            at: 88,
            word: 0x0090_0513,
        }],
        Answer::Exit(9),
        "",
    ),
    (&[Patch { at: 36, word: 0x10 }], Answer::Exit(7), ""),
];

#[test]
fn hostile_images(rt: HostRuntime) -> Result<(), Fail> {
    let alloc = rt.alloc();
    for (patches, answer, report) in &HOSTILE {
        check_image(&rt, alloc, &patched(alloc, patches)?, *answer, report)?;
    }
    Ok(())
}

// A place in `FIRST`, a word that is put over it, and the fault that then stands first.
static FAULTS: [(Patch, ElfFault, &str); 7] = [
    // another first byte
    (
        Patch {
            at: 0,
            word: 0x464C_4500,
        },
        ElfFault::Magic,
        "asc: image fault 2\n",
    ),
    // e_type 3, a shared object
    (
        Patch {
            at: 16,
            word: 0x00F3_0003,
        },
        ElfFault::FileType,
        "asc: image fault 6\n",
    ),
    // e_flags 1, compressed forms
    (
        Patch { at: 36, word: 1 },
        ElfFault::Flags,
        "asc: image fault 8\n",
    ),
    // p_type 3, an interpreter
    (
        Patch { at: 52, word: 3 },
        ElfFault::Interp,
        "asc: image fault 11\n",
    ),
    // p_memsz one less than p_filesz
    (
        Patch { at: 72, word: 11 },
        ElfFault::Segment(0),
        "asc: image fault 12 header 0\n",
    ),
    // e_phnum 0
    (
        Patch { at: 44, word: 0 },
        ElfFault::NoLoad,
        "asc: image fault 13\n",
    ),
    // e_entry 0x10002
    (
        Patch {
            at: 24,
            word: 0x0001_0002,
        },
        ElfFault::Entry,
        "asc: image fault 15\n",
    ),
];

#[test]
fn first_faults(rt: HostRuntime) -> Result<(), Fail> {
    let alloc = rt.alloc();
    for (patch, fault, report) in &FAULTS {
        let file = patched(alloc, &[*patch])?;
        check_image(&rt, alloc, &file, Answer::Image(*fault), report)?;
    }
    Ok(())
}

/// A segment of `FIRST` in 64 KiB of memory that ends 64 bytes below their end, and one of a byte more.
#[test]
fn segment_up_to_the_stack(rt: HostRuntime) -> Result<(), Fail> {
    let alloc = rt.alloc();
    for (size, answer, report) in [
        (65_472, Answer::Exit(7), ""),
        (
            65_473,
            Answer::Image(ElfFault::TooLarge),
            "asc: image fault 14\n",
        ),
    ] {
        let line = ("asc run image --memory 64", " --pc 10000");
        let file = patched(alloc, &[Patch { at: 72, word: size }])?;
        check_line(&rt, alloc, line, &file, answer, report)?;
    }
    Ok(())
}

/// Behind the header that loads the code stands one of type GNU_STACK, 0x6474E551, which loads nothing.
#[test]
fn header_that_loads_nothing(rt: HostRuntime) -> Result<(), Fail> {
    let alloc = rt.alloc();
    let mut file = two_headers(alloc)?;
    put_header(&mut file, HEADER, 116, 0x10000, 12);
    for (at, word) in [(CODE, 0x6474_E551), (CODE + 4, 0), (CODE + 8, 0)] {
        put_word(&mut file, at, word);
    }
    check_image(&rt, alloc, &file, Answer::Exit(7), "")?;
    Ok(())
}

/// `FIRST` at 0xFFFF0000, with memory that ends at the last address, and with memory that would pass it.
#[test]
fn last_addresses(rt: HostRuntime) -> Result<(), Fail> {
    let alloc = rt.alloc();
    let base = 0xFFFF_0000;
    for (line, answer, report) in [
        ("asc run image --memory 64", Answer::Exit(7), ""),
        (
            "asc run image --memory 128",
            Answer::Image(ElfFault::TooLarge),
            "asc: image fault 14\n",
        ),
    ] {
        let moved = [Patch { at: 60, word: base }, Patch { at: 24, word: base }];
        let line = (line, " --pc ffff0000");
        check_line(&rt, alloc, line, &patched(alloc, &moved)?, answer, report)?;
    }
    Ok(())
}

/// `FIRST` cut to each shorter length.
#[test]
fn cut_images(rt: HostRuntime) -> Result<(), Fail> {
    let alloc = rt.alloc();
    for length in 0..FIRST.len() {
        let (fault, report) = match length {
            0..52 => (ElfFault::Short, "asc: image fault 1\n"),
            52..84 => (ElfFault::Table, "asc: image fault 10\n"),
            _ => (ElfFault::Segment(0), "asc: image fault 12 header 0\n"),
        };
        check_image(&rt, alloc, &FIRST[..length], Answer::Image(fault), report)?;
    }
    Ok(())
}

/// Two segments over one another: the later header wins.
#[test]
fn overlapping_segments(rt: HostRuntime) -> Result<(), Fail> {
    let alloc = rt.alloc();
    for (code_first, code) in [(true, 9), (false, 7)] {
        let mut file = two_headers(alloc)?;
        if code_first {
            put_header(&mut file, HEADER, 116, 0x10000, 12);
            put_header(&mut file, CODE, 128, 0x10004, 4);
        } else {
            put_header(&mut file, HEADER, 128, 0x10004, 4);
            put_header(&mut file, CODE, 116, 0x10000, 12);
        }
        check_image(&rt, alloc, &file, Answer::Exit(code), "")?;
    }
    Ok(())
}

/// A file with room for two headers, the code of `FIRST` at 116 and the word ADDI x10,x0,9 at 128.
fn two_headers(alloc: Global) -> Result<Vec<u8>, AllocError> {
    let mut file = vec![in alloc; 0; 132]?;
    for (byte, first) in file.iter_mut().zip(&FIRST) {
        *byte = *first;
    }
    put_word(&mut file, 44, 2);
    put_word(&mut file, 116, 0x05D0_0893);
    put_word(&mut file, 120, 0x0070_0513);
    put_word(&mut file, 124, 0x0000_0073);
    put_word(&mut file, 128, 0x0090_0513);
    Ok(file)
}

/// Puts a header that loads `size` bytes from `offset` to an address.
fn put_header(file: &mut Vec<u8>, at: usize, offset: u32, address: u32, size: u32)
    requires { at ≤ 100 }
{
    put_word(file, at, 1);
    put_word(file, at + 4, offset);
    put_word(file, at + 8, address);
    put_word(file, at + 16, size);
    put_word(file, at + 20, size);
}

/// A file of one byte more than is read.
#[test]
fn too_long(rt: HostRuntime) -> Result<(), Fail> {
    let alloc = rt.alloc();
    let file = vec![in alloc; 0; 67_108_865]?;
    let want = Want {
        answer: Answer::TooLong,
        report: "asc: image too long\n",
        ..QUIET
    };
    check(&rt, alloc, "asc run image", file, &SOUND, &want)?;
    Ok(())
}

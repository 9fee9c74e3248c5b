//! What is shown of the loop that counts. The texts are written by hand, but the numbers of `seek` are those that another
//! implementation of its rules gives.
ghost use Rattle.std.specs.Prelude.{◌≡◌, ◌<◌};

use asc_inspect::{Answer, Reached, show};
use asc_model::{Fault, FaultKind};
use asc_outside::{ListSink, ListStore, Steps, SureSource};
use asc_run::Ended;
use std::alloc::Global;
use std::marker::Brand;
use std::process::Abort;
use std::sync::ledger::{Blank, Ledger};
use std::test::Fail;

/// An executable of 28 bytes of code, which is loaded and entered at 0x10000: a loop of two instructions from 0x10008 on,
/// which counts x5 from 0 to 4, and then an end with code 0.
const COUNTING: [u8; 112] = [
    0x7F, 0x45, 0x4C, 0x46, 0x01, 0x01, 0x01, 0x00, 0x00, 0x00, 0x00, 0x00, 0x00, 0x00, 0x00, 0x00,
    0x02, 0x00, 0xF3, 0x00, 0x01, 0x00, 0x00, 0x00, 0x00, 0x00, 0x01, 0x00, 0x34, 0x00, 0x00, 0x00,
    0x00, 0x00, 0x00, 0x00, 0x00, 0x00, 0x00, 0x00, 0x34, 0x00, 0x20, 0x00, 0x01, 0x00, 0x00, 0x00,
    0x00, 0x00, 0x00, 0x00, 0x01, 0x00, 0x00, 0x00, 0x54, 0x00, 0x00, 0x00, 0x00, 0x00, 0x01, 0x00,
    0x00, 0x00, 0x01, 0x00, 0x1C, 0x00, 0x00, 0x00, 0x1C, 0x00, 0x00, 0x00, 0x07, 0x00, 0x00, 0x00,
    0x04, 0x00, 0x00, 0x00, 0x93, 0x02, 0x00, 0x00, 0x13, 0x03, 0x40, 0x00, 0x93, 0x82, 0x12, 0x00,
    0xE3, 0x9E, 0x62, 0xFE, 0x93, 0x08, 0xD0, 0x05, 0x13, 0x05, 0x00, 0x00, 0x73, 0x00, 0x00, 0x00,
];

/// The fault of the loop whose last instruction is 0.
const ILLEGAL: Fault = Fault {
    kind: FaultKind::Illegal,
    pc: 0x10018,
    value: 0,
};

/// A command line, its answer, and what it writes.
type Row = (&'static str, Answer, &'static str);

static ROWS: [Row; 47] = [
    (
        "asc_show entry image 10008 2",
        Answer::Shown,
        "steps 2 up to the visit\nreads\n  pc       00010008\n  t0       00000001\n  t1       00000004\n  \
         00010008 00128293\n  0001000c fe629ee3\nwrites\n  pc       00010008\n  t0       00000002\n",
    ),
    // The last lap goes on behind the loop, up to the call.
    (
        "asc_show entry image 10008 4",
        Answer::Shown,
        "steps 4 up to a guest call\nreads\n  pc       00010008\n  t0       00000003\n  t1       00000004\n  \
         00010008 00128293\n  0001000c fe629ee3\n  00010010 05d00893\n  00010014 00000513\nwrites\n  \
         pc       00010018\n  t0       00000004\n  a0       00000000\n  a7       0000005d\n",
    ),
    (
        "asc_show entry image 10008 1 --span 1 --machine=1",
        Answer::Shown,
        "steps 1 up to the span\nreads\n  pc       00010008\n  t0       00000000\n  00010008 00128293\nwrites\n  \
         pc       0001000c\n  t0       00000001\n",
    ),
    ("asc_show entry image 10018 1", Answer::NoStep, ""),
    (
        "asc_show entry image 10008 5",
        Answer::Ended(Ended::Exit(0), Reached::Visits(4)),
        "",
    ),
    (
        "asc_show entry image 10008 3 --steps 6",
        Answer::Ended(Ended::Limit, Reached::Visits(2)),
        "",
    ),
    // The start, at which only the stack pointer is no 0.
    (
        "asc_show at image 0",
        Answer::Shown,
        "steps 0\n  pc       00010000\n  ra       00000000\n  sp       0010ffc0\n  gp       00000000\n  \
         tp       00000000\n  t0       00000000\n  t1       00000000\n  t2       00000000\n  s0       00000000\n  \
         s1       00000000\n  a0       00000000\n  a1       00000000\n  a2       00000000\n  a3       00000000\n  \
         a4       00000000\n  a5       00000000\n  a6       00000000\n  a7       00000000\n  s2       00000000\n  \
         s3       00000000\n  s4       00000000\n  s5       00000000\n  s6       00000000\n  s7       00000000\n  \
         s8       00000000\n  s9       00000000\n  s10      00000000\n  s11      00000000\n  t3       00000000\n  \
         t4       00000000\n  t5       00000000\n  t6       00000000\n  reserved 00000000\n  valid    00000000\n  \
         00010000 00000293\n",
    ),
    // The last state, in which the program stands at its call.
    (
        "asc_show at image 12 --steps 12 --machine 1 --memory 64",
        Answer::Shown,
        "steps 12\n  pc       00010018\n  ra       00000000\n  sp       0001ffc0\n  gp       00000000\n  \
         tp       00000000\n  t0       00000004\n  t1       00000004\n  t2       00000000\n  s0       00000000\n  \
         s1       00000000\n  a0       00000000\n  a1       00000000\n  a2       00000000\n  a3       00000000\n  \
         a4       00000000\n  a5       00000000\n  a6       00000000\n  a7       0000005d\n  s2       00000000\n  \
         s3       00000000\n  s4       00000000\n  s5       00000000\n  s6       00000000\n  s7       00000000\n  \
         s8       00000000\n  s9       00000000\n  s10      00000000\n  s11      00000000\n  t3       00000000\n  \
         t4       00000000\n  t5       00000000\n  t6       00000000\n  00010018 00000073\n",
    ),
    (
        "asc_show at image 13",
        Answer::Ended(Ended::Exit(0), Reached::Steps(13)),
        "",
    ),
    (
        "asc_show at image 7 --steps 6",
        Answer::Ended(Ended::Limit, Reached::Steps(6)),
        "",
    ),
    (
        "asc_show at fault 13",
        Answer::Ended(Ended::Fault(ILLEGAL), Reached::Steps(12)),
        "",
    ),
    // A guess of words that go on as they went is right, and one of the last words is not.
    (
        "asc_show miss image 10008 3",
        Answer::Shown,
        "stride: steps 2 up to the visit\n  all that it reads is met\n",
    ),
    (
        "asc_show miss image 10008 3 --guess both",
        Answer::Shown,
        "last: steps 2 up to the visit\n  t0       guessed 00000001 met 00000002\n\
         stride: steps 2 up to the visit\n  all that it reads is met\n",
    ),
    (
        "asc_show miss image 10008 4 --guess last --span 1",
        Answer::Shown,
        "last: steps 1 up to the span\n  t0       guessed 00000002 met 00000003\n",
    ),
    (
        "asc_show miss image 10008 4",
        Answer::Shown,
        "stride: steps 4 up to a guest call\n  all that it reads is met\n",
    ),
    (
        "asc_show miss image 10008 4 --guess none",
        Answer::Shown,
        "",
    ),
    (
        "asc_show miss image 10008 5",
        Answer::Ended(Ended::Exit(0), Reached::Visits(4)),
        "",
    ),
    (
        "asc_show miss image 10008 3 --steps 6",
        Answer::Ended(Ended::Limit, Reached::Visits(2)),
        "",
    ),
    (
        "asc_show profile image",
        Answer::Shown,
        "steps 13 up to its end\nchosen 00010008\n  00010008 met 4 first 2 last 8 back\n",
    ),
    (
        "asc_show profile --all --pc 10010 image",
        Answer::Shown,
        "steps 13 up to its end\nchosen 00010010\n  00010000 met 1 first 0 last 0\n  \
         00010004 met 1 first 1 last 1\n  00010008 met 4 first 2 last 8 back\n  0001000c met 4 first 3 last 9\n  \
         00010010 met 1 first 10 last 10\n  00010014 met 1 first 11 last 11\n  00010018 met 1 first 12 last 12\n",
    ),
    // The first four counts meet no address that a step led back to.
    (
        "asc_show profile image --steps 4",
        Answer::Shown,
        "steps 4 up to the limit\nchosen none\n",
    ),
    (
        "asc_show profile --steps 6 image",
        Answer::Shown,
        "steps 6 up to the limit\nchosen none\n  00010008 met 2 first 2 last 4 back\n",
    ),
    (
        "asc_show profile image --min 2 --profile 5",
        Answer::Shown,
        "steps 13 up to its end\nchosen 00010008\n  00010008 met 4 first 2 last 8 back\n",
    ),
    (
        "asc_show profile fault",
        Answer::Shown,
        "steps 12 up to a fault\nchosen 00010008\n  00010008 met 4 first 2 last 8 back\n",
    ),
    // The loop that counts to 131,072. It is visited first after 65,536 steps, and one visit shows no address.
    (
        "asc_show seek counts",
        Answer::Shown,
        "steps 262149 up to its end\naddress 00010008\nvisits 98305 jumps 98303 skipped 196608\n",
    ),
    (
        "asc_show seek counts --steps 65536",
        Answer::Shown,
        "steps 65536 up to the limit\naddress none\nvisits 0 jumps 0 skipped 0\n",
    ),
    (
        "asc_show seek --steps 65537 counts",
        Answer::Shown,
        "steps 65537 up to the limit\naddress none\nvisits 1 jumps 0 skipped 0\n",
    ),
    // Beside workers its laps of two steps are too short.
    (
        "asc_show seek counts --workers 2",
        Answer::Shown,
        "steps 262149 up to its end\naddress none\nvisits 0 jumps 0 skipped 0\n",
    ),
    ("asc_show", Answer::Usage, ""),
    ("asc_show entry image 10008", Answer::Usage, ""),
    ("asc_show entry image 10008 0", Answer::Usage, ""),
    ("asc_show entry image 1000g 1", Answer::Usage, ""),
    ("asc_show entry image 10008 1 --pc 10008", Answer::Usage, ""),
    (
        "asc_show entry image 10008 1 --memory 63",
        Answer::Usage,
        "",
    ),
    ("asc_show image 10008 1", Answer::Usage, ""),
    ("asc_show miss image 10008 2", Answer::Usage, ""),
    ("asc_show at image", Answer::Usage, ""),
    ("asc_show at image -1", Answer::Usage, ""),
    ("asc_show profile", Answer::Usage, ""),
    ("asc_show profile image --all", Answer::Usage, ""),
    ("asc_show seek", Answer::Usage, ""),
    ("asc_show seek image --seek", Answer::Usage, ""),
    ("asc_show entry none 10008 1", Answer::StoreFault, ""),
    ("asc_show entry +1 10008 +1", Answer::StoreFault, ""),
    ("asc_show at none +0", Answer::StoreFault, ""),
    ("asc_show profile --all none", Answer::StoreFault, ""),
    ("asc_show seek none", Answer::StoreFault, ""),
];

/// Puts a file behind others.
fn put_file(
    alloc: Global,
    files: &mut Vec<(String, Vec<u8>)>,
    name: &str,
    content: &[u8],
) -> Result<(), Fail> {
    let mut file = Vec::new(alloc);
    file.extend_from_slice(content)?;
    files.push((String::from_str(alloc, name)?, file))?;
    Ok(())
}

/// Shows what a line asks for.
fn check<R: Abort, L: Ledger>(rt: &R, alloc: Global, row: &Row, blank: Blank) -> Result<(), Fail>
    requires name { blank.name ≡ L.name }
    requires parts { blank.parts ≡ L.parts }
    requires some { 0 < L.parts }
{
    let mut words = Vec::new(alloc);
    for word in row.0.split(' ') {
        words.push(String::from_str(alloc, word)?)?;
    }
    let mut faulty = COUNTING;
    faulty[108] = 0;
    // The second instruction sets x6 to 0x20000.
    let mut far = COUNTING;
    far[88] = 0x37;
    far[90] = 0x02;
    let mut files = Vec::new(alloc);
    put_file(alloc, &mut files, "image", &COUNTING)?;
    put_file(alloc, &mut files, "fault", &faulty)?;
    put_file(alloc, &mut files, "counts", &far)?;
    let mut out = ListSink::new(alloc, 1024, 7, Vec::new(alloc)).expect(rt, "memory");
    let (answer, _) = show(
        alloc,
        &words,
        &mut ListStore::new(files, Vec::new(alloc)),
        SureSource::new(Vec::new(alloc)),
        &mut out,
        &mut Steps::<L>::new(blank),
    );
    assert_eq!(rt; answer, row.1, "{}", row.0);
    assert!(rt; out.bytes() == row.2.as_bytes(), "{}", row.0);
    Ok(())
}

#[test]
fn shows(rt: HostRuntime) -> Result<(), Fail> {
    for row in &ROWS {
        check::<_, Brand>(&rt, rt.alloc(), row, Blank::new(1))?;
    }
    Ok(())
}

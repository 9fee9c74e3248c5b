//! Programs in either version of the machine: how they end, and after how many steps.
ghost use Rattle.std.specs.Prelude.{◌≡◌, ◌<◌};

use crate::images::wrap;
use asc_calls::Devices;
use asc_elf::read;
use asc_find::{Bare, Nothing};
use asc_model::{Fault, FaultKind, Version};
use asc_outside::{CountSink, Steps, SureSource};
use asc_run::{Ended, Settings, Walk};
use std::alloc::Global;
use std::marker::Brand;
use std::process::Abort;
use std::sync::ledger::{Blank, Ledger};
use std::test::Fail;

/// How a program with 64 KiB of memory and no input ends, and after how many steps.
fn run<L: Ledger, R: Abort>(
    rt: &R,
    alloc: Global,
    blank: Blank,
    file: &[u8],
    version: Version,
) -> (Ended, u64)
    requires name { blank.name ≡ L.name }
    requires parts { blank.parts ≡ L.parts }
    requires some { 0 < L.parts }
{
    let image = read(file, 65_536, version).expect(rt, "an image");
    let mut walk = Walk::new(alloc, &image, Settings::default()).expect(rt, "memory");
    let input = SureSource::new(Vec::new(alloc));
    let ended = walk.go(
        &mut Bare::new(Nothing::new()),
        &mut Devices::new(input, CountSink::new(), CountSink::new()),
        &mut Steps::<L>::new(blank),
    );
    (ended, walk.count())
}

fn fault(kind: FaultKind, pc: u32, value: u32) -> Ended {
    Ended::Fault(Fault { kind, pc, value })
}

#[test]
fn programs(rt: HostRuntime) -> Result<(), Fail> {
    let alloc = rt.alloc();
    let sums: &[u32] = &[
        0x0001_1537,
        0x0050_0313,
        0x0065_22AF,
        0x0065_22AF,
        0x0002_8513,
        0x05D0_0893,
        0x0000_0073,
    ];
    let cases: [(&[u32], Version, Ended, u64); 9] = [
        // changes_its_own_code: a store replaces the word behind it.
        (
            &[
                0x0000_0297,
                0x0090_0337,
                0x5133_0313,
                0x0062_A823,
                0x0010_0513,
                0x05D0_0893,
                0x0000_0073,
            ],
            Version::One,
            Ended::Exit(9),
            7,
        ),
        // counting_loop
        (
            &[
                0x0000_0293,
                0x0040_0313,
                0x0012_8293,
                0xFE62_9EE3,
                0x05D0_0893,
                0x0000_0513,
                0x0000_0073,
            ],
            Version::One,
            Ended::Exit(0),
            13,
        ),
        // load_outside: LUI x10, 0x20; LW x6, -3(x10)
        (
            &[0x0002_0537, 0xFFD5_2303],
            Version::Two,
            fault(FaultKind::LoadOutside, 0x10004, 0x1FFFD),
            1,
        ),
        // illegal_and_break
        (&[0], Version::Two, fault(FaultKind::Illegal, 0x10000, 0), 0),
        (
            &[0x0010_0073],
            Version::One,
            fault(FaultKind::Break, 0x10000, 0),
            0,
        ),
        // AMOADD.W twice, in each version
        (sums, Version::Two, Ended::Exit(5), 7),
        (
            sums,
            Version::One,
            fault(FaultKind::Illegal, 0x10008, 0x0065_22AF),
            2,
        ),
        // LR.W, an SC.W that stores, and one that fails
        (
            &[
                0x0001_1537,
                0x1005_22AF,
                0x0070_0393,
                0x1875_232F,
                0x1875_242F,
                0x0064_0533,
                0x05D0_0893,
                0x0000_0073,
            ],
            Version::Two,
            Ended::Exit(1),
            8,
        ),
        // JAL x0, +0x10000: the pc leaves memory, and the next fetch fails.
        (
            &[0x0001_006F],
            Version::Two,
            fault(FaultKind::FetchOutside, 0x20000, 0x20000),
            1,
        ),
    ];
    for (words, version, ended, count) in cases {
        let file = wrap(alloc, words)?;
        let got = run::<Brand, _>(&rt, alloc, Blank::new(1), &file, version);
        assert_eq!(rt; got, (ended, count), "at {words:?}");
    }
    Ok(())
}

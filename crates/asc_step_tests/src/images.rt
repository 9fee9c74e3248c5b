ghost use Rattle.std.specs.Prelude.{◌≡◌};

use asc_elf::{ElfFault, read};
use asc_model::Version;
use asc_shape::State;
use std::test::Fail;

// One segment of three instructions at 0x10000, where the program begins.
const FIRST: [u8; 96] = [
    0x7F, 0x45, 0x4C, 0x46, 0x01, 0x01, 0x01, 0x00, 0x00, 0x00, 0x00, 0x00, 0x00, 0x00, 0x00, 0x00,
    0x02, 0x00, 0xF3, 0x00, 0x01, 0x00, 0x00, 0x00, 0x00, 0x00, 0x01, 0x00, 0x34, 0x00, 0x00, 0x00,
    0x00, 0x00, 0x00, 0x00, 0x00, 0x00, 0x00, 0x00, 0x34, 0x00, 0x20, 0x00, 0x01, 0x00, 0x00, 0x00,
    0x00, 0x00, 0x00, 0x00, 0x01, 0x00, 0x00, 0x00, 0x54, 0x00, 0x00, 0x00, 0x00, 0x00, 0x01, 0x00,
    0x00, 0x00, 0x01, 0x00, 0x0C, 0x00, 0x00, 0x00, 0x0C, 0x00, 0x00, 0x00, 0x07, 0x00, 0x00, 0x00,
    0x04, 0x00, 0x00, 0x00, 0x93, 0x08, 0xD0, 0x05, 0x13, 0x05, 0x70, 0x00, 0x73, 0x00, 0x00, 0x00,
];

// Puts bytes over a file, from a place on.
fn patch(file: &mut [u8], place: u8, bytes: &[u8]) {
    let from = place as usize;
    if let Some(part) = file.get_mut(from..)
        && let Some(part) = part.get_mut(..bytes.len())
    {
        part.copy_from_slice(bytes);
    }
}

#[test]
fn image_faults(rt: HostRuntime) {
    for (place, bytes, want) in [
        (0, &[0x00][..], Some(ElfFault::Magic)),
        (4, &[0x02][..], Some(ElfFault::Class)),
        (5, &[0x02][..], Some(ElfFault::Data)),
        (6, &[0x00][..], Some(ElfFault::Version)),
        (16, &[0x03][..], Some(ElfFault::FileType)),
        (18, &[0xF4][..], Some(ElfFault::Machine)),
        (36, &[0x01][..], Some(ElfFault::Flags)),
        (36, &[0x10][..], None),
        (42, &[0x21][..], Some(ElfFault::HeaderSize)),
        (44, &[0x00][..], Some(ElfFault::NoLoad)),
        (44, &[0x02][..], Some(ElfFault::Table)),
        (52, &[0x03][..], Some(ElfFault::Interp)),
        (72, &[0x0B][..], Some(ElfFault::Segment(0))),
        (24, &[0x02][..], Some(ElfFault::Entry)),
        (24, &[0x00, 0x00, 0x02, 0x00][..], Some(ElfFault::Entry)),
        (72, &[0xC0, 0xFF][..], None),
        (72, &[0xC1, 0xFF][..], Some(ElfFault::TooLarge)),
    ] {
        let mut file = FIRST;
        patch(&mut file, place, bytes);
        let fault = read(&file, 65_536, Version::One).err();
        assert_eq!(rt; fault, want, "at {place}");
    }
}

#[test]
fn cut_images(rt: HostRuntime) {
    for length in 0..=96 {
        let want = match length {
            0..=51 => Some(ElfFault::Short),
            52..=83 => Some(ElfFault::Table),
            84..=95 => Some(ElfFault::Segment(0)),
            _ => None,
        };
        let fault = read(&FIRST[..length], 65_536, Version::Two).err();
        assert_eq!(rt; fault, want, "at {length}");
    }
}

#[test]
fn hostile_images(rt: HostRuntime) {
    const FAR: &[u8] = &[0xFF, 0xFF, 0xFF, 0xFF];
    for (place, bytes, want) in [
        (28, FAR, Some(ElfFault::Table)),
        (44, &FAR[..2], Some(ElfFault::Table)),
        (56, FAR, Some(ElfFault::Segment(0))),
    ] {
        let mut file = FIRST;
        patch(&mut file, place, bytes);
        let fault = read(&file, 65_536, Version::One).err();
        assert_eq!(rt; fault, want, "at {place}");
    }

    let mut file = FIRST;
    patch(&mut file, 56, FAR);
    patch(&mut file, 68, &[0, 0, 0, 0]);
    assert!(rt; read(&file, 65_536, Version::One).is_ok());

    let mut file = FIRST;
    patch(&mut file, 24, &[0x00, 0x00, 0xFF, 0xFF]);
    patch(&mut file, 60, &[0x00, 0x00, 0xFF, 0xFF]);
    assert!(rt; read(&file, 65_536, Version::One).is_ok());
    let fault = read(&file, 131_072, Version::One).err();
    assert_eq!(rt; fault, Some(ElfFault::TooLarge));
}

// A second program header, between the first one and the code.
fn with_second(second: &[u8], code: &[u8]) -> [u8; 132] {
    let mut file = [0; 132];
    patch(&mut file, 0, &FIRST[..84]);
    patch(&mut file, 44, &[2]);
    patch(&mut file, 56, &[116]);
    patch(&mut file, 84, second);
    patch(&mut file, 116, &FIRST[84..]);
    patch(&mut file, 128, code);
    file
}

const ADDI_A0_9: [u8; 4] = [0x13, 0x05, 0x90, 0x00];

#[test]
fn later_segments_win(rt: HostRuntime) -> Result<(), Fail> {
    let second = [
        0x01, 0x00, 0x00, 0x00, 0x80, 0x00, 0x00, 0x00, 0x04, 0x00, 0x01, 0x00, 0x04, 0x00, 0x01,
        0x00, 0x04, 0x00, 0x00, 0x00, 0x04, 0x00, 0x00, 0x00,
    ];
    let mut cut = with_second(&second, &ADDI_A0_9);
    patch(&mut cut, 100, &[0x05]);
    assert_eq!(rt;
        read(&cut, 65_536, Version::Two).err(),
        Some(ElfFault::Segment(1))
    );

    let stack = [0x51, 0xE5, 0x74, 0x64];
    let in_order = with_second(&second, &ADDI_A0_9);
    let mut exchanged = in_order;
    patch(&mut exchanged, 52, &in_order[84..116]);
    patch(&mut exchanged, 84, &in_order[52..84]);
    for (file, want) in [
        (in_order, 0x0090_0513),
        (exchanged, 0x0070_0513),
        (with_second(&stack, &[]), 0x0070_0513),
    ] {
        let image = read(&file, 65_536, Version::One)?;
        let mut s = State::new(rt.alloc(), image.shape())?;
        image.put(&mut s);
        assert!(rt; s.holds(0x1_0004, 4));
        assert_eq!(rt; word(s.mem(0x1_0004, 4)), Some(want));
    }
    Ok(())
}

fn word(bytes: &[u8]) -> Option<u32> {
    match bytes {
        [first, second, third, fourth] => Some(u32::from_le_bytes([
            *first, *second, *third, *fourth,
        ])),
        _ => None,
    }
}

// Writes into a state here and there.
#[tactic(auto, using(asc_elf::proofs::Starts::kept))]
fn soil(s: &mut State)
    ensures { s.new.shape ≡ s.old.shape }
{
    s.set_pc(0xFFFF_FFFF);
    s.set_reg(1, 0xFFFF_FFFF);
    s.set_reg(31, 0xFFFF_FFFF);
    if s.holds(0x1_0000, 64) {
        s.write(0x1_0000, &[0xFF; 64]);
    }
    if s.holds(0x1_FFFC, 4) {
        s.write(0x1_FFFC, &[0xFF; 4]);
    }
}

#[test]
fn puts_the_image(rt: HostRuntime) -> Result<(), Fail> {
    for version in [Version::One, Version::Two] {
        let image = read(&FIRST, 65_536, version)?;
        assert_eq!(rt; image.low(), 0x1_0010);
        let mut s = State::new(rt.alloc(), image.shape())?;
        soil(&mut s);
        image.put(&mut s);
        assert_eq!(rt; s.pc(), 0x1_0000);
        for k in 0..32 {
            let want = if k == 2 { 0x1_FFC0 } else { 0 };
            assert_eq!(rt; s.reg(k), want, "at {k}");
        }
        assert!(rt; s.holds(0x1_0000, 65_536));
        let memory = s.mem(0x1_0000, 65_536);
        for (at, byte) in memory.iter().enumerate() {
            let want = FIRST[84..].get(at).copied().unwrap_or(0);
            assert_eq!(rt; *byte, want, "at {at}");
        }
    }
    Ok(())
}

#[test]
fn the_stack_is_kept_from_the_break(rt: HostRuntime) -> Result<(), Fail> {
    for (size, high) in [(65_536, 0x1_0010), (131_072, 0x2_0000)] {
        let image = read(&FIRST, size, Version::Two)?;
        assert_eq!(rt; image.low(), 0x1_0010);
        assert_eq!(rt; image.high(), high);
    }
    Ok(())
}

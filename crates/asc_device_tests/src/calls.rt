ghost use Rattle.std.specs.Prelude.{◌≡◌, ◌<◌};

use asc_calls::{Calls, Devices, Served, no_devices};
use asc_outside::{CountSink, ListSink, ListSource, Sink, Source, Steps, SureSource};
use asc_shape::{Shape, State};
use std::alloc::Global;
use std::marker::Brand;
use std::process::Abort;
use std::sync::ledger::{Blank, Ledger};

/// A call: its number, and then its arguments.
type Call = [u32; 4];

const READ: u32 = 63;

const WRITE: u32 = 64;

/// Where the programs of these tests have a buffer of four bytes.
const BUFFER: u32 = 0x10100;

/// A program that stands at its calls.
#[derive(Drop)]
struct Guest<L: Ledger> {
    state: State,
    calls: Calls,
    steps: Steps<L>,
}

impl<L: Ledger> Guest<L> {
    /// A program at `pc`, whose memory begins at 0x10000 and has `size` bytes. Its break may stand from 0x10010 to
    /// 0x20000, and its buffer holds `bytes`.
    fn new<R: Abort>(
        rt: &R,
        alloc: Global,
        blank: Blank,
        size: u32,
        pc: u32,
        bytes: [u8; 4],
    ) -> Guest<L>
        requires name { blank.name ≡ L.name }
        requires parts { blank.parts ≡ L.parts }
        requires some { 0 < L.parts }
    {
        let shape = Shape::new(0x10000, size).expect(rt, "a shape");
        let mut state = State::new(alloc, shape).expect(rt, "memory");
        state.set_pc(pc);
        assert!(rt; state.holds(BUFFER, 4));
        state.write(BUFFER, &bytes);
        Guest {
            state,
            calls: Calls::new(0x10010, 0x20000),
            steps: Steps::new(blank),
        }
    }

    /// Serves a call.
    fn ask<I: Source, O: Sink, E: Sink>(
        &mut self,
        call: Call,
        devices: &mut Devices<I, O, E>,
    ) -> Served {
        let [number, first, second, third] = call;
        self.state.set_reg(17, number);
        self.state.set_reg(10, first);
        self.state.set_reg(11, second);
        self.state.set_reg(12, third);
        self.calls.serve(&mut self.state, devices, &mut self.steps)
    }

    /// The pc and x10.
    fn stands(&self) -> (u32, u32) {
        (self.state.pc(), self.state.reg(10))
    }

    /// The bytes of the buffer.
    fn buffer<R: Abort>(&self, rt: &R) -> [u8; 4] {
        assert!(rt; self.state.holds(BUFFER, 4));
        let bytes = self.state.mem(BUFFER, 4);
        [bytes[0], bytes[1], bytes[2], bytes[3]]
    }
}

/// Serves one call at `pc`, with no input, and gives the answer, the pc and x10.
fn serve_one<L: Ledger, R: Abort>(
    rt: &R,
    alloc: Global,
    blank: Blank,
    pc: u32,
    number: u32,
    argument: u32,
) -> (Served, (u32, u32))
    requires name { blank.name ≡ L.name }
    requires parts { blank.parts ≡ L.parts }
    requires some { 0 < L.parts }
{
    let mut guest = Guest::<L>::new(rt, alloc, blank, 65_536, pc, [0; 4]);
    let served = guest.ask([number, argument, 0, 0], &mut no_devices(alloc));
    for k in 0..32 {
        let want = match k {
            10 => guest.state.reg(10),
            17 => number,
            _ => 0,
        };
        assert_eq!(rt; guest.state.reg(k), want, "register {k} after {number}");
    }
    (served, guest.stands())
}

#[test]
fn single_calls(rt: HostRuntime) {
    // The pc, the number and the argument, and then the answer, the pc and x10.
    for (pc, number, argument, answer, pc_after, x10_after) in [
        (0x10000, 93, 0x107, Served::Exit(7), 0x10000, 0x107),
        (0x10000, 94, 0x107, Served::Exit(7), 0x10000, 0x107),
        (0x10000, 1000, 5, Served::Went, 0x10004, 0xFFFF_FFDA),
        (0xFFFF_FFFC, 1000, 5, Served::Went, 0, 0xFFFF_FFDA),
    ] {
        let got = serve_one::<Brand, _>(&rt, rt.alloc(), Blank::new(1), pc, number, argument);
        assert_eq!(rt; got, (answer, (pc_after, x10_after)), "after {number}");
    }
}

/// A source of bytes that gives at most `most` a call, and fails one.
fn source<R: Abort>(rt: &R, alloc: Global, bytes: &[u8], most: usize, fails: u64) -> ListSource
    requires { 0 < most }
{
    let fails = vec![in alloc; fails; 1].expect(rt, "memory");
    ListSource::new(bytes.to_vec(alloc).expect(rt, "memory"), most, fails)
}

/// A sink with room for `room` bytes that takes at most one a call, and fails one; 0 for none.
fn sink<R: Abort>(rt: &R, alloc: Global, room: usize, fails: u64) -> ListSink {
    let fails = vec![in alloc; fails; 1].expect(rt, "memory");
    ListSink::new(alloc, room, 1, fails).expect(rt, "memory")
}

/// Reads from the input `abc`, of which the call that would come after the end was found fails.
fn reads<L: Ledger, R: Abort>(rt: &R, alloc: Global, blank: Blank, input: ListSource)
    requires name { blank.name ≡ L.name }
    requires parts { blank.parts ≡ L.parts }
    requires some { 0 < L.parts }
{
    let mut guest = Guest::<L>::new(rt, alloc, blank, 65_536, 0x10000, [0xEE; 4]);
    let mut devices = Devices::new(input, CountSink::new(), CountSink::new());
    let mut pc = 0x10000_u32;
    for (call, x10, buffer) in [
        ([READ, 0, 0x1FFFE, 4], 0xFFFF_FFF2, [0xEE; 4]),
        // A sum that wraps to an address in memory.
        ([READ, 0, 0xFFFF_FFFF, 0x10002], 0xFFFF_FFF2, [0xEE; 4]),
        ([READ, 5, BUFFER, 4], 0xFFFF_FFF7, [0xEE; 4]),
        ([READ, 0, 0, 0], 0, [0xEE; 4]),
        ([WRITE, 1, 0, 0], 0, [0xEE; 4]),
        ([WRITE, 1, 0x1FFFE, 4], 0xFFFF_FFF2, [0xEE; 4]),
        ([READ, 0, BUFFER, 4], 3, *b"abc\xEE"),
        ([READ, 0, BUFFER, 4], 0, *b"abc\xEE"),
        ([READ, 0, BUFFER, 0], 0, *b"abc\xEE"),
        ([1000, 0, BUFFER, 4], 0xFFFF_FFDA, *b"abc\xEE"),
    ] {
        let served = guest.ask(call, &mut devices);
        pc = pc.wrapping_add(4);
        assert_eq!(rt;
            (served, guest.stands(), guest.buffer(rt)),
            (Served::Went, (pc, x10), buffer)
        );
    }
    assert_eq!(rt; devices.out().count(), 0);
}

#[test]
fn read_call(rt: HostRuntime) {
    for (most, after_end) in [(8, 3), (1, 5)] {
        let input = source(&rt, rt.alloc(), b"abc", most, after_end);
        reads::<Brand, _>(&rt, rt.alloc(), Blank::new(1), input);
    }
}

/// Reads n bytes, and gives the answer, the pc and x10, and the buffer.
fn read_one<L: Ledger, R: Abort>(
    rt: &R,
    alloc: Global,
    blank: Blank,
    n: u32,
    input: ListSource,
) -> (Served, (u32, u32), [u8; 4])
    requires name { blank.name ≡ L.name }
    requires parts { blank.parts ≡ L.parts }
    requires some { 0 < L.parts }
{
    let mut guest = Guest::<L>::new(rt, alloc, blank, 65_536, 0x10000, [0xEE; 4]);
    let mut devices = Devices::new(input, CountSink::new(), CountSink::new());
    let served = guest.ask([READ, 0, BUFFER, n], &mut devices);
    (served, guest.stands(), guest.buffer(rt))
}

#[test]
fn asks_the_source(rt: HostRuntime) {
    // How many bytes a call gives, the call that fails, and how many bytes are read. Then the answer, the pc and x10, and
    // the buffer.
    for (most, fails, n, answer, after, buffer) in [
        // Where no byte is wanted the source is not asked.
        (1, 1, 0, Served::Went, (0x10004, 0), [0xEE; 4]),
        // A source that gives one byte a call is asked once for each, and not again.
        (1, 5, 4, Served::Went, (0x10004, 4), *b"abcd"),
        (8, 2, 4, Served::Went, (0x10004, 4), *b"abcd"),
        (2, 1, 4, Served::ReadFault, (0x10000, 0), [0xEE; 4]),
        (2, 2, 4, Served::ReadFault, (0x10000, 0), *b"ab\xEE\xEE"),
    ] {
        let input = source(&rt, rt.alloc(), b"abcdef", most, fails);
        let got = read_one::<Brand, _>(&rt, rt.alloc(), Blank::new(1), n, input);
        assert_eq!(rt; got, (answer, after, buffer), "{n} bytes, {most} a call");
    }
}

/// Writes `Hi` and a line end to a file, and gives the answer, and the pc and x10.
fn says_hi<L: Ledger, R: Abort>(
    rt: &R,
    alloc: Global,
    blank: Blank,
    file: u32,
    devices: &mut Devices<SureSource, ListSink, ListSink>,
) -> (Served, (u32, u32))
    requires name { blank.name ≡ L.name }
    requires parts { blank.parts ≡ L.parts }
    requires some { 0 < L.parts }
{
    let mut guest = Guest::<L>::new(rt, alloc, blank, 65_536, 0x10000, *b"Hi\n\0");
    let served = guest.ask([WRITE, file, BUFFER, 3], devices);
    (served, guest.stands())
}

#[test]
fn asks_the_sinks(rt: HostRuntime) {
    let alloc = rt.alloc();
    // The file, the room, the call that fails, and then the answer, the pc and x10, out and err.
    let cases: [(u32, usize, u64, Served, (u32, u32), &[u8], &[u8]); 7] = [
        (1, 3, 0, Served::Went, (0x10004, 3), b"Hi\n", b""),
        (1, 3, 2, Served::WriteFault, (0x10000, 1), b"H", b""),
        (1, 2, 0, Served::WriteFault, (0x10000, 1), b"Hi", b""),
        (2, 3, 0, Served::Went, (0x10004, 3), b"", b"Hi\n"),
        (2, 3, 1, Served::ErrFault, (0x10000, 2), b"", b""),
        (0, 3, 0, Served::Went, (0x10004, 0xFFFF_FFF7), b"", b""),
        (3, 3, 0, Served::Went, (0x10004, 0xFFFF_FFF7), b"", b""),
    ];
    for (file, room, fails, answer, after, put, said) in cases {
        let mut devices = Devices::new(
            SureSource::new(Vec::new(alloc)),
            sink(&rt, alloc, room, fails),
            sink(&rt, alloc, room, fails),
        );
        let (served, stands) = says_hi::<Brand, _>(&rt, alloc, Blank::new(1), file, &mut devices);
        assert_eq!(rt; served, answer);
        assert_eq!(rt; stands, after);
        assert_eq!(rt; devices.out().bytes(), put);
        assert_eq!(rt; devices.err().bytes(), said);
    }
}

/// Asks for a break again and again.
fn breaks<L: Ledger, R: Abort>(rt: &R, alloc: Global, blank: Blank)
    requires name { blank.name ≡ L.name }
    requires parts { blank.parts ≡ L.parts }
    requires some { 0 < L.parts }
{
    let mut guest = Guest::<L>::new(rt, alloc, blank, 131_072, 0x10000, [0xEE; 4]);
    let mut devices = no_devices(alloc);
    for (address, brk) in [
        (0, 0x10010),
        (0x20000, 0x20000),
        (0x20001, 0x20000),
        (0x1000F, 0x20000),
        (0x10010, 0x10010),
    ] {
        let served = guest.ask([214, address, 0, 0], &mut devices);
        assert_eq!(rt; served, Served::Went);
        assert_eq!(rt; guest.state.reg(10), brk);
        assert_eq!(rt; guest.buffer(rt), [0xEE; 4]);
    }
}

#[test]
fn moves_the_break(rt: HostRuntime) {
    breaks::<Brand, _>(&rt, rt.alloc(), Blank::new(1));
}

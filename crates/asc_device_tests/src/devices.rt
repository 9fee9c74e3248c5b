use asc_outside::{
    CountSink, Failed, Gate, ListSink, ListSource, ListStore, Loaded, Open, Point, Sink, Source,
    Store, StoreFault, SureSource,
};
use std::alloc::Global;
use std::process::Abort;
use std::test::Fail;

// Takes into a buffer of five dots, once for each answer that is wanted, and compares the whole buffer.
fn check_takes<S: Source>(
    rt: &impl Abort,
    source: &mut S,
    wants: &[(Result<usize, Failed>, &[u8; 5])],
) {
    for (want, after) in wants {
        let mut buffer = [b'.'; 5];
        assert_eq!(rt; source.take(&mut buffer), *want);
        assert_eq!(rt; buffer, **after);
    }
}

// Puts each piece, and compares each answer.
fn check_puts<S: Sink>(rt: &impl Abort, sink: &mut S, pieces: &[(&[u8], Result<usize, Failed>)]) {
    for (piece, want) in pieces {
        assert!(rt; !piece.is_empty());
        assert_eq!(rt; sink.put(piece), *want);
    }
}

// Reads each file into one buffer, and compares each answer and the buffer after it.
fn check_reads<S: Store>(
    rt: &impl Abort,
    store: &mut S,
    alloc: Global,
    reads: &[(&str, usize, Result<Loaded, StoreFault>, &[u8])],
) {
    let mut buffer = Vec::new(alloc);
    for (name, most, want, after) in reads {
        assert_eq!(rt; store.read(name, &mut buffer, *most), *want, "at {name}");
        assert_eq!(rt; buffer.as_slice(), *after, "at {name}");
    }
}

fn pass_all<G: Gate>(gate: &G) {
    gate.pass(Point::Taken, 1);
    gate.pass(Point::Ended, u64::MAX);
}

#[test]
fn list_source(rt: HostRuntime) -> Result<(), Fail> {
    let alloc = rt.alloc();
    let bytes = b"abcdefg".to_vec(alloc)?;
    let mut source = ListSource::new(bytes, 3, [2].to_vec(alloc)?);
    let wants = [
        (Ok(3), b"abc.."),
        (Err(Failed), b"....."),
        (Ok(3), b"def.."),
        (Ok(1), b"g...."),
        (Ok(0), b"....."),
    ];
    check_takes(&rt, &mut source, &wants);
    Ok(())
}

#[test]
fn sure_source(rt: HostRuntime) -> Result<(), Fail> {
    let mut source = SureSource::new(b"abcdefg".to_vec(rt.alloc())?);
    let wants = [(Ok(5), b"abcde"), (Ok(2), b"fg..."), (Ok(0), b".....")];
    check_takes(&rt, &mut source, &wants);
    Ok(())
}

#[test]
fn list_sink(rt: HostRuntime) -> Result<(), Fail> {
    let alloc = rt.alloc();
    let mut sink = ListSink::new(alloc, 2, 1, [2].to_vec(alloc)?)?;
    let pieces = [
        (b"abc".as_slice(), Ok(1)),
        (b"bc".as_slice(), Err(Failed)),
        (b"bc".as_slice(), Ok(1)),
        (b"c".as_slice(), Err(Failed)),
    ];
    check_puts(&rt, &mut sink, &pieces);
    assert_eq!(rt; sink.bytes(), b"ab".as_slice());
    Ok(())
}

#[test]
fn count_sink(rt: HostRuntime) {
    let mut sink = CountSink::new();
    check_puts(
        &rt,
        &mut sink,
        &[(b"abc".as_slice(), Ok(3)), (b"de".as_slice(), Ok(2))],
    );
    assert_eq!(rt; sink.count(), 5);
}

#[test]
fn list_store(rt: HostRuntime) -> Result<(), Fail> {
    let alloc = rt.alloc();
    let mut files = Vec::new(alloc);
    files.push((String::from_str(alloc, "a")?, b"one".to_vec(alloc)?))?;
    files.push((String::from_str(alloc, "b")?, b"two!".to_vec(alloc)?))?;
    files.push((String::from_str(alloc, "a")?, b"hidden".to_vec(alloc)?))?;
    let mut store = ListStore::new(files, [4].to_vec(alloc)?);
    let reads = [
        ("a", 3, Ok(Loaded::Whole), b"one".as_slice()),
        ("b", 3, Ok(Loaded::Longer), b"".as_slice()),
        ("c", 9, Err(StoreFault::Failed), b"".as_slice()),
        ("b", 9, Err(StoreFault::Failed), b"".as_slice()),
        ("b", 9, Ok(Loaded::Whole), b"two!".as_slice()),
    ];
    check_reads(&rt, &mut store, alloc, &reads);
    Ok(())
}

#[test]
fn open_gate() {
    pass_all(&Open);
}

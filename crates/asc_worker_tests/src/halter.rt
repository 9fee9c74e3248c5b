//! The word that stops workers.
use asc_traj::Halt;
use asc_work::Halter;
use std::test::Fail;

/// It does nothing. Its call shows that threads may share values of a type, and hand them on.
fn is_shared<T: Send + Sync>(_value: &T) {}

#[test]
fn halts(rt: HostRuntime) -> Result<(), Fail> {
    let (mut halter, mut flags) = Halter::open(rt.alloc(), 2)?;
    for flag in &mut flags {
        assert!(rt; !flag.asked());
    }
    halter.halt();
    for flag in &mut flags {
        assert!(rt; flag.asked() && flag.asked());
    }
    Ok(())
}

#[test]
fn shared(rt: HostRuntime) -> Result<(), Fail> {
    let (halter, mut flags) = Halter::open(rt.alloc(), 1)?;
    is_shared(&halter);
    is_shared(&flags.pop().expect(&rt, "a flag"));
    Ok(())
}

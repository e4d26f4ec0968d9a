// The rows A to H, and what the lineage records. What is expected is worked out by hand from the rules of
// the calls.
ghost use Rattle.std.specs.Prelude.{◌≡◌};
ghost use Rattle.rights.specs.declared.calls.Call.TheVariants.{Cut, Receive};
ghost use Rattle.model.specs.Plain as plain;
ghost use Rattle.model_tests.specs.Start as spec;

use crate::start::start;
use model::{Capability, Object, State, World, stays_full};
use rights::{Call, NewObject, Rights};
use rv32::Step;
use std::test::Fail;

// The first word of a call that can't be done.
const NO: u32 = 0xffff_ffff;

// A number that names no slot, so that nothing is handed on.
const NOTHING: u32 = 0xffff_ffff;

// A cut from the pool in slot 0.
fn cut(what: NewObject, into: u32) -> Call
    ensures { result ≡ Cut 0 what into }
{
    Call::Cut {
        pool: 0,
        what,
        into,
    }
}

// To receive at the port in a slot, and what is handed on into slot 8.
fn receive(port: u32) -> Call
    ensures { result ≡ Receive port 8 }
{
    Call::Receive { port, into: 8 }
}

// What slot `s` of table 4 holds.
fn held(world: &World, s: u32) -> Option<Capability>
    ensures { result ≡ plain.slot_at (plain.object (plain.plain world.now) 4) s }
{
    world.get(4)?.slot(s)
}

// How much of pool 0 is used.
fn used(world: &World) -> Option<u64>
    ensures { result ≡ spec.used (plain.object (plain.plain world.now) 0) }
{
    match world.get(0)? {
        Object::Pool { used, .. } => Some(*used),
        _ => None,
    }
}

// The state of a thread.
fn state(world: &World, p: usize) -> Option<State>
    ensures { result ≡ spec.state (plain.object (plain.plain world.now) p) }
{
    match world.get(p)? {
        Object::Thread(t) => Some(t.state),
        _ => None,
    }
}

// A port takes 64 bytes, and the first page begins at 4,096: then the pool is full.
#[test]
fn row_a(rt: HostRuntime) -> Result<(), Fail> {
    let mut world = start(rt.alloc())?;
    let calls = [
        (cut(NewObject::Port, 7), 0),
        (cut(NewObject::Page, 8), 0),
        (cut(NewObject::Page, 9), 0),
        (cut(NewObject::Port, 10), NO),
    ];
    for (call, expected) in calls {
        world.carry_out(5, Step::Call(call))?;
        assert_eq!(rt; world.cpu(5).get(10), expected, "{call:?}");
    }
    assert_eq!(rt; used(&world), Some(12_288));
    Ok(())
}

// What was cut is gone, and the pool is as new.
#[test]
fn row_b(rt: HostRuntime) -> Result<(), Fail> {
    let mut world = start(rt.alloc())?;
    let calls = [
        cut(NewObject::Port, 7),
        cut(NewObject::Page, 8),
        cut(NewObject::Page, 9),
        Call::Revoke { slot: 0 },
        cut(NewObject::Page, 10),
    ];
    for call in calls {
        world.carry_out(5, Step::Call(call))?;
        assert_eq!(rt; world.cpu(5).get(10), 0, "{call:?}");
    }
    for s in 7..10 {
        assert_eq!(rt; held(&world, s), None, "slot {s}");
    }
    assert_eq!(rt; used(&world), Some(4096));
    Ok(())
}

// Who receives gets the badge of the copy and the words.
#[test]
fn row_c(rt: HostRuntime) -> Result<(), Fail> {
    let mut world = start(rt.alloc())?;
    let copy = Call::Copy {
        from: 2,
        into: 7,
        rights: Rights::try_from(2)?,
        badge: 5,
    };
    let send = Call::Send {
        port: 7,
        hand_on: NOTHING,
        words: [1, 2, 3, 4],
    };
    for (p, call) in [(5, copy), (6, receive(2)), (5, send)] {
        world.carry_out(p, Step::Call(call))?;
    }
    let cpu = world.cpu(6);
    assert_eq!(rt;
        [10, 11, 12, 13, 14, 15].map(|x| cpu.get(x)),
        [0, 5, 1, 2, 3, 4]
    );
    assert_eq!(rt; world.cpu(5).get(10), 0);
    assert_eq!(rt; state(&world, 6), Some(State::Ready));
    Ok(())
}

// A copy of a copy goes with it; what was revoked stays itself.
#[test]
fn row_d(rt: HostRuntime) -> Result<(), Fail> {
    let mut world = start(rt.alloc())?;
    let copy = |from, into| Call::Copy {
        from,
        into,
        rights: Rights::all(),
        badge: 0,
    };
    let calls = [
        (copy(3, 7), 0),
        (copy(7, 8), 0),
        (Call::Revoke { slot: 7 }, 0),
        (copy(8, 9), NO),
    ];
    for (call, expected) in calls {
        world.carry_out(5, Step::Call(call))?;
        assert_eq!(rt; world.cpu(5).get(10), expected, "{call:?}");
    }
    assert_eq!(rt; held(&world, 7).map(|c| c.object), Some(3));
    assert_eq!(rt; held(&world, 8), None);
    Ok(())
}

// The page goes from slot 3 to slot 8, by a port that may hand on.
#[test]
fn row_e(rt: HostRuntime) -> Result<(), Fail> {
    let mut world = start(rt.alloc())?;
    let send = Call::Send {
        port: 2,
        hand_on: 3,
        words: [9, 0, 0, 0],
    };
    for (p, call) in [(6, receive(2)), (5, send)] {
        world.carry_out(p, Step::Call(call))?;
    }
    assert_eq!(rt; held(&world, 3), None);
    assert_eq!(rt; held(&world, 8).map(|c| c.object), Some(3));
    assert_eq!(rt; world.cpu(6).get(12), 9);
    Ok(())
}

// By a copy that may only write nothing is handed on.
#[test]
fn row_f(rt: HostRuntime) -> Result<(), Fail> {
    let mut world = start(rt.alloc())?;
    let before = held(&world, 3);
    let copy = Call::Copy {
        from: 2,
        into: 7,
        rights: Rights::try_from(2)?,
        badge: 0,
    };
    let send = Call::Send {
        port: 7,
        hand_on: 3,
        words: [9, 0, 0, 0],
    };
    for (p, call) in [(6, receive(2)), (5, copy), (5, send)] {
        world.carry_out(p, Step::Call(call))?;
    }
    assert_eq!(rt; held(&world, 3), before);
    assert_eq!(rt; held(&world, 8), None);
    assert_eq!(rt; world.cpu(6).get(12), 9);
    Ok(())
}

// Who waits at a port that goes with its pool gets no.
#[test]
fn row_g(rt: HostRuntime) -> Result<(), Fail> {
    let mut world = start(rt.alloc())?;
    let calls = [(5, cut(NewObject::Port, 7)), (6, receive(7))];
    for (p, call) in calls {
        world.carry_out(p, Step::Call(call))?;
    }
    assert_eq!(rt; state(&world, 6), Some(State::Waits(7)));
    world.carry_out(5, Step::Call(Call::Revoke { slot: 0 }))?;
    assert_eq!(rt; world.cpu(6).get(10), NO);
    assert_eq!(rt; state(&world, 6), Some(State::Ready));
    Ok(())
}

// A badge that is there stays.
#[test]
fn row_h(rt: HostRuntime) -> Result<(), Fail> {
    let mut world = start(rt.alloc())?;
    let calls = [(2, 7, Rights::try_from(6)?, 5), (7, 8, Rights::all(), 6)];
    for (from, into, rights, badge) in calls {
        let copy = Call::Copy {
            from,
            into,
            rights,
            badge,
        };
        world.carry_out(5, Step::Call(copy))?;
        assert_eq!(rt; world.cpu(5).get(10), 0, "{copy:?}");
    }
    assert_eq!(rt; held(&world, 8).map(|c| c.badge), Some(5));
    assert_eq!(rt;
        held(&world, 8).map(|c| c.rights),
        Some(Rights::try_from(6)?)
    );
    Ok(())
}

// What is cut and what is copied is recorded, each with the one that it was made from, and no entry is
// empty; a move, a call that is refused, a drop and a revoke record nothing and lose nothing.
#[test]
fn lineage(rt: HostRuntime) -> Result<(), Fail> {
    stays_full();
    let mut world = start(rt.alloc())?;
    let copy = Call::Copy {
        from: 7,
        into: 8,
        rights: Rights::all(),
        badge: 0,
    };
    let calls = [
        (cut(NewObject::Port, 7), 0),
        (copy, 0),
        (copy, NO),
        (Call::Move { from: 8, into: 9 }, 0),
        (Call::Drop { slot: 9 }, 0),
        (Call::Revoke { slot: 0 }, 0),
    ];
    for (call, expected) in calls {
        world.carry_out(5, Step::Call(call))?;
        assert_eq!(rt; world.cpu(5).get(10), expected, "{call:?}");
    }
    assert_eq!(rt; world.lineage.len(), 2);
    for (x, expected) in world.lineage.iter().zip([(8, 1), (9, 8)]) {
        assert_eq!(rt; x.map(|c| (c.birth, c.mother)), Some(expected));
    }
    Ok(())
}

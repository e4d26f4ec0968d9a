// A small image, worked out by hand from the format: a line, a table of one slot and a thread.
use crate::{Replayed, StartError, run, run_inputs, start};
use image::{Inputs, Part};
use model::{Capability, Object, State};
use rights::{Refusal, Rights};
use std::test::Fail;

// The headers are at 6, the slot at 15, and the thread at 22: its table there, its space from 24 on,
// its ready mark at 216 and its pc at 217.
const BEGIN: &[u8; 24] = b"HOLD\x03\0\x05\0\0\x01\x01\0\x04\0\0\x01\0\x05\x09\0\0\0\x02\0";

fn small() -> [u8; 221] {
    let mut image = [0; 221];
    image[..24].copy_from_slice(BEGIN);
    image[216] = 1;
    image[217] = 16;
    image
}

#[test]
fn starts_small(rt: HostRuntime) {
    let Ok(world) = start(rt.alloc(), &small(), 1) else {
        panic!(rt; "it is not taken")
    };
    assert_eq!(rt;
        (world.objects.len(), world.births, world.lineage.len()),
        (3, 1, 0)
    );
    let Some(Object::Table { slots, .. }) = world.objects.get(1) else {
        panic!(rt; "object 1 is no table")
    };
    let Ok(rights) = Rights::try_from(5) else {
        panic!(rt; "5 means no rights")
    };
    let held = Capability {
        object: 0,
        rights,
        badge: 9,
        birth: 1,
        mother: 0,
    };
    assert_eq!(rt; slots.first().copied(), Some(Some(held)));
    let Some(Object::Thread(thread)) = world.objects.get(2) else {
        panic!(rt; "object 2 is no thread")
    };
    assert_eq!(rt;
        (thread.state, thread.table, thread.cpu.pc),
        (State::Ready, Some(1), 16)
    );
}

// It ends in the thread, or takes a frame more than there are.
#[test]
fn refuses_small(rt: HostRuntime) {
    let cut = StartError::Refused(Refusal::Length(24));
    assert_eq!(rt; start(rt.alloc(), BEGIN, 1).err(), Some(cut));
    let frames = StartError::Refused(Refusal::Frames(1));
    assert_eq!(rt; start(rt.alloc(), &small(), 0).err(), Some(frames));
}

// The thread has no page to read its instruction from, and stops; a byte comes in at the line. Object 0
// is no thread.
#[test]
fn runs_small(rt: HostRuntime) {
    let Ok(Replayed { world, said }) = run(rt.alloc(), &small(), &[0, 2, 0, 1, 0, 0, 65], 1) else {
        panic!(rt; "it is not carried out")
    };
    assert_eq!(rt; said.len(), 0);
    let Some(Object::Thread(thread)) = world.objects.get(2) else {
        panic!(rt; "object 2 is no thread")
    };
    assert_eq!(rt; (thread.state, thread.cpu.pc), (State::Stopped, 0));
    let Some(Object::Line { heard, .. }) = world.objects.first() else {
        panic!(rt; "object 0 is no line")
    };
    assert_eq!(rt; (heard.len(), heard.front().copied()), (1, Some(65)));
    let event = StartError::Refused(Refusal::Event(3));
    let row = [0, 2, 0, 0, 0, 0];
    assert_eq!(rt; run(rt.alloc(), &small(), &row, 1).err(), Some(event));
}

// The same of two files. Events that go on beyond what was read are refused at the first byte too many.
#[test]
fn runs_inputs(rt: HostRuntime) -> Result<(), Fail> {
    let more = StartError::Refused(Refusal::Event(7));
    for (goes_on, expected) in [(false, None), (true, Some(more))] {
        let inputs = Inputs {
            image: Part {
                bytes: small()[..].to_vec(rt.alloc())?,
                more: false,
            },
            events: Part {
                bytes: [0, 2, 0, 1, 0, 0, 65][..].to_vec(rt.alloc())?,
                more: goes_on,
            },
        };
        assert_eq!(rt; run_inputs(rt.alloc(), &inputs).err(), expected);
    }
    Ok(())
}

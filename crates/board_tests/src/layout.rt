// A pool's slot in the second of three units, byte by byte; then its links; then all of it cleared.
use board::{Board, Capability, Object, links, parts};
use rights::{Rights, UnknownRights};
use std::mem::size_of;
use std::process::Abort;
use std::test::Fail;

// The second unit, once the slot is written.
const SLOT: [u8; 64] = [
    1, 0, 0, 0, // a pool's number and 1
    65, 0, 0, 0, // place
    128, 1, 0, 0, // size, 384
    3, 0, 0, 0, // used
    1, 2, 0, 0, 4, 0, 0, 0, // level, 4 * 2^32 + 513
    5, 0, 0, 0, // reads and hands on
    0xef, 0xbe, 0xad, 0xde, // badge
    0, 0, 0, 0, 0, 0, 0, 0, 0, 0, 0, 0, 0, 0, 0, 0, // no links
    0, 0, 0, 0, 0, 0, 0, 0, 0, 0, 0, 0, 0, 0, 0, 0, // not used
];

// The same unit with links alone.
const LINKS: [u8; 64] = [
    0, 0, 0, 0, 0, 0, 0, 0, 0, 0, 0, 0, 0, 0, 0, 0, // no content
    0, 0, 0, 0, 0, 0, 0, 0, 0, 0, 0, 0, 0, 0, 0, 0, //
    2, 0, 0, 0, // depth
    44, 1, 0, 0, // next, 300
    4, 0, 0, 0, // previous
    5, 0, 0, 0, // up
    0, 0, 0, 0, 0, 0, 0, 0, 0, 0, 0, 0, 0, 0, 0, 0, // not used
];

fn pool() -> Result<Capability, UnknownRights> {
    Ok(Capability {
        object: Object::Pool {
            place: 65,
            size: 384,
            used: 3,
            level: 17_179_869_697,
        },
        rights: Rights::try_from(5)?,
        badge: 0xdead_beef,
    })
}

// One of the three units has these bytes.
fn assert_unit(rt: &impl Abort, bytes: &[u8], number: usize, expected: &[u8; 64]) {
    let unit = bytes.chunks_exact(64).nth(number).unwrap_or(&[]);
    assert_eq!(rt; unit, expected.as_slice());
}

#[test]
fn slot_by_hand(rt: HostRuntime) -> Result<(), Fail> {
    let pool = pool()?;
    let mut bytes = [0u8; 192];
    let mut board = Board::new(&mut bytes);
    board.put_slot(2, Some(pool));
    assert_unit(&rt, board.bytes(), 0, &[0u8; 64]);
    assert_unit(&rt, board.bytes(), 1, &SLOT);
    assert_unit(&rt, board.bytes(), 2, &[0u8; 64]);
    assert_eq!(rt; board.slot(2), Some(pool));
    assert_eq!(rt; board.slot(1), None);
    assert_eq!(rt; board.touched(), 24);
    Ok(())
}

#[test]
fn links_by_hand(rt: HostRuntime) {
    let mut bytes = [0u8; 192];
    links::put_depth(&mut bytes, 2, 2);
    links::put_next(&mut bytes, 2, 300);
    links::put_prev(&mut bytes, 2, 4);
    links::put_up(&mut bytes, 2, 5);
    assert_unit(&rt, &bytes, 0, &[0u8; 64]);
    assert_unit(&rt, &bytes, 1, &LINKS);
    assert_unit(&rt, &bytes, 2, &[0u8; 64]);
    assert_eq!(rt; links::next(&bytes, 2), 300);
    assert_eq!(rt; links::next(&bytes, 3), 0);
}

#[test]
fn clears_its_units(rt: HostRuntime) {
    let mut bytes = [7u8; 192];
    parts::clear(&mut bytes, 2, 1);
    assert_unit(&rt, &bytes, 0, &[7u8; 64]);
    assert_unit(&rt, &bytes, 1, &[0u8; 64]);
    assert_unit(&rt, &bytes, 2, &[7u8; 64]);
    parts::clear(&mut bytes, 2, 3);
    assert_unit(&rt, &bytes, 2, &[7u8; 64]);
}

#[test]
fn sizes(rt: HostRuntime) {
    assert_eq!(rt; size_of::<Object>(), 24);
    assert_eq!(rt; size_of::<Capability>(), 32);
    assert_eq!(rt; size_of::<Option<Capability>>(), 40);
    assert_eq!(rt; size_of::<Board>(), 24);
}

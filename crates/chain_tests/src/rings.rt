// A root in slot 1, two copies of it in slots 3 and 2, and a copy of the second copy in slot 5.
use board::{Board, Capability, Object, links};
use chain::{insert_after, shift, sweep, take_out};
use rights::{Rights, UnknownRights};
use std::process::Abort;
use std::test::Fail;

fn page() -> Result<Capability, UnknownRights> {
    Ok(Capability {
        object: Object::Page { place: 65 },
        rights: Rights::try_from(7)?,
        badge: 0,
    })
}

// Slot 1 alone in a ring, and the three others put in.
fn four(board: &mut Board) {
    board.put_next(1, 1);
    board.put_prev(1, 1);
    board.put_depth(1, 0);
    insert_after(board, 1, 3);
    insert_after(board, 1, 2);
    insert_after(board, 2, 5);
}

// What comes after a slot, what before it, and how deep it is.
fn assert_links(rt: &impl Abort, bytes: &[u8], place: u32, expected: (u32, u32, u32)) {
    let found = (
        links::next(bytes, place),
        links::prev(bytes, place),
        links::depth(bytes, place),
    );
    assert_eq!(rt; found, expected);
}

#[test]
fn copies_follow_what_they_are_made_from(rt: HostRuntime) {
    let mut bytes = [0u8; 320];
    let mut board = Board::new(&mut bytes);
    four(&mut board);
    assert_links(&rt, board.bytes(), 1, (2, 3, 0));
    assert_links(&rt, board.bytes(), 2, (5, 1, 1));
    assert_links(&rt, board.bytes(), 5, (3, 2, 2));
    assert_links(&rt, board.bytes(), 3, (1, 5, 1));
}

#[test]
fn moved_and_dropped(rt: HostRuntime) {
    let mut bytes = [0u8; 320];
    let mut board = Board::new(&mut bytes);
    four(&mut board);
    shift(&mut board, 2, 4);
    assert_links(&rt, board.bytes(), 1, (4, 3, 0));
    assert_links(&rt, board.bytes(), 4, (5, 1, 1));
    assert_links(&rt, board.bytes(), 5, (3, 4, 2));
    take_out(&mut board, 4);
    assert_links(&rt, board.bytes(), 1, (5, 3, 0));
    assert_links(&rt, board.bytes(), 5, (3, 1, 1));
    assert_links(&rt, board.bytes(), 3, (1, 5, 1));
}

#[test]
fn revoked(rt: HostRuntime) -> Result<(), Fail> {
    let page = Some(page()?);
    let mut bytes = [0u8; 320];
    let mut board = Board::new(&mut bytes);
    four(&mut board);
    for place in 1..6u32 {
        board.put_slot(place, page);
    }
    let before = board.touched();
    sweep(&mut board, 2);
    assert_eq!(rt; board.touched(), before.saturating_add(15));
    assert_links(&rt, board.bytes(), 2, (3, 1, 1));
    assert_links(&rt, board.bytes(), 3, (1, 2, 1));
    assert_eq!(rt; board.slot(5), None);
    assert_eq!(rt; board.slot(2), page);
    assert_eq!(rt; board.slot(4), page);
    Ok(())
}

// Each public function once, as it runs: what is mapped is seen and stored to, and leaves.
use rv32::{Memory, Width};
use space::{Line, Mapping, Side, Space, store, unmap_everywhere};
use std::alloc::AllocError;

#[test]
fn a_page_comes_and_goes(rt: HostRuntime) -> Result<(), AllocError> {
    let mut board = vec![in rt.alloc(); 7u8; 8192]?;
    let mut side = Side::fresh();
    side.threads[3].pages.map(9, 65, true);
    side.threads[3].pages.map(10, 1, false);
    let found = side.threads[3].pages.look_up(9);
    let wanted = Some(Mapping {
        place: 65,
        writes: true,
    });
    assert_eq!(rt; found, wanted);
    let done = store(
        &mut board,
        &side.threads[3].pages,
        0x9004,
        Width::Word,
        0x0403_0201,
    );
    let read_only = store(&mut board, &side.threads[3].pages, 0xa000, Width::Byte, 1);
    assert_eq!(rt; (done, read_only), (true, false));
    let space = Space {
        board: &board,
        pages: &side.threads[3].pages,
    };
    assert_eq!(rt; space.word(0x9004), Some(0x0403_0201));
    assert_eq!(rt; space.half(0x9006), Some(0x0403));
    assert_eq!(rt; space.byte(0xa000), Some(7));
    assert_eq!(rt; space.byte(0xb000), None);
    unmap_everywhere(&mut side.threads, 65, 64);
    side.threads[3].pages.unmap(10);
    assert_eq!(rt; side.threads[3].pages.look_up(9), None);
    assert_eq!(rt; side.threads[3].pages.look_up(10), None);
    Ok(())
}

#[test]
fn bytes_wait_in_order(rt: HostRuntime) {
    let mut line = Line::fresh(1);
    line.come_in(5);
    line.come_in(6);
    assert_eq!(rt; line.hear(), Some(5));
    assert_eq!(rt; line.hear(), Some(6));
    assert_eq!(rt; line.hear(), None);
}

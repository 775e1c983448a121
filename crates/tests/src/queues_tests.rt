// Queues and screens: a queue goes round its row, and screens grow in any order.
use queues::{Full, Queue, Screens};
use std::test::Fail;

#[test]
fn goes_round(rt: HostRuntime) {
    let mut rows = [0u8; 8192];
    let mut out = [0u8; 4096];
    let mut queue = Queue::empty();
    let first = [7u8; 4095];
    assert!(rt; queue.put(&mut rows, 1, &first, 4096) == 4095);
    assert!(rt; queue.take_into(&rows, 1, 4096, &mut out) == 4095);
    assert!(rt; queue.put(&mut rows, 1, b"abc", 2) == 2);
    assert!(rt; queue.take_into(&rows, 1, 9, &mut out) == 2);
    assert!(rt; out[0] == b'a' && out[1] == b'b' && out[2] == 7);
}

#[test]
fn grow(rt: HostRuntime) -> Result<(), Fail> {
    let mut row = [0u8; 5];
    let mut screens = Screens::empty();
    assert!(rt; screens.append(&mut row, 3, b"xy").is_ok());
    assert!(rt; screens.append(&mut row, 0, b"abc").is_ok());
    assert!(rt; screens.append(&mut row, 15, b"z") == Err(Full));
    assert!(rt; screens.screen(&row, 0) == b"abc".as_slice());
    assert!(rt; screens.screen(&row, 3) == b"xy".as_slice());
    Ok(())
}

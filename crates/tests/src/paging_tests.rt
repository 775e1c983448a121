// Process memory: a process begins in memory that held other things, stores a word, and is copied.
use paging::{Cache, Paging};
use std::test::Fail;
use turns::vocabulary::Sizes;

#[test]
fn copies(rt: HostRuntime) -> Result<(), Fail> {
    let mut lent = vec![in rt.alloc(); 7u8; 335_872]?;
    let frames = lent.as_mut_slice();
    let sizes = Sizes {
        processes: 2,
        opens: 4,
        pipes: 1,
        handles: 5,
        memory: 4096,
        pipe: 4,
        file: 256,
        files: 2,
        screens: 1,
        turn: 8,
    };
    let mut paging = Paging::set_up(sizes, frames);
    paging.begin(sizes, frames, 0);
    let mut cache = Cache::none();
    assert!(rt;
        cache
            .store(&paging, frames, 0, 4092, 0x0403_0201_u32)
            .is_some()
    );
    assert!(rt; cache.store(&paging, frames, 0, 4096, 1_u32).is_none());
    paging.begin_copy(sizes, frames, 0, 1);
    let mut copy = Cache::none();
    assert_eq!(rt; copy.load(&paging, frames, 1, 4095), Some(4_u8));
    assert_eq!(rt; copy.load(&paging, frames, 1, 0), Some(0_u8));
    assert_eq!(rt; copy.load::<u8>(&paging, frames, 1, 4096), None);
    Ok(())
}

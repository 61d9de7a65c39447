//! Lists in pages, which lie in raw memory.
use page_pool::Pool;
use std::test::*;

// Numbers from 1 on; the 1,001st is written anew after the list was cut.
#[test]
fn items_lie_in_pages(rt: HostRuntime) -> Result<(), Fail> {
    let mut pool = Pool::new(rt.alloc());
    for number in 1..1026u16 {
        if pool.len() < 2000 {
            pool.push(number)?;
        }
    }
    pool.truncate(1000);
    if pool.len() < 2000 {
        pool.push(7)?;
    }
    assert_eq!(rt; pool.len(), 1001);
    assert_eq!(rt; pool.get(1000), 7);
    assert_eq!(rt; pool.page(0).len(), 1001);
    pool.reserve(2000)?;
    for number in 0..2000u16 {
        if pool.len() < 4000 {
            pool.push(number)?;
        }
    }
    assert_eq!(rt; pool.len(), 3001);
    assert_eq!(rt; pool.pages(), 3);
    Ok(())
}

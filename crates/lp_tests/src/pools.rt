//! A pool's records end with it.
use lp_pool::{Pool, lend_pair};
use std::process::Abort;
use std::rc::Rc;
use std::slice;
use std::test::Fail;

fn fill(rt: &impl Abort, pool: &mut Pool<Rc<u32>>, counted: &Rc<u32>) -> Result<(), Fail> {
    pool.reserve(1500)?;
    for _ in 0..1100 {
        assert!(rt; pool.spare() > 0);
        pool.push(counted.clone()?);
    }
    Ok(())
}

#[test]
fn drops_each_record_once(rt: HostRuntime) -> Result<(), Fail> {
    let mut pool = Pool::new(rt.alloc())?;
    let counted = Rc::new(rt.alloc(), 7u32)?;
    let filled = fill(&rt, &mut pool, &counted);
    let most = Rc::strong_count(&counted);
    drop(pool);
    let least = Rc::strong_count(&counted);
    drop(counted);
    filled?;
    assert_eq!(rt; most, 1101);
    assert_eq!(rt; least, 1);
    Ok(())
}

/// Two records, swapped where they are lent together.
fn swapped(pool: &mut Pool<u32>) -> Result<(u32, u32), Fail> {
    pool.reserve(2)?;
    let a = pool.push(10u32);
    let b = pool.push(20u32);
    let (x, y) = lend_pair(slice::from_mut(pool), a, b);
    std::mem::swap(x, y);
    Ok((*pool.get(a), *pool.get(b)))
}

#[test]
fn lends_two_records(rt: HostRuntime) -> Result<(), Fail> {
    let mut pool = Pool::new(rt.alloc())?;
    let records = swapped(&mut pool);
    drop(pool);
    let (a, b) = records?;
    assert!(rt; a == 20 && b == 10);
    Ok(())
}

//! When a spare is used.

use paraid_base::DiskNo;
use paraid_spare::Pool;

// A spare is used, if one is left; how many are left then.
fn used(pool: &mut Pool) -> u8 {
    if pool.left() > 0 {
        pool.taken();
        pool.settled();
    }
    pool.left()
}

// Of one spare that waits for no tick: what is due with no disk gone and with disk 2 gone, how many
// are left once it is used, and what is due then.
fn used_at_once() -> (Option<DiskNo>, Option<DiskNo>, u8, Option<DiskNo>) {
    let mut pool = Pool::new(1, 0);
    let (none, due) = (pool.due(None), pool.due(Some(2)));
    let left = used(&mut pool);
    (none, due, left, pool.due(Some(2)))
}

// What is due for disk 2 before a tick was waited for it and after, and for disk 3.
fn due_after_a_tick(pool: &mut Pool) -> [Option<DiskNo>; 3] {
    let before = pool.due(Some(2));
    pool.waited(2);
    [before, pool.due(Some(2)), pool.due(Some(3))]
}

// How often some disks of eight were spun up, once disks 3 and 4 were and one spare was used.
fn spun() -> [u64; 4] {
    let mut pool = Pool::new(2, 1);
    used(&mut pool);
    pool.spun(3, 5);
    pool.spun(4, 5);
    [pool.slot(0), pool.slot(3), pool.slot(4), pool.slot(7)]
}

// Whether one is due after a tick alone, and how many are left then.
fn used_after_a_tick(pool: &mut Pool) -> (bool, u8) {
    let is_due = due_after_a_tick(pool) == [None, Some(2), None];
    (is_due, used(pool))
}

#[test]
fn a_spare_is_used_at_once(rt: HostRuntime) {
    assert!(rt; used_at_once() == (None, Some(2), 0, None));
}

// A wait of one tick begins anew after a spare that could not be attached.
#[test]
fn a_spare_is_used_at_the_tick_that_is_due(rt: HostRuntime) {
    let mut pool = Pool::new(2, 1);
    assert!(rt; used_after_a_tick(&mut pool) == (true, 1));
    assert!(rt; used_after_a_tick(&mut pool) == (true, 0));
}

#[test]
fn spin_ups_are_counted(rt: HostRuntime) {
    assert!(rt; spun() == [0, 1, 2, 0]);
}

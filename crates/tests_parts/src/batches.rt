//! A batch holds 96 targets.

use paraid_base::Block;
use paraid_txn::Batch;
use std::alloc::Global;

// A batch with a block for each of 96 places of disk 2.
fn whole_batch(alloc: Global) -> Option<Batch> {
    let mut batch = Batch::new(alloc).ok()?;
    let block = Block::zero();
    for place in 100..196 {
        batch.add(2, place, &block).ok()?;
    }
    Some(batch)
}

// How many targets a batch holds that refuses one more on this disk, at this place.
fn refused_at(batch: &mut Batch, disk: u8, place: u32) -> Option<u8> {
    match batch.add(disk, place, &Block::zero()) {
        Ok(()) => None,
        Err(full) => Some(full.count),
    }
}

#[test]
fn a_full_batch_takes_a_target_that_it_holds_and_no_other(rt: HostRuntime) {
    let Some(mut batch) = whole_batch(rt.alloc()) else {
        assert!(rt; false, "96 targets have room");
        return;
    };
    assert!(rt; refused_at(&mut batch, 2, 100) == None);
    assert!(rt; refused_at(&mut batch, 2, 196) == Some(96));
    assert!(rt; refused_at(&mut batch, 3, 100) == Some(96));
    assert!(rt; batch.count() == 96);
}

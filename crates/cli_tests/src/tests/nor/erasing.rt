//! Which writes erase a block.

use nor_flash::{FuseNor, MemoryNor, NorDisk};
use std::alloc::{AllocError, Global};
use suit_edge::{Disk, Edge};

// How often a device of 16 blocks erases one when a byte is written and then another over it. A write that fails ends a test, as
// running out of memory does.
fn erases(alloc: Global, first: u8, second: u8) -> Result<u64, AllocError> {
    let nor = MemoryNor::new(alloc, 16, &[])?;
    let mut disk = NorDisk::new(FuseNor::new(nor, u64::MAX));
    let before = disk.size() == 49_152 && disk.write_at(5, &[first]) == Edge::Done;
    let done = before && disk.write_at(5, &[second]) == Edge::Done;
    if done {
        Ok(disk.into_nor().into_nor().erases())
    } else {
        Err(AllocError)
    }
}

#[test]
fn a_write_that_only_clears_erases_nothing(rt: HostRuntime) -> Result<(), AllocError> {
    assert!(rt; erases(rt.alloc(), 0xf0, 0x70)? == 0);
    // the block and the three names
    assert!(rt; erases(rt.alloc(), 0xf0, 0xf8)? == 4);
    Ok(())
}

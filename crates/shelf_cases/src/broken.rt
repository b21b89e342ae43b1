// Shelves that always fault, alone and below a fault shelf.
use crate::call::{play, read, renew, write};
use broken_shelf::BrokenShelf;
use shelf::fault::FaultShelf;
use std::alloc::Global;

pub fn codes(rt: &impl Print, heap: Global) -> anyhow::Result<()> {
    println!(rt; "\nA shelf that always faults, with every code that a disk's fault may have.")?;
    for code in 2..=8u8 {
        let mut shelf = BrokenShelf::new(3, code);
        let disk = usize::from(code);
        play(rt, heap, &mut shelf, &[read(disk, 2)])?;
    }
    let mut shelf = BrokenShelf::new(3, 9);
    let calls = [
        read(0, 0),
        write(31, 2, 1),
        renew(7),
        read(32, 0),
        write(0, 3, 1),
        renew(32),
    ];
    play(rt, heap, &mut shelf, &calls)
}

pub fn below(rt: &impl Print, heap: Global) -> anyhow::Result<()> {
    println!(rt;
        "\nThe same below a fault shelf, whose disk 0 is gone at access 2: a renewal that fails below leaves it gone and marked."
    )?;
    let mut shelf = FaultShelf::new(BrokenShelf::new(3, 6));
    shelf.add(0, 2, 3)?;
    let calls = [
        read(1, 0),
        read(0, 0),
        read(0, 0),
        renew(0),
        read(0, 0),
        read(0, 3),
    ];
    play(rt, heap, &mut shelf, &calls)?;
    println!(rt; "  counted: {} of disk 0", shelf.count(0))?;
    Ok(())
}

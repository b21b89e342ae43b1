// Fault shelves over a memory shelf: causes, counts, and one over another.
use crate::call::{play, read, renew, write};
use crate::memory::small;
use shelf::Shelf;
use shelf::fault::FaultShelf;
use std::alloc::Global;
use std::io;

// Prints how many accesses of disks 0 and 1 were counted.
fn counted<S: Shelf>(rt: &impl Print, shelf: &FaultShelf<S>) -> io::Result<()> {
    println!(rt;
        "  counted: {} of disk 0, {} of disk 1",
        shelf.count(0),
        shelf.count(1)
    )
}

pub fn causes(rt: &impl Print, heap: Global) -> anyhow::Result<()> {
    println!(rt;
        "\nA fault shelf. Access 2 of disk 0 is a medium fault, access 4 comes late; access 2 of disk 1 finds it gone."
    )?;
    let mut shelf = FaultShelf::new(small(heap)?);
    shelf.add(0, 2, 2)?;
    shelf.add(0, 4, 4)?;
    shelf.add(1, 2, 3)?;
    let calls = [
        write(0, 1, 77),
        write(0, 1, 88),
        read(0, 1),
        read(0, 1),
        read(0, 1),
        read(1, 0),
        read(1, 0),
        write(1, 0, 99),
        read(1, 2),
        renew(0),
        renew(1),
        read(1, 0),
        write(1, 0, 99),
        read(1, 0),
    ];
    play(rt, heap, &mut shelf, &calls)?;
    counted(rt, &shelf)?;
    Ok(())
}

pub fn counts(rt: &impl Print, heap: Global) -> anyhow::Result<()> {
    println!(rt;
        "\nCounting: code 1 and renewals are not counted, and the count goes on after a renewal. Of two lines for one access the first counts."
    )?;
    let mut shelf = FaultShelf::new(small(heap)?);
    shelf.add(0, 3, 4)?;
    shelf.add(0, 3, 3)?;
    shelf.add(0, 5, 3)?;
    shelf.add(0, 6, 2)?;
    shelf.add(0, 8, 2)?;
    let calls = [
        read(0, 3),
        read(0, 0),
        renew(0),
        write(0, 0, 7),
        write(0, 3, 7),
        write(0, 0, 8),
        read(0, 0),
        read(0, 0),
        read(0, 0),
        renew(0),
        renew(2),
        read(0, 0),
        read(0, 0),
        read(0, 0),
    ];
    play(rt, heap, &mut shelf, &calls)?;
    counted(rt, &shelf)?;
    Ok(())
}

pub fn stacked(rt: &impl Print, heap: Global) -> anyhow::Result<()> {
    println!(rt;
        "\nA fault shelf over a fault shelf. Above, access 2 of disk 0 is a medium fault; below, access 2 of disk 0 comes late, and disk 1 is gone at 1."
    )?;
    let mut below = FaultShelf::new(small(heap)?);
    below.add(0, 2, 4)?;
    below.add(1, 1, 3)?;
    let mut above = FaultShelf::new(below);
    above.add(0, 2, 2)?;
    let calls = [
        read(0, 0),
        read(0, 0),
        read(0, 0),
        read(0, 2),
        read(1, 0),
        renew(0),
        read(0, 0),
        renew(1),
        read(1, 0),
        write(1, 0, 55),
    ];
    play(rt, heap, &mut above, &calls)?;
    counted(rt, &above)?;
    let (mut below, script) = above.into_parts();
    println!(rt;
        "  taken apart: the script above has counted {} of disk 0; the shelf below:",
        script.count(0)
    )?;
    counted(rt, &below)?;
    play(rt, heap, &mut below, &[read(1, 0), read(0, 0)])
}

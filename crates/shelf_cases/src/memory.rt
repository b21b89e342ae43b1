// A memory shelf: the order of its places, what a change leaves, and what lies out of range.
use crate::call::{Call, play, read, renew, write};
use shelf::memory::MemoryShelf;
use shelf::{Place, Shelf};
use std::alloc::{AllocError, Global};
use units::unit::UNIT;

// Bytes for this many units: each byte of unit i is 10 + i.
pub fn numbered(heap: Global, units: usize) -> Result<Vec<u8>, AllocError> {
    let mut bytes = vec![in heap; 0u8; units.saturating_mul(UNIT)]?;
    for (i, unit) in bytes.chunks_exact_mut(UNIT).enumerate() {
        unit.fill(10u8.wrapping_add((i & 0xff) as u8));
    }
    Ok(bytes)
}

// 2 disks of 3 rows.
pub fn small(heap: Global) -> Result<MemoryShelf, AllocError> {
    Ok(MemoryShelf::new(2, 3, numbered(heap, 6)?))
}

pub fn places(rt: &impl Print, heap: Global) -> anyhow::Result<()> {
    println!(rt;
        "\nA memory shelf of 2 disks and 3 rows. Of the bytes handed over, unit i holds 10 + i; 1.2 is disk 1, row 2."
    )?;
    let mut shelf = small(heap)?;
    let calls = [
        read(0, 0),
        read(0, 1),
        read(0, 2),
        read(1, 0),
        read(1, 1),
        read(1, 2),
    ];
    play(rt, heap, &mut shelf, &calls)
}

// The first byte of each of six units.
fn firsts(bytes: &[u8]) -> [u8; 6] {
    let mut firsts = [0; 6];
    for (first, unit) in firsts.iter_mut().zip(bytes.chunks_exact(UNIT)) {
        *first = unit.first().copied().unwrap_or(0);
    }
    firsts
}

pub fn changes(rt: &impl Print, heap: Global) -> anyhow::Result<()> {
    println!(rt; "\nA write changes one place, a renewal one disk.")?;
    let mut shelf = small(heap)?;
    let calls = [
        write(0, 1, 77),
        read(0, 0),
        read(0, 1),
        read(0, 2),
        read(1, 1),
        write(1, 2, 88),
        renew(0),
        read(0, 0),
        read(0, 1),
        read(1, 0),
        read(1, 2),
    ];
    play(rt, heap, &mut shelf, &calls)?;
    let bytes = shelf.into_bytes();
    println!(rt;
        "  taken apart: {} bytes, the units {:?}",
        bytes.len(),
        firsts(&bytes)
    )?;
    Ok(())
}

pub fn out_of_range(rt: &impl Print, heap: Global) -> anyhow::Result<()> {
    println!(rt;
        "\nOut of range in each argument, and bytes that are not a unit: code 1, and nothing changes."
    )?;
    let mut shelf = small(heap)?;
    let far = usize::MAX;
    let places = [
        read(2, 0),
        read(0, 3),
        read(far, 0),
        read(0, far),
        write(2, 0, 1),
        write(0, 3, 1),
        write(far, far, 1),
        renew(2),
        renew(far),
    ];
    play(rt, heap, &mut shelf, &places)?;
    let place = Place { disk: 0, row: 0 };
    for len in [0, 511, 513] {
        let lengths = [
            Call::Read { place, len },
            Call::Write {
                place,
                len,
                fill: 1,
            },
        ];
        play(rt, heap, &mut shelf, &lengths)?;
    }
    play(rt, heap, &mut shelf, &[read(0, 0), read(1, 2)])
}

// Disks, rows, and for how many units there are bytes.
const SIZES: [(usize, usize, usize); 11] = [
    (2, 3, 6),
    (2, 3, 5),
    (2, 3, 7),
    (0, 0, 0),
    (32, 1, 32),
    (33, 1, 33),
    (32, 0, 0),
    (1, 4096, 4096),
    (1, 4097, 4097),
    (18446744073709551615, 2, 0),
    (9223372036854775808, 2, 0),
];

pub fn without_disks(rt: &impl Print, heap: Global) -> anyhow::Result<()> {
    println!(rt;
        "\nA memory shelf whose bytes do not fit its numbers, or whose numbers are too large, has no disks."
    )?;
    for (disks, rows, units) in SIZES {
        let shelf = MemoryShelf::new(disks, rows, numbered(heap, units)?);
        println!(rt;
            "  {disks} x {rows} over {units} units: {} disks of {} rows",
            shelf.disks(),
            shelf.rows()
        )?;
    }
    let mut shelf = MemoryShelf::new(2, 3, numbered(heap, 5)?);
    play(
        rt,
        heap,
        &mut shelf,
        &[read(0, 0), write(0, 0, 1), renew(0)],
    )?;
    println!(rt; "  taken apart: {} bytes", shelf.into_bytes().len())?;
    Ok(())
}

// Lays a text over the disks of three layouts, loses a disk of each, rebuilds it from the others and compares.
#![tactic(auto)]

use layout::chain::Chain;
use layout::pair::Pair;
use layout::raid5::Raid5;

const INTRODUCTION: &str =
    "The text is cut into units of 512 bytes. Units that belong together form a stripe, and each stripe
has one member more, its check: the bytewise exclusive or of its data. So each member of a stripe is the
exclusive or of the others, and no layout puts two members of a stripe on one disk.
In the tables D7 is data unit 7, C2 is the check of stripe 2, and - is a place that is not used.";

mod story;
mod volume;

fn main(rt: HostRuntime) -> anyhow::Result<()> {
    let heap = rt.alloc();
    println!(rt; "What a disk array does for a text when a disk is lost.")?;
    println!(rt)?;
    rt.println(INTRODUCTION)?;
    story::tell(&rt, heap, "RAID-5, left-symmetric", Raid5::new(5, 4)?, 2)?;
    story::tell(&rt, heap, "Chained declustering", Chain::new(4, 5)?, 3)?;
    story::tell(&rt, heap, "Mirrored pairs", Pair::new(6, 2)?, 2)?;
    println!(rt)?;
    println!(rt; "Every unit of every lost disk came back.")?;
    Ok(())
}

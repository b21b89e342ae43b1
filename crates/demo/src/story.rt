// One layout's story: laid out, a disk lost, rebuilt, compared.
use crate::volume::Volume;
use anyhow::ensure;
use layout::lookup::unit_member;
use layout::{Layout, Member, Place};
use report::{Label, Table};
use std::alloc::{AllocError, Global};
use std::{fmt, io};
use units::unit::{UNIT, Unit};

const TEXT: &str =
    "A volume passed its test bench every day while hundreds of its stripes were silently damaged. \
The locks went by the number of a unit and not by its stripe, so two requests could change one stripe at the same time, \
each with its own idea of the check. Nobody saw it, for nobody reads a check while all disks are well. \
Then a drive was swapped, the new one was filled from the others, and the damage came to light where the lost units had been. \
An array is only as good as the units that nobody looks at. ";

// Tells the story of a layout that loses this disk.
pub fn tell<L: Layout + Copy + Drop>(
    rt: &impl Print,
    heap: Global,
    name: &str,
    layout: L,
    disk: usize,
) -> anyhow::Result<()> {
    println!(rt; "\n{name}: {}", Table { layout: &layout })?;
    let original = laid_out(heap, layout)?;
    let mut volume = laid_out(heap, layout)?;
    volume.lose(disk);
    println!(rt; "Disk {disk} is lost, and an empty one takes its place.")?;
    println!(rt; "{}", Kept::of(&original, &volume, disk))?;
    println!(rt;
        "Each unit that stood on it is rebuilt as the exclusive or (+) of the rest of its stripe."
    )?;
    rebuild(rt, &mut volume, disk)?;
    let kept = Kept::of(&original, &volume, disk);
    println!(rt; "{kept}")?;
    ensure!(kept.is_whole(), "a rebuilt unit is not what was laid out");
    Ok(())
}

// The data unit of this number: the text is said over and over.
fn text_unit(number: usize) -> Unit {
    let mut unit = [0; UNIT];
    let text = TEXT.as_bytes();
    let from = number.saturating_mul(UNIT);
    // By the place in the text: a `skip` would walk over all that comes before.
    for (i, byte) in unit.iter_mut().enumerate() {
        *byte = text[from.saturating_add(i) % text.len()];
    }
    unit
}

// The check of a stripe is its last member.
fn check_of<L: Layout>(layout: &L, stripe: usize) -> Member {
    Member {
        stripe,
        index: layout.data_width(),
    }
}

// A volume that is full of the text, with the check of each stripe.
fn laid_out<L: Layout + Copy + Drop>(heap: Global, layout: L) -> Result<Volume<L>, AllocError> {
    let mut volume = Volume::new(heap, layout)?;
    for number in 0..layout.data_units() {
        if let Some(member) = unit_member(&layout, number) {
            volume.write(member, text_unit(number));
        }
    }
    for stripe in 0..layout.stripes() {
        let check = check_of(&layout, stripe);
        volume.write(check, volume.sum_of_others(check));
    }
    Ok(volume)
}

// How many units on a disk are as they were laid out, of how many.
#[derive(Clone, Copy)]
struct Kept {
    disk: usize,
    right: usize,
    all: usize,
}

impl Kept {
    fn of<L: Layout + Copy + Drop>(original: &Volume<L>, volume: &Volume<L>, disk: usize) -> Kept {
        let layout = volume.layout();
        let members = || (0..layout.rows()).filter_map(|row| layout.owner(Place { disk, row }));
        Kept {
            disk,
            right: members()
                .filter(|&member| volume.read(member) == original.read(member))
                .count(),
            all: members().count(),
        }
    }

    fn is_whole(self) -> bool {
        self.right == self.all
    }
}

impl fmt::Display for Kept {
    fn fmt<W: fmt::Write>(&self, f: &mut fmt::Formatter<W>) -> fmt::Result {
        write!(
            f,
            "{} of the {} units on disk {} are what was laid out.",
            self.right, self.all, self.disk
        )
    }
}

// Rebuilds the disk row by row; of a data unit it says how its text begins.
fn rebuild<L: Layout + Copy + Drop>(
    rt: &impl Print,
    volume: &mut Volume<L>,
    disk: usize,
) -> io::Result<()> {
    let layout = volume.layout();
    for row in 0..layout.rows() {
        let Some(lost) = layout.owner(Place { disk, row }) else {
            println!(rt; "  row {row}: nobody owns this place")?;
            continue;
        };
        let unit = volume.sum_of_others(lost);
        volume.write(lost, unit);
        let sum = Sum {
            layout: &layout,
            lost,
        };
        if lost == check_of(&layout, lost.stripe) {
            println!(rt; "  row {row}: {sum}, a check")?;
        } else {
            println!(rt;
                "  row {row}: {sum}, which reads \"{}..\"",
                beginning(&unit).escape_ascii()
            )?;
        }
    }
    Ok(())
}

// The first words of a unit's text.
fn beginning(unit: &Unit) -> &[u8] {
    &unit[..40]
}

// A lost member as the sum of the others of its stripe.
#[derive(Drop)]
struct Sum<'a, L> {
    layout: &'a L,
    lost: Member,
}

impl<L: Layout> fmt::Display for Sum<'_, L> {
    fn fmt<W: fmt::Write>(&self, f: &mut fmt::Formatter<W>) -> fmt::Result {
        let width = self.layout.width();
        let member = self.lost;
        let others = (0..width)
            .filter(|&index| index != member.index)
            .map(|index| Label {
                member: Member { index, ..member },
                width,
            });
        write!(f, "{} = ", Label { member, width })?;
        f.write_joined(others, " + ")
    }
}

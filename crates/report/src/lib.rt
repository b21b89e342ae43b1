// A layout as a table of who stands where, for people to read.
#![tactic(auto)]

use layout::{Layout, Member, Place};
use std::fmt;

// A member of stripes of `width` members by a short name: D and the number of its data unit, or C and its stripe for a check.
#[derive(Clone, Copy)]
pub struct Label {
    pub member: Member,
    pub width: usize,
}

impl Label {
    fn letter_and_number(self) -> (char, usize) {
        let Member { stripe, index } = self.member;
        // All members but the check, as a layout's `data_width`: a label is handed the width, and no layout.
        let data = self.width.saturating_sub(1);
        if index == data {
            ('C', stripe)
        } else {
            ('D', stripe.saturating_mul(data).saturating_add(index))
        }
    }
}

impl fmt::Display for Label {
    fn fmt<W: fmt::Write>(&self, f: &mut fmt::Formatter<W>) -> fmt::Result {
        let (letter, number) = self.letter_and_number();
        write!(f, "{letter}{number}")
    }
}

// What stands at a place of the table: eight characters, with the label at their right end, or a dash.
#[derive(Clone, Copy)]
struct Cell(Option<Label>);

impl fmt::Display for Cell {
    fn fmt<W: fmt::Write>(&self, f: &mut fmt::Formatter<W>) -> fmt::Result {
        let Some(label) = self.0 else {
            return write!(f, "{:>8}", '-');
        };
        let (letter, number) = label.letter_and_number();
        let room = 7usize.saturating_sub(number.checked_ilog10().unwrap_or(0) as usize);
        write!(f, "{letter:>room$}{number}")
    }
}

// The whole layout: its sizes, then a line for each row and a column for each disk, with a dash where nobody owns the place.
#[derive(Drop)]
pub struct Table<'a, L> {
    pub layout: &'a L,
}

impl<L: Layout> fmt::Display for Table<'_, L> {
    fn fmt<W: fmt::Write>(&self, f: &mut fmt::Formatter<W>) -> fmt::Result {
        let disks = self.layout.disks();
        let rows = self.layout.rows();
        let width = self.layout.width();
        write!(
            f,
            "{disks} disks of {rows} rows, {} stripes of {width} members, {} data units\n  row",
            self.layout.stripes(),
            self.layout.data_units()
        )?;
        for disk in 0..disks {
            let room = if disk < 10 { 6usize } else { 5 };
            write!(f, "{:>room$} {disk}", "disk")?;
        }
        for row in 0..rows {
            write!(f, "\n {row:>4}")?;
            for disk in 0..disks {
                let owner = self.layout.owner(Place { disk, row });
                let label = owner.map(|member| Label { member, width });
                write!(f, "{}", Cell(label))?;
            }
        }
        Ok(())
    }
}

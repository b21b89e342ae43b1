// The three layouts: tables, round trips, edges of the numbers that they take, and questions out of range.
use denial::Denial;
use layout::chain::Chain;
use layout::pair::Pair;
use layout::raid5::Raid5;
use layout::{Layout, Member, Place};
use report::Table;
use std::{fmt, io};

// A layout with the name that it is printed under.
trait Named: Layout {
    const NAME: &'static str;
}

impl Named for Pair {
    const NAME: &'static str = "pair";
}

impl Named for Raid5 {
    const NAME: &'static str = "raid5";
}

impl Named for Chain {
    const NAME: &'static str = "chain";
}

pub fn tables(rt: &impl Print) -> anyhow::Result<()> {
    println!(rt;
        "Placing tables. D is a data unit, C the check of a stripe, - a place that nobody owns."
    )?;
    table(rt, &Pair::new(2, 3)?)?;
    table(rt, &Pair::new(6, 3)?)?;
    table(rt, &Raid5::new(3, 4)?)?;
    table(rt, &Raid5::new(5, 7)?)?;
    table(rt, &Raid5::new(8, 9)?)?;
    table(rt, &Chain::new(2, 2)?)?;
    table(rt, &Chain::new(4, 6)?)?;
    table(rt, &Chain::new(3, 5)?)?;
    Ok(())
}

fn table<L: Named>(rt: &impl Print, layout: &L) -> io::Result<()> {
    println!(rt; "\n{}: {}", L::NAME, Table { layout })
}

pub fn round_trips(rt: &impl Print) -> anyhow::Result<()> {
    println!(rt;
        "\nThere and back: owner(place(stripe, index)) over all members, place(owner(disk, row)) over all places."
    )?;
    round_trip(rt, &Pair::new(16, 4096)?)?;
    round_trip(rt, &Raid5::new(8, 4096)?)?;
    round_trip(rt, &Raid5::new(7, 4096)?)?;
    round_trip(rt, &Chain::new(16, 4096)?)?;
    round_trip(rt, &Chain::new(15, 4095)?)?;
    Ok(())
}

fn round_trip<L: Named>(rt: &impl Print, layout: &L) -> io::Result<()> {
    let members = Tally::of(layout.stripes(), layout.width(), |stripe, index| {
        let member = Member { stripe, index };
        let place = layout.place(member)?;
        Some(layout.owner(place) == Some(member))
    });
    let places = Tally::of(layout.disks(), layout.rows(), |disk, row| {
        let place = Place { disk, row };
        let member = layout.owner(place)?;
        Some(layout.place(member) == Some(place))
    });
    println!(rt;
        "{} of {} disks and {} rows",
        L::NAME,
        layout.disks(),
        layout.rows()
    )?;
    println!(rt; "  members: {members} have no place")?;
    println!(rt; "  places: {places} have no owner")
}

// How many questions were answered right, wrong and with none.
#[derive(Clone, Copy, Default)]
struct Tally {
    right: usize,
    wrong: usize,
    none: usize,
}

impl Tally {
    // Of all pairs of a number below `firsts` and one below `seconds`: whether each comes back right, or none.
    fn of<F: Fn(usize, usize) -> Option<bool>>(
        firsts: usize,
        seconds: usize,
        comes_back: F,
    ) -> Tally
        requires { F.IsAlwaysCallable comes_back }
    {
        let mut tally = Tally::default();
        for first in 0..firsts {
            for second in 0..seconds {
                tally.count(comes_back(first, second));
            }
        }
        tally
    }

    fn count(&mut self, answer: Option<bool>) {
        let of_kind = match answer {
            Some(true) => &mut self.right,
            Some(false) => &mut self.wrong,
            None => &mut self.none,
        };
        *of_kind = of_kind.saturating_add(1);
    }
}

// It ends in the number of those with none; what they have none of, the line says.
impl fmt::Display for Tally {
    fn fmt<W: fmt::Write>(&self, f: &mut fmt::Formatter<W>) -> fmt::Result {
        write!(
            f,
            "{} come back, {} go astray, {}",
            self.right, self.wrong, self.none
        )
    }
}

// Numbers at the edges of the tables: disks and rows.
const EDGES: [(usize, usize); 18] = [
    (0, 1),
    (1, 1),
    (2, 0),
    (2, 1),
    (2, 2),
    (2, 4096),
    (2, 4097),
    (3, 1),
    (3, 2),
    (8, 4096),
    (9, 2),
    (10, 4097),
    (15, 3),
    (16, 4096),
    (17, 2),
    (18, 2),
    (18446744073709551615, 2),
    (2, 18446744073709551615),
];

pub fn edges(rt: &impl Print) -> anyhow::Result<()> {
    println!(rt;
        "\nWhich numbers each layout takes: its data units, or the number of the denial."
    )?;
    println!(rt; "  disks x rows: pair, raid5, chain")?;
    for (disks, rows) in EDGES {
        println!(rt;
            "  {disks} x {rows}: {}, {}, {}",
            Taken::of(Pair::new(disks, rows)),
            Taken::of(Raid5::new(disks, rows)),
            Taken::of(Chain::new(disks, rows))
        )?;
    }
    Ok(())
}

// The data units of a layout that was made, or why it was not.
#[derive(Clone, Copy)]
struct Taken(Result<usize, Denial>);

impl Taken {
    fn of<L: Layout + Drop>(made: Result<L, Denial>) -> Taken {
        Taken(made.map(|layout| layout.data_units()))
    }
}

impl fmt::Display for Taken {
    fn fmt<W: fmt::Write>(&self, f: &mut fmt::Formatter<W>) -> fmt::Result {
        match self.0 {
            Ok(units) => write!(f, "{units} units"),
            Err(denial) => write!(f, "denial {}", denial.number()),
        }
    }
}

pub fn out_of_range(rt: &impl Print) -> anyhow::Result<()> {
    println!(rt; "\nQuestions out of range, each answered by none.")?;
    strays(rt, &Pair::new(6, 3)?)?;
    strays(rt, &Raid5::new(5, 7)?)?;
    strays(rt, &Chain::new(3, 5)?)?;
    Ok(())
}

// Pairs of numbers of which one at least is past its end.
fn past(first: usize, second: usize) -> [(usize, usize); 5] {
    let far = usize::MAX;
    [(first, 0), (0, second), (far, 0), (0, far), (far, far)]
}

fn strays<L: Named>(rt: &impl Print, layout: &L) -> io::Result<()> {
    let members = past(layout.stripes(), layout.width());
    let places = members.map(|(stripe, index)| layout.place(Member { stripe, index }));
    let spots = past(layout.disks(), layout.rows());
    let owners = spots.map(|(disk, row)| layout.owner(Place { disk, row }));
    println!(rt; "  {}: places {places:?}, owners {owners:?}", L::NAME)
}

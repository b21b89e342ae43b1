// A call of a shelf as a value, so that a table of calls can be played and printed.
use denial::fault::ShelfFault;
use shelf::{MOST_DISKS, Place, Shelf};
use std::alloc::Global;
use std::fmt;
use units::unit::UNIT;

// What the bytes of a buffer are before a read.
const BLANK: u8 = 0xee;

// The most bytes that a call takes.
const LONGEST: usize = 600;

// A read or a write of `len` bytes, which may be no unit, or a renewal.
#[derive(Clone, Copy)]
pub enum Call {
    Read { place: Place, len: usize },
    Write { place: Place, len: usize, fill: u8 },
    Renew { disk: usize },
}

// A read of a unit.
pub fn read(disk: usize, row: usize) -> Call {
    Call::Read {
        place: Place { disk, row },
        len: UNIT,
    }
}

// A write of a unit of equal bytes.
pub fn write(disk: usize, row: usize, fill: u8) -> Call {
    Call::Write {
        place: Place { disk, row },
        len: UNIT,
        fill,
    }
}

// A renewal of a disk.
pub fn renew(disk: usize) -> Call {
    Call::Renew { disk }
}

impl Call {
    // What came of it; of a read, the first byte.
    fn make<S: Shelf>(self, shelf: &mut S) -> Result<Option<u8>, Refusal> {
        match self {
            Call::Read { place, len } => read_first(shelf, place, len),
            Call::Write { place, len, fill } => {
                // An array, as in `read_first`.
                shelf.write(place, &[fill; LONGEST][..len.min(LONGEST)])?;
                Ok(None)
            }
            Call::Renew { disk } => {
                shelf.renew(disk)?;
                Ok(None)
            }
        }
    }
}

impl fmt::Display for Call {
    fn fmt<W: fmt::Write>(&self, f: &mut fmt::Formatter<W>) -> fmt::Result {
        match self {
            Call::Read { place, len } => {
                write!(f, "read {}.{}, {len} bytes", place.disk, place.row)
            }
            Call::Write { place, len, fill } => {
                write!(
                    f,
                    "write {}.{}, {len} bytes of {fill}",
                    place.disk, place.row
                )
            }
            Call::Renew { disk } => write!(f, "renew {disk}"),
        }
    }
}

// Why a call was not served: a fault, or one that has changed the buffer of a read.
#[derive(Clone, Copy)]
enum Refusal {
    Fault(ShelfFault),
    Spoilt(ShelfFault),
}

impl From<ShelfFault> for Refusal {
    fn from(fault: ShelfFault) -> Refusal {
        Refusal::Fault(fault)
    }
}

impl fmt::Display for Refusal {
    fn fmt<W: fmt::Write>(&self, f: &mut fmt::Formatter<W>) -> fmt::Result {
        match self {
            Refusal::Fault(fault) => write!(f, "{fault}"),
            Refusal::Spoilt(fault) => write!(f, "{fault}, and the buffer has changed"),
        }
    }
}

// What came of a call.
#[derive(Clone, Copy)]
struct Outcome(Result<Option<u8>, Refusal>);

impl fmt::Display for Outcome {
    fn fmt<W: fmt::Write>(&self, f: &mut fmt::Formatter<W>) -> fmt::Result {
        match self.0 {
            Ok(None) => write!(f, "served"),
            Ok(Some(byte)) => write!(f, "served, {byte}"),
            Err(refusal) => write!(f, "{refusal}"),
        }
    }
}

// Reads into a buffer of this length, and gives its first byte. The bytes are an array, since a Vec would bring an error that no call has.
fn read_first<S: Shelf>(shelf: &mut S, place: Place, len: usize) -> Result<Option<u8>, Refusal> {
    let mut bytes = [BLANK; LONGEST];
    let buffer = &mut bytes[..len.min(LONGEST)];
    match shelf.read(place, buffer) {
        Ok(()) => Ok(buffer.first().copied()),
        Err(fault) if buffer.iter().any(|&byte| byte != BLANK) => Err(Refusal::Spoilt(fault)),
        Err(fault) => Err(fault.into()),
    }
}

// The disks that a shelf shows as marked.
#[derive(Drop)]
struct Marks<'a, S> {
    shelf: &'a S,
}

impl<S: Shelf> fmt::Display for Marks<'_, S> {
    fn fmt<W: fmt::Write>(&self, f: &mut fmt::Formatter<W>) -> fmt::Result {
        let mut marked = (0..MOST_DISKS)
            .filter(|&disk| self.shelf.marked(disk))
            .peekable();
        if marked.peek().is_none() {
            return write!(f, " none");
        }
        for disk in marked {
            write!(f, " {disk}")?;
        }
        Ok(())
    }
}

// Makes the calls one after the other, and prints a line for each.
pub fn play<S: Shelf>(
    rt: &impl Print,
    heap: Global,
    shelf: &mut S,
    calls: &[Call],
) -> anyhow::Result<()> {
    for call in calls {
        let outcome = Outcome(call.make(shelf)).to_string(heap)?;
        println!(rt;
            "  {:<32} {outcome:<27} marked{}",
            call.to_string(heap)?,
            Marks { shelf }
        )?;
    }
    Ok(())
}

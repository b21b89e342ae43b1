// Layouts: on which disk and in which row each member of each stripe stands.
#![tactic(auto)]

ghost use Rattle.std.specs.Prelude.{◌≡◌, ◌<◌, IfSome};
ghost use Rattle.layout.specs.Examples.{PlacingExamples};
ghost use Rattle.layout.specs.Shape.{data_units, data_width, found, PlacingLaw, Shape};

pub use units::place::Place;

pub mod chain;
mod grid;
pub mod lookup;
pub mod pair;
pub mod raid5;

// A member of a stripe, by its index there: the data members from 0 on, then the check.
#[derive(Clone, Copy, PartialEq, Eq, Debug)]
pub struct Member {
    pub stripe: usize,
    pub index: usize,
}

// A layout shows the placing law: members stand within its disks and rows, a stripe's members on different
// disks, and a place's owner is exactly the member that stands there.
pub trait Layout {
    ghost shape: { Self → Shape };

    // Each layout answers these two from its own grid: one body for both would want a third method that each answers.
    fn disks(&self) -> usize
        ensures { result ≡ (shape self.now).disks };

    fn rows(&self) -> usize
        ensures { result ≡ (shape self.now).rows };

    fn stripes(&self) -> usize
        ensures { result ≡ (shape self.now).stripes };

    // How many members a stripe has, its check among them. Two layouts answer 2, and one its disks: no body here fits both.
    fn width(&self) -> usize
        ensures { result ≡ (shape self.now).width };

    // How many data members a stripe has: all but the check. It is also the index of the check.
    fn data_width(&self) -> usize
        ensures { result ≡ data_width (shape self.now) }
    {
        self.width() - 1
    }

    // How many data units the stripes hold in all.
    #[tactic(auto, using(crate::proofs::Spots::few_units))]
    fn data_units(&self) -> usize
        ensures { result ≡ data_units (shape self.now) }
    {
        self.stripes() * self.data_width()
    }

    // Where the member stands, or none out of range.
    // Each layout tests the range itself, here and in `owner`: bare formulas would need a `requires`, which by a rule of the project no
    // public function has.
    fn place(&self, member: Member) -> Option<Place>
        ensures found { result ≡ found (shape self.now) member }
        ensures small { IfSome result (λ place. place.disk < 16) };

    // The member that stands there, or none out of range or where nobody owns the place.
    fn owner(&self, place: Place) -> Option<Member>
        ensures { result ≡ (shape self.now).owner place };

    ghost placing: { (l : Self) → PlacingLaw (shape l) };
}

// Worked examples of the three tables hold. The function does nothing: a call is how the theorem is asked for.
pub fn placing_examples()
    ensures { PlacingExamples }
{}

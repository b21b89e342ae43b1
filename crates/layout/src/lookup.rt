// Questions to any layout, answered from the placing law alone.
ghost use Rattle.std.specs.Prelude.{◌≡◌, ℕ, ◌<◌, ◌≤◌, ◌↔◌, IfSome, IsTrue, count_ones};
ghost use Rattle.units.specs.Sets.{has};
ghost use Rattle.layout.specs.Shape.{IsDataMember, member_at, OnDisk, unit_member};

use super::{Layout, Member};
use units::set::Set;

// The member that data unit `unit` is, or none past the last unit.
pub fn unit_member<L: Layout>(layout: &L, unit: usize) -> Option<Member>
    ensures found { result ≡ unit_member (L.shape layout.now) unit }
    ensures data { IfSome result (IsDataMember (L.shape layout.now)) }
{
    if unit >= layout.data_units() {
        return None;
    }
    let data = layout.data_width();
    Some(Member {
        stripe: unit / data,
        index: unit % data,
    })
}

// Whether the member is one of the layout's and stands on the disk.
fn stands_on<L: Layout>(layout: &L, member: Member, disk: usize) -> bool
    ensures { IsTrue result ↔ OnDisk (L.shape layout.now) member disk }
{
    layout.place(member).is_some_and(|place| place.disk == disk)
}

// The members of a stripe that stand on a disk: at most one, whatever the layout.
pub fn members_on<L: Layout>(layout: &L, stripe: usize, disk: usize) -> Set
    ensures each { (j : ℕ) → IsTrue (has result j)
        ↔ OnDisk (L.shape layout.now) (member_at stripe j) disk }
    ensures one { count_ones result ≤ 1 }
{
    let mut members = Set::EMPTY;
    for index in 0..layout.width() {
        if stands_on(layout, Member { stripe, index }, disk) {
            members.insert(index);
        }
    }
    members
}

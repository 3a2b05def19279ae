//! The values of a set's arguments.

ghost use Rattle.std.specs.Prelude.{◌≡◌, ℕ, ◌<◌, ◌≤◌, length, pos, true, Some, slice_get, slice_index_or, slice_set};
ghost use Rattle.dt_values.specs.declared.ctype.Member.{Member};
ghost use Rattle.dt_values.specs.Held.{held_by, AreStored};
ghost use Rattle.dt_values.specs.Ranges.{fits_member};
ghost use Rattle.dt_values.specs.Stored.{stored};

use crate::ctype::Member;
use crate::name::Name;
use crate::stored::store;

/// The values of a set's arguments, in the set's order. The set has at most 32 arguments. Each value lies in the range
/// of its type, and an argument of another type has any value. The items past the arguments are 0.
#[derive(Clone, Copy)]
pub struct Values<'a> {
    pub members: &'a [Member],
    pub items: [i128; 32],
    pub ghost few: { length members.now ≤ 32 },
    pub ghost in_range: { (k : ℕ) → fits_member (slice_get members.now k) (slice_index_or items k (pos 0)) ≡ true },
    pub ghost zeros: { (k : ℕ) → length members.now ≤ k → slice_index_or items k (pos 0) ≡ pos 0 },
}

impl<'a> Values<'a> {
    /// What arguments hold after each of these numbers is assigned to its argument.
    pub fn stored(members: &'a [Member], numbers: &[i128; 32]) -> Values<'a>
        requires { length members.now ≤ 32 }
        ensures members { result.members.now ≡ members.now }
        ensures long { length result.items ≡ 32 }
        ensures items { AreStored members.now numbers.now result.items }
    {
        let mut items = [0; 32];
        for (i, member) in members.iter().enumerate() {
            items[i] = store(member.ctype, numbers[i]);
        }
        Values { members, items }
    }

    /// What arguments hold where each of them holds 0.
    pub fn zeros(members: &'a [Member]) -> Values<'a>
        requires { length members.now ≤ 32 }
        ensures members { result.members.now ≡ members.now }
        ensures long { length result.items ≡ 32 }
        ensures items { (k : ℕ) → slice_index_or result.items k (pos 0) ≡ pos 0 }
    {
        let items = [0; 32];
        Values { members, items }
    }

    /// The same, after a number is assigned to the argument at this place.
    pub fn assigned(&self, place: usize, number: i128) -> Values<'a>
        requires { place < length self.now.members.now }
        ensures members { result.members.now ≡ self.now.members.now }
        ensures items { (m : Member) → slice_get self.now.members.now place ≡ Some m
            → result.items ≡ slice_set self.now.items place (stored m.ctype number) }
    {
        let mut items = self.items;
        items[place] = store(self.members[place].ctype, number);
        Values {
            members: self.members,
            items,
        }
    }

    /// What the argument of this name holds. 0 where there is none.
    pub fn held(&self, name: Name) -> i128
        ensures { result ≡ held_by self.now.members.now self.now.items name }
    {
        for (i, member) in self.members.iter().enumerate() {
            if name == member.name {
                return self.items[i];
            }
        }
        0
    }
}

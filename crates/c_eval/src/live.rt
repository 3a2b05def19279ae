//! The live set of the decoder's union.

ghost use Rattle.std.specs.Prelude.{◌≡◌, ◌≢◌, ◌≤◌, ◌<◌, ℕ, ℤ, List, AllPairs, IfSome, length, map, option_map, take};
ghost use Rattle.c_eval.specs.LiveSet.{held_in, place_in};
ghost use Rattle.c_eval.specs.Runs.{all_lost, all_values, put};
ghost use Rattle.dt_values.specs.Members.{type_in};
ghost use Rattle.dt_values.specs.Stored.{stored};
ghost use Rattle.dt_values.specs.declared.ctype.Member.{Member};

use dt_values::{Member, Name, Values, store};

/// A set with the numbers that were assigned to its arguments last; `held` says which of them aren't lost.
#[derive(Clone, Copy)]
pub struct Live {
    pub set: Name,
    pub items: [i128; 32],
    pub held: [bool; 32],
}

impl Live {
    /// The set with all its arguments lost.
    pub fn lost(set: Name) -> Live
        ensures set { result.set ≡ set }
        ensures held { (members : List Member) → held_in members result.items result.held ≡ all_lost }
    {
        Live {
            set,
            items: [0; 32],
            held: [false; 32],
        }
    }

    /// What an argument holds. None where it is lost, or there is none of the name.
    pub fn held(&self, members: &[Member], name: Name) -> Option<i128>
        requires { length members.now ≤ 32 }
        ensures { result ≡ held_in members.now self.now.items self.now.held name }
    {
        for (i, member) in members.iter().enumerate() {
            if name == member.name {
                return if self.held[i] {
                    Some(store(member.ctype, self.items[i]))
                } else {
                    None
                };
            }
        }
        None
    }

    /// What a call hands over: what all arguments hold. None where one is lost.
    pub fn handed<'a>(&self, members: &'a [Member]) -> Option<Values<'a>>
        requires few { length members.now ≤ 32 }
        requires differ { AllPairs (λ a b. a.name ≢ b.name) members.now }
        ensures { option_map (λ values. take (length values.members.now) values.items) result
            ≡ all_values (map (λ m. held_in members.now self.now.items self.now.held m.name) members.now) }
    {
        for i in 0..members.len() {
            if !self.held[i] {
                return None;
            }
        }
        Some(Values::stored(members, &self.items))
    }

    /// The same after a number is assigned to an argument. None where the set has none of the name.
    pub fn assigned(&self, members: &[Member], name: Name, number: i128) -> Option<Live>
        requires { length members.now ≤ 32 }
        ensures held { option_map (λ live. held_in members.now live.items live.held) result
            ≡ option_map (λ t. put name (stored t number) (held_in members.now self.now.items self.now.held))
            (type_in members.now name) }
        ensures set { IfSome result (λ live. live.set ≡ self.now.set) }
    {
        let Some(place) = place_in(members, name) else {
            return None;
        };
        let mut items = self.items;
        items[place] = number;
        let mut held = self.held;
        held[place] = true;
        Some(Live {
            set: self.set,
            items,
            held,
        })
    }
}

// The place of the first argument of this name.
fn place_in(members: &[Member], name: Name) -> Option<usize>
    ensures { result ≡ place_in members.now name }
{
    for (i, member) in members.iter().enumerate() {
        if name == member.name {
            return Some(i);
        }
    }
    None
}

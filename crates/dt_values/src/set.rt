//! Argument sets.

ghost use Rattle.std.specs.Prelude.{◌≡◌};
ghost use Rattle.dt_values.specs.Members.{has_member};

use crate::ctype::Member;
use crate::items::Items;
use crate::name::Name;

/// The most arguments that a set has.
pub const MOST_ARGUMENTS: usize = 32;

/// The arguments of a set, in order. Contracts see the list of them.
pub type MemberList = Items<Member>;

/// An argument set. `outside` says that its struct is declared elsewhere, by `!extern`.
#[derive(Drop)]
pub struct SetDef {
    pub name: Name,
    pub members: MemberList,
    pub outside: bool,
}

/// Whether an argument has this name.
pub fn has_member(members: &[Member], name: &Name) -> bool
    ensures { result ≡ has_member members.now name.now }
{
    members.iter().any(|member| *name == member.name)
}

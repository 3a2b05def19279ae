//! What the arguments of a pattern hold on a word.

ghost use Rattle.std.specs.Prelude.{◌≡◌, ◌≤◌, ◌++◌, length, option_map};
ghost use Rattle.std.specs.Cmp.Lexicographic.{pointwise};
ghost use Rattle.std.specs.Ordering.{int_eq};
ghost use Rattle.dt_model.specs.SetOrder.{given_in};
ghost use Rattle.dt_match.specs.Arguments.{held_in, value_of};
ghost use Rattle.dt_host.specs.Calls.{AreItems};
ghost use Rattle.dt_match.specs.Readable.{AreArguments, AreReadable, IsReadableValue, held_next, number_given};
ghost use Rattle.dt_values.specs.Held.{held_by};

use crate::field::field_value;
use dt_host::Host;
use dt_model::FieldValue;
use dt_values::{Member, Name, Values};

/// What the arguments of a set hold on a word, by what a format and then a pattern give them. All are read again until
/// nothing changes, as some may refer to others.
pub(crate) fn values_on<'a, H: Host>(
    members: &'a [Member],
    kept: &[(Name, FieldValue)],
    own: &[(Name, FieldValue)],
    word: u64,
    host: &H,
) -> Values<'a>
    requires kept { AreReadable kept.now }
    requires own { AreReadable own.now }
    requires arguments { AreArguments members.now (kept.now ++ own.now) }
    ensures members { result.members.now ≡ members.now }
    ensures items { AreItems (held_in ((H.host host.now).answer (H.state host.now)) word members.now
        (kept.now ++ own.now)) members.now result.items }
{
    let mut values = Values::zeros(members);
    for _level in 0..kept.len() + own.len() {
        let next = next_values(members, kept, own, word, &values, host);
        if is_same(&next.items, &values.items) {
            return next;
        }
        values = next;
    }
    values
}

fn is_same(items: &[i128], others: &[i128]) -> bool
    ensures { result ≡ pointwise int_eq items.now others.now }
{
    items == others
}

// What they hold where those that are referred to hold these values.
fn next_values<'a, H: Host>(
    members: &'a [Member],
    kept: &[(Name, FieldValue)],
    own: &[(Name, FieldValue)],
    word: u64,
    held: &Values,
    host: &H,
) -> Values<'a>
    requires kept { AreReadable kept.now }
    requires own { AreReadable own.now }
    requires arguments { AreArguments members.now (kept.now ++ own.now) }
    ensures members { result.members.now ≡ members.now }
    ensures items { AreItems (held_next ((H.host host.now).answer (H.state host.now))
        (held_by held.now.members.now held.now.items) word members.now (kept.now ++ own.now))
        members.now result.items }
{
    let numbers = numbers(members, kept, own, word, held, host);
    Values::stored(members, &numbers)
}

// The numbers that they get.
fn numbers<H: Host>(
    members: &[Member],
    kept: &[(Name, FieldValue)],
    own: &[(Name, FieldValue)],
    word: u64,
    held: &Values,
    host: &H,
) -> [i128; 32]
    requires few { length members.now ≤ 32 }
    requires kept { AreReadable kept.now }
    requires own { AreReadable own.now }
    ensures { AreItems (number_given ((H.host host.now).answer (H.state host.now))
        (held_by held.now.members.now held.now.items) word (kept.now ++ own.now)) members.now result }
{
    let mut numbers = [0; 32];
    for (i, member) in members.iter().enumerate() {
        numbers[i] = number_given(kept, own, member.name, word, held, host);
    }
    numbers
}

// The number that an argument gets. 0 where it gets none.
fn number_given<H: Host>(
    kept: &[(Name, FieldValue)],
    own: &[(Name, FieldValue)],
    name: Name,
    word: u64,
    held: &Values,
    host: &H,
) -> i128
    requires kept { AreReadable kept.now }
    requires own { AreReadable own.now }
    ensures { result ≡ number_given ((H.host host.now).answer (H.state host.now))
        (held_by held.now.members.now held.now.items) word (kept.now ++ own.now) name }
{
    match number_in(kept, name, word, held, host) {
        Some(number) => number,
        None => number_in(own, name, word, held, host).unwrap_or(0),
    }
}

// The number that one of these lists gives it.
fn number_in<H: Host>(
    given: &[(Name, FieldValue)],
    name: Name,
    word: u64,
    held: &Values,
    host: &H,
) -> Option<i128>
    requires { AreReadable given.now }
    ensures { result ≡ option_map (value_of ((H.host host.now).answer (H.state host.now))
        (held_by held.now.members.now held.now.items) word) (given_in given.now name) }
{
    for (argument, value) in given {
        if name == *argument {
            return Some(value_of(value, word, held, host));
        }
    }
    None
}

// A field's value, or the constant.
fn value_of<H: Host>(value: &FieldValue, word: u64, held: &Values, host: &H) -> i128
    requires { IsReadableValue value.now }
    ensures { result ≡ value_of ((H.host host.now).answer (H.state host.now))
        (held_by held.now.members.now held.now.items) word value.now }
{
    match value {
        FieldValue::Field(field) => field_value(field, word, held, host),
        FieldValue::Constant(number) => i128::from(*number),
    }
}

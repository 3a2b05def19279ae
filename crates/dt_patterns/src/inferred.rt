//! The sets and formats that a line brings without naming them.

ghost use Rattle.std.specs.Prelude.{◌≡◌, ◌++◌, map, ℕ, List, IfOk, OnOk};
ghost use Rattle.dt_values.specs.Widths.{width_bits};
ghost use Rattle.dt_scope.specs.Fitting.{ValuesFit};
ghost use Rattle.dt_model.specs.declared.format.Format.{Format};
ghost use Rattle.dt_patterns.specs.Inference.{IsNewFormatFree, IsNewSetFree, constants_of, fields_of, formats_with, int_member};
ghost use Rattle.dt_patterns.specs.Inference.{sets_with};

use crate::infer::{Choice, is_constant};
use dt_model::{FieldValue, Format, ValueList};
use dt_scope::Scope;
use dt_values::{CType, Member, MemberList, Name, SetDef, Width};
use std::alloc::{AllocError, Global};

/// Adds the new set of these arguments, where there is one.
pub fn push_new_set(
    alloc: Global,
    scope: &mut Scope,
    choice: &Choice,
    values: &[(Name, FieldValue)],
) -> Result<(), AllocError>
    requires { IsNewSetFree scope.old.sets choice.now }
    ensures { OnOk result
        (scope.new ≡ record scope.old { sets = sets_with scope.old.sets values.now choice.now.new_set }) }
{
    let Some(name) = choice.new_set else {
        return Ok(());
    };
    let members = int_members(alloc, values)?;
    scope.push_set(SetDef {
        name,
        members: MemberList::of(members),
        outside: false,
    })
}

// Arguments of type `int` with the names of these.
fn int_members(alloc: Global, values: &[(Name, FieldValue)]) -> Result<Vec<Member>, AllocError>
    ensures { IfOk result (λ members. members.items ≡ map int_member values.now) }
{
    let mut members = Vec::new(alloc);
    for value in values {
        members.push(Member {
            ctype: CType::Int,
            name: value.0,
        })?;
    }
    Ok(members)
}

/// Adds the new format of these fields, where there is one.
pub fn push_new_format(
    scope: &mut Scope,
    width: Width,
    choice: &Choice,
    values: ValueList,
) -> Result<(), AllocError>
    requires free { IsNewFormatFree scope.old.formats choice.now }
    requires fits { ValuesFit values }
    ensures { OnOk result (scope.new ≡ record scope.old {
      formats = formats_with (width_bits width) scope.old.formats choice.now.set values choice.now.new_format;
    }) }
{
    let Some(name) = choice.new_format else {
        return Ok(());
    };
    scope.push_format(Format {
        name,
        set: choice.set,
        bits: width.bits(),
        fixed_bits: 0,
        fixed_mask: 0,
        ignored: 0,
        values,
    })
}

/// What a format and a pattern get of the values of a line.
#[derive(Drop)]
pub struct Shares {
    pub fields: ValueList,
    pub constants: ValueList,
}

/// The fields among these values, and the constants.
pub fn shares_of(alloc: Global, values: ValueList) -> Result<Shares, AllocError>
    ensures fields { IfOk result (λ shares. shares.fields ≡ fields_of values) }
    ensures constants { IfOk result (λ shares. shares.constants ≡ constants_of values) }
{
    let mut fields = Vec::new(alloc);
    let mut constants = Vec::new(alloc);
    for value in values.into_items() {
        if is_constant(&value.1) {
            constants.push(value)?;
        } else {
            fields.push(value)?;
        }
    }
    Ok(Shares {
        fields: ValueList::of(fields),
        constants: ValueList::of(constants),
    })
}

//! The rules that a pattern file can break, and their texts.

ghost use Rattle.std.specs.Prelude.{◌≡◌};

/// The rules, by their codes: K of files, L of structure, P of field lines, A of set lines,
/// G of format and pattern lines and H of groups. Each says when it is broken.
#[derive(Clone, Copy, Debug, PartialEq, Eq)]
pub enum Rule {
    /// The file has more physical lines than a file may have.
    K1,
    /// A token has more name bytes in a row than a name may have.
    K2,
    /// The indentation isn't two for each open group.
    L1,
    /// Something follows a closing brace or bracket.
    L2,
    /// A brace closes where the innermost open group isn't in braces, or a bracket where it is.
    L3,
    /// A bracket closes where no group is open.
    L4,
    /// Something follows an opening brace or bracket.
    L5,
    /// A group is open at the end of its file.
    L6,
    /// The first token is no brace or bracket, and no name, alone or after `%`, `&` or `@`.
    L7,
    /// A group opens inside 16 open ones.
    L8,
    /// There are more than 8,192 patterns in all files.
    L9,
    /// A field line names a second function.
    P1,
    /// The token has none of the forms of a field line.
    P2,
    /// The segment ends above the word, or is longer than the word.
    P3,
    /// The segments of the field have more bits than the word.
    P4,
    /// The field has neither a segment nor a function.
    P5,
    /// Two unnamed segments share a bit.
    P6,
    /// Another field has the name.
    P7,
    /// The segment has no bit.
    P8,
    /// The name of a function is no C name.
    P9,
    /// It is segment 17.
    P10,
    /// The token has none of the forms of a set line.
    A1,
    /// The set line has named the argument before.
    A2,
    /// A set or an earlier pattern has the name.
    A3,
    /// The argument has the name of a C keyword.
    A4,
    /// It is argument 33 of a set, a format or a pattern line.
    A5,
    /// The line names a second set.
    G1,
    /// No set has the name.
    G2,
    /// The line names a second format.
    G3,
    /// No format has the name.
    G4,
    /// The line has given the argument a value before.
    G5,
    /// No field has the name.
    G6,
    /// The token has none of the forms of a format or pattern line.
    G7,
    /// The line has more bits than the word.
    G8,
    /// The line hasn't as many bits as the word.
    G9,
    /// A format line names a format.
    G10,
    /// An argument of the line isn't one of the set's.
    G11,
    /// Another format has the name.
    G12,
    /// A pattern names both a format and a set.
    G13,
    /// The masks of the line's fixed bits and the format's share a bit.
    G14,
    /// The format has bits, and another count of them.
    G15,
    /// An argument has a value from the format and from the pattern.
    G16,
    /// An argument of the set has no value.
    G17,
    /// The masks of a field and of the fixed bits share a bit.
    G18,
    /// The masks of a field and of the ignored bits share a bit.
    G19,
    /// The masks of the fixed and of the ignored bits share a bit.
    G20,
    /// A bit is fixed, ignored or in a field nowhere.
    G21,
    /// A constant isn't from -2^31 to 2^32 - 1.
    G22,
    /// A named segment names no argument of the set.
    G23,
    /// The format's fields and the pattern's refer to one another.
    G24,
    /// An argument refers to itself, directly or through others.
    G25,
    /// The pattern has the name of a set that isn't its own.
    G26,
    /// An earlier pattern of the name has another set.
    G27,
    /// A new set would have the name of a set or of an earlier pattern, or a new format that of a format.
    G28,
    /// The group has no entry.
    H1,
    /// Entries that exclude one another aren't told apart by the bits that all of them fix.
    H2,
    /// Patterns below one group have different widths.
    H3,
}

impl Rule {
    ghost use Rattle.dt_fields.specs.RuleTexts.{rule_text};

    /// The code of the rule with its text, as a message shows them.
    pub fn text(self) -> &'static str
        ensures { result.now ≡ rule_text self }
    {
        match self {
            Rule::K1 => "K1 too many lines",
            Rule::K2 => "K2 long name",
            Rule::L1 => "L1 indentation",
            Rule::L2 => "L2 extra tokens",
            Rule::L3 => "L3 mismatched close",
            Rule::L4 => "L4 extra close",
            Rule::L5 => "L5 extra tokens",
            Rule::L6 => "L6 missing close",
            Rule::L7 => "L7 invalid name",
            Rule::L8 => "L8 nested too deep",
            Rule::L9 => "L9 too many patterns",
            Rule::P1 => "P1 duplicate function",
            Rule::P2 => "P2 invalid token",
            Rule::P3 => "P3 segment too large",
            Rule::P4 => "P4 field too large",
            Rule::P5 => "P5 no value",
            Rule::P6 => "P6 components overlap",
            Rule::P7 => "P7 duplicate field",
            Rule::P8 => "P8 length 0",
            Rule::P9 => "P9 bad function name",
            Rule::P10 => "P10 too many segments",
            Rule::A1 => "A1 invalid token",
            Rule::A2 => "A2 duplicate argument",
            Rule::A3 => "A3 duplicate set",
            Rule::A4 => "A4 keyword",
            Rule::A5 => "A5 too many arguments",
            Rule::G1 => "G1 multiple sets",
            Rule::G2 => "G2 undefined set",
            Rule::G3 => "G3 multiple formats",
            Rule::G4 => "G4 undefined format",
            Rule::G5 => "G5 duplicate argument",
            Rule::G6 => "G6 undefined field",
            Rule::G7 => "G7 invalid token",
            Rule::G8 => "G8 exceeds width",
            Rule::G9 => "G9 wrong bit count",
            Rule::G10 => "G10 format in format",
            Rule::G11 => "G11 not in set",
            Rule::G12 => "G12 duplicate format",
            Rule::G13 => "G13 format and set",
            Rule::G14 => "G14 fixed bits meet the format's",
            Rule::G15 => "G15 other width",
            Rule::G16 => "G16 set twice",
            Rule::G17 => "G17 not initialised",
            Rule::G18 => "G18 field and fixed bits meet",
            Rule::G19 => "G19 field and ignored bits meet",
            Rule::G20 => "G20 fixed and ignored bits meet",
            Rule::G21 => "G21 bits left",
            Rule::G22 => "G22 constant out of range",
            Rule::G23 => "G23 undefined reference",
            Rule::G24 => "G24 references both ways",
            Rule::G25 => "G25 cycle",
            Rule::G26 => "G26 name of another set",
            Rule::G27 => "G27 conflicting sets",
            Rule::G28 => "G28 inferred name taken",
            Rule::H1 => "H1 empty group",
            Rule::H2 => "H2 overlapping",
            Rule::H3 => "H3 widths differ",
        }
    }
}

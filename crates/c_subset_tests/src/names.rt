//! Looks at the names of programs.

use c_subset::differ::has_distinct_names;
use c_subset::{AssignList, Body, Extract, ExtractList, NameList, PatternList, Program, SetList};
use dt_values::{CType, MOST_ARGUMENTS, Member, MemberList, Name, SetDef, Width};
use std::process::Abort;

/// The names of a program's parts. The first set has the arguments.
struct Names {
    sets: &'static [&'static str],
    arguments: &'static [&'static str],
    patterns: &'static [&'static str],
    formats: &'static [&'static str],
    union_sets: &'static [&'static str],
    differ: bool,
}

/// One row a rule, and the same name in different parts.
const PROGRAMS: &[Names] = &[
    Names {
        sets: &[],
        arguments: &[],
        patterns: &[],
        formats: &[],
        union_sets: &[],
        differ: true,
    },
    Names {
        sets: &["a", "b"],
        arguments: &["a", "b"],
        patterns: &["a", "b"],
        formats: &["a", "b"],
        union_sets: &["a", "b"],
        differ: true,
    },
    Names {
        sets: &["a", "b", "a"],
        arguments: &[],
        patterns: &["a"],
        formats: &["a"],
        union_sets: &["a"],
        differ: false,
    },
    Names {
        sets: &["a", "b"],
        arguments: &["x", "y", "x"],
        patterns: &["a"],
        formats: &["a"],
        union_sets: &["a"],
        differ: false,
    },
    Names {
        sets: &["a"],
        arguments: &["x"],
        patterns: &["p", "q", "q"],
        formats: &["a"],
        union_sets: &["a"],
        differ: false,
    },
    Names {
        sets: &["a"],
        arguments: &["x"],
        patterns: &["p"],
        formats: &["f", "f"],
        union_sets: &["a"],
        differ: false,
    },
    Names {
        sets: &["a"],
        arguments: &["x"],
        patterns: &["p"],
        formats: &["f"],
        union_sets: &["a", "b", "a"],
        differ: false,
    },
];

fn name(rt: &impl Abort, text: &str) -> Name {
    Name::from_bytes(text.as_bytes()).expect(rt, "a name")
}

fn name_list(rt: &(impl Abort + AllocGlobal), texts: &[&str]) -> Vec<Name> {
    let mut names = Vec::new(rt.alloc());
    for text in texts {
        names.push(name(rt, text)).expect(rt, "memory");
    }
    names
}

fn member_list(rt: &(impl Abort + AllocGlobal), names: &[Name]) -> MemberList {
    let mut members = Vec::new(rt.alloc());
    for name in names {
        let member = Member {
            ctype: CType::Int,
            name: *name,
        };
        members.push(member).expect(rt, "memory");
    }
    MemberList::of(members)
}

// Sets by these names. The first has the arguments, and the others have none.
fn set_list(rt: &(impl Abort + AllocGlobal), names: &[Name], arguments: &[Name]) -> SetList {
    let mut sets = Vec::new(rt.alloc());
    let mut own = arguments;
    for name in names {
        let set = SetDef {
            name: *name,
            members: member_list(rt, own),
            outside: false,
        };
        sets.push(set).expect(rt, "memory");
        own = &[];
    }
    SetList::of(sets)
}

// Patterns by these names, each with the set `s`.
fn pattern_list(rt: &(impl Abort + AllocGlobal), texts: &[&str]) -> PatternList {
    let set = name(rt, "s");
    let mut patterns = Vec::new(rt.alloc());
    for text in texts {
        patterns.push((name(rt, text), set)).expect(rt, "memory");
    }
    PatternList::of(patterns)
}

// Extractions without assignments, each for the set `s`.
fn extract_list(rt: &(impl Abort + AllocGlobal), texts: &[&str]) -> ExtractList {
    let set = name(rt, "s");
    let mut extracts = Vec::new(rt.alloc());
    for text in texts {
        let extract = Extract {
            format: name(rt, text),
            set,
            assigns: AssignList::of(Vec::new(rt.alloc())),
        };
        extracts.push(extract).expect(rt, "memory");
    }
    ExtractList::of(extracts)
}

// A program with these sets, where the names of the other parts are given.
fn with_sets(rt: &(impl Abort + AllocGlobal), sets: SetList, names: &Names) -> Program {
    Program {
        width: Width::W32,
        sets,
        prefix: Some((name(rt, "trans"), true)),
        patterns: pattern_list(rt, names.patterns),
        extracts: extract_list(rt, names.formats),
        decoder: name(rt, "decode"),
        decoder_static: true,
        union_sets: NameList::of(name_list(rt, names.union_sets)),
        body: Body::of(Vec::new(rt.alloc())),
        load: None,
    }
}

fn differ(rt: &(impl Abort + AllocGlobal), program: &Program) -> bool {
    has_distinct_names(rt.alloc(), program).expect(rt, "memory")
}

fn check(rt: &(impl Abort + AllocGlobal), table: &[Names]) {
    for names in table {
        let sets = name_list(rt, names.sets);
        let arguments = name_list(rt, names.arguments);
        let program = with_sets(rt, set_list(rt, &sets, &arguments), names);
        assert!(rt; differ(rt, &program) == names.differ);
    }
}

#[test]
fn names_differ_or_not(rt: HostRuntime) {
    check(&rt, PROGRAMS)
}

// So many arguments, named a0, a1 and so on.
fn arguments(rt: &(impl Abort + AllocGlobal), count: u8) -> Vec<Name> {
    let mut arguments = Vec::new(rt.alloc());
    for i in 0..count {
        let bytes = [b'a' + i / 10, b'0' + i % 10];
        let argument = Name::from_bytes(&bytes).expect(rt, "a name");
        arguments.push(argument).expect(rt, "memory");
    }
    arguments
}

const NO_NAMES: &Names = &Names {
    sets: &[],
    arguments: &[],
    patterns: &[],
    formats: &[],
    union_sets: &[],
    differ: true,
};

// Whether the names differ in a program with one set of so many arguments, which differ.
fn differ_in_set(rt: &(impl Abort + AllocGlobal), count: u8) -> bool {
    let arguments = arguments(rt, count);
    let sets = set_list(rt, &[name(rt, "s")], &arguments);
    differ(rt, &with_sets(rt, sets, NO_NAMES))
}

#[test]
fn a_set_has_32_arguments_at_most(rt: HostRuntime) {
    assert!(rt; MOST_ARGUMENTS == 32);
    assert!(rt; differ_in_set(&rt, 32));
    assert!(rt; !differ_in_set(&rt, 33));
}

//! What is said of groups (docs/COMMANDS.md, "Rules").
use dt_fields::Rule;
use dt_forms::Source;
use dt_lines::Position;
use dt_tool::messages::{Inputs, entry_message, overlap_message};
use dt_values::Width;
use dt_words::Text;
use std::test::Fail;

#[test]
fn groups_are_named_by_their_opening_tokens(rt: HostRuntime) -> Result<(), Fail> {
    let alloc = rt.alloc();
    let text = b"{\n}\n[\n]\n".as_slice();
    let sources = [Source::read(alloc, 0, Vec::from_slice(alloc, text)?)?];
    let names = [Text::of(String::from_str(alloc, "t")?)];
    let inputs = Inputs {
        width: Width::W32,
        names: &names,
        sources: &sources,
    };
    let [first, second] = [1, 3].map(|line| Position { file: 0, line });
    let empty = entry_message(alloc, inputs, first, Rule::H1)?;
    assert!(rt; empty.as_slice() == b"t:1: error: H1 empty group: {\n".as_slice());
    let knot = overlap_message(alloc, inputs, &[first, second])?;
    let expected = b"t:1: error: H2 overlapping: {\nt:3: note: H2 overlapping: [\n".as_slice();
    assert!(rt; knot.as_slice() == expected);
    Ok(())
}

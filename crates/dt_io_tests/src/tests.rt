//! Each public call once, and what no clause says.
ghost use Rattle.std.specs.Prelude.{◌≤◌};

use dt_io::{
    Failed, Folder, FolderFault, FolderSink, LoadFault, MemoryFolder, MemorySink, RealFolder,
    RealSink, Sink, read_all, report, write_all, write_output,
};
use std::alloc::{AllocError, Global};
use std::fs;
use std::test::Fail;

/// A folder with room for one output.
#[tactic(auto, using(dt_io::proofs::Distinct::distinct_one))]
fn one_output(
    alloc: Global,
    room: usize,
    step: usize,
    failing: &[u64],
) -> Result<MemoryFolder, AllocError>
    requires { 1 ≤ step }
{
    let outputs = [String::from_str(alloc, "o")?];
    MemoryFolder::new(alloc, &[], &outputs, room, step, failing)
}

/// A folder with one file of so many bytes.
#[tactic(auto, using(dt_io::proofs::Distinct::distinct_one))]
fn one_file(
    alloc: Global,
    len: usize,
    step: usize,
    failing: &[u64],
) -> Result<MemoryFolder, AllocError>
    requires { 1 ≤ step }
{
    let name = String::from_str(alloc, "a")?;
    let files = [(name, vec![in alloc; b'x'; len]?)];
    MemoryFolder::new(alloc, &files, &[], 0, step, failing)
}

#[test]
#[tactic(auto, using(dt_io::proofs::Distinct::distinct_two))]
fn a_memory_folder_holds_its_files(rt: HostRuntime) -> Result<(), Fail> {
    let alloc = rt.alloc();
    let files = [
        (
            String::from_str(alloc, "a")?,
            Vec::from_slice(alloc, b"one")?,
        ),
        (
            String::from_str(alloc, "b")?,
            Vec::from_slice(alloc, b"two")?,
        ),
    ];
    let mut folder = MemoryFolder::new(alloc, &files, &[], 0, 2, &[4])?;
    assert!(rt; folder.file("b") == Some(b"two".as_slice()));
    assert!(rt; folder.file("c") == None);
    let mut buf = [0; 4];
    assert!(rt; folder.read("b", 1, &mut buf) == Ok(2));
    assert!(rt; buf == [b'w', b'o', 0, 0]);
    assert!(rt; folder.read("b", 3, &mut buf) == Ok(0));
    assert!(rt; folder.read("c", 0, &mut buf) == Err(FolderFault::Missing));
    assert!(rt; folder.read("b", 0, &mut buf) == Err(FolderFault::Failed));
    assert!(rt; folder.read("b", 0, &mut buf) == Ok(2));
    Ok(())
}

#[test]
fn a_load_reads_at_most_its_limit_and_two_times(rt: HostRuntime) -> Result<(), Fail> {
    let alloc = rt.alloc();
    for len in [49, 50] {
        let mut folder = one_file(alloc, len, 1, &[53])?;
        let bytes = read_all(alloc, &mut folder, "a", 50)?;
        assert!(rt; bytes.len() == len);
        let next = [folder.read("a", 0, &mut [0]), folder.read("a", 0, &mut [0])];
        assert!(rt; next == [Ok(1), Err(FolderFault::Failed)]);
    }
    Ok(())
}

#[test]
fn loads_that_fail_say_why(rt: HostRuntime) -> Result<(), Fail> {
    let alloc = rt.alloc();
    let table = [
        ("a", 49, LoadFault::TooLarge, "the file is too large"),
        ("b", 50, LoadFault::Missing, "there is no such file"),
    ];
    for (name, limit, fault, text) in table {
        let mut folder = one_file(alloc, 50, 1, &[])?;
        assert!(rt; read_all(alloc, &mut folder, name, limit).err() == Some(fault));
        assert!(rt; format!(in alloc; "{fault}")?.as_str() == text);
    }
    for call in [1, 2, 51] {
        let mut folder = one_file(alloc, 50, 1, &[call])?;
        let fault = read_all(alloc, &mut folder, "a", 50).err();
        assert!(rt; fault == Some(LoadFault::Failed), "at {call}");
    }
    Ok(())
}

#[test]
fn a_sink_holds_what_was_written_before_it_failed(rt: HostRuntime) -> Result<(), Fail> {
    let alloc = rt.alloc();
    let text = b"0123456789abcdef0123456789";
    for (capacity, failing, held) in [(100, 2, 16), (20, 9, 20), (26, 9, 26)] {
        let mut sink = MemorySink::new(alloc, capacity, 16, &[failing])?;
        let answer = write_all(&mut sink, text);
        assert!(rt;
            answer.is_ok() == (held == text.len()),
            "{capacity} and {failing}"
        );
        assert!(rt; sink.bytes() == &text[..held], "{capacity} and {failing}");
    }
    Ok(())
}

#[test]
fn a_memory_folder_keeps_what_is_written(rt: HostRuntime) -> Result<(), Fail> {
    let alloc = rt.alloc();
    let mut folder = one_output(alloc, 20, 8, &[])?;
    assert!(rt; folder.file("o") == None);
    assert!(rt; write_output(&mut folder, "o", b"0123456789abcdef") == Ok(()));
    assert!(rt; folder.file("o") == Some(b"0123456789abcdef".as_slice()));
    assert!(rt; folder.append("o", b"xyzzy") == Ok(4));
    assert!(rt; folder.append("o", b"x") == Err(Failed));
    assert!(rt; folder.append("o", b"") == Ok(0));
    assert!(rt; folder.file("o") == Some(b"0123456789abcdefxyzz".as_slice()));
    Ok(())
}

#[test]
fn a_removed_file_keeps_its_room(rt: HostRuntime) -> Result<(), Fail> {
    let mut folder = one_output(rt.alloc(), 2, 8, &[])?;
    assert!(rt; folder.remove("o") == Ok(()));
    assert!(rt; folder.append("o", b"wx") == Ok(2));
    assert!(rt; folder.remove("o") == Ok(()));
    assert!(rt; folder.file("o") == None);
    assert!(rt; folder.append("o", b"xyz") == Ok(2));
    assert!(rt; folder.file("o") == Some(b"xy".as_slice()));
    Ok(())
}

#[test]
fn a_made_file_is_empty(rt: HostRuntime) -> Result<(), Fail> {
    let mut folder = one_output(rt.alloc(), 2, 8, &[])?;
    assert!(rt; folder.append("o", b"") == Ok(0));
    assert!(rt; folder.file("o").is_some());
    assert!(rt; folder.append("o", b"x") == Ok(1));
    assert!(rt; folder.create("o") == Ok(()));
    assert!(rt; folder.file("o") == Some(b"".as_slice()));
    Ok(())
}

#[test]
fn a_memory_folder_has_room_for_its_names_alone(rt: HostRuntime) -> Result<(), Fail> {
    let mut folder = one_output(rt.alloc(), 20, 8, &[])?;
    assert!(rt; folder.create("p") == Err(Failed));
    assert!(rt; folder.append("p", b"x") == Err(Failed));
    assert!(rt; folder.remove("p") == Ok(()));
    assert!(rt; folder.file("p") == None);
    Ok(())
}

#[test]
fn an_output_that_fails_is_left_as_it_is(rt: HostRuntime) -> Result<(), Fail> {
    let alloc = rt.alloc();
    let table = [
        (1, None),
        (2, Some(b"".as_slice())),
        (3, Some(b"01234567".as_slice())),
    ];
    for (call, left) in table {
        let mut folder = one_output(alloc, 20, 8, &[call])?;
        assert!(rt; write_output(&mut folder, "o", b"0123456789") == Err(Failed));
        assert!(rt; folder.file("o") == left, "at {call}");
    }
    Ok(())
}

#[test]
fn a_real_folder_holds_what_was_written(rt: HostRuntime) -> Result<(), Fail> {
    let alloc = rt.alloc();
    let name = "a_real_folder_holds_what_was_written.txt";
    let mut folder = RealFolder::new(&rt);
    assert!(rt; write_output(&mut folder, name, b"one") == Ok(()));
    let mut sink = FolderSink::new(&mut folder, name);
    assert!(rt; write_all(&mut sink, b", two") == Ok(()));
    let bytes = read_all(alloc, &mut folder, name, 16)?;
    assert!(rt; bytes.as_slice() == b"one, two".as_slice());
    assert!(rt; folder.remove(name) == Ok(()));
    assert!(rt; folder.remove(name) == Ok(()));
    assert!(rt; folder.create(".") == Err(Failed));
    Ok(())
}

#[test]
fn a_real_folder_reads_what_was_written(rt: HostRuntime) -> Result<(), Fail> {
    let alloc = rt.alloc();
    let name = "a_real_folder_reads_what_was_written.txt";
    fs::write(&rt, name, "to be read back\n")?;
    let mut folder = RealFolder::new(&rt);
    let bytes = read_all(alloc, &mut folder, name, 16)?;
    assert!(rt; bytes.as_slice() == b"to be read back\n".as_slice());
    assert!(rt; read_all(alloc, &mut folder, name, 15).err() == Some(LoadFault::TooLarge));
    fs::remove_file(&rt, name)?;
    assert!(rt; read_all(alloc, &mut folder, name, 16).err() == Some(LoadFault::Missing));
    assert!(rt; read_all(alloc, &mut folder, ".", 16).err() == Some(LoadFault::Failed));
    Ok(())
}

#[test]
fn a_real_folder_reads_regular_files_alone(rt: HostRuntime) -> Result<(), Fail> {
    let mut folder = RealFolder::new(&rt);
    for name in [".", "/dev/null"] {
        let read = folder.read(name, 0, &mut [0]);
        assert!(rt; read == Err(FolderFault::Failed), "{name}");
    }
    Ok(())
}

#[test]
fn a_real_sink_writes_to_its_writer(rt: HostRuntime) -> Result<(), Fail> {
    let alloc = rt.alloc();
    let mut bytes = Vec::new(alloc);
    let mut sink = RealSink::new(&mut bytes);
    assert!(rt; write_all(&mut sink, b"some ") == Ok(()));
    assert!(rt; sink.write(b"") == Ok(0));
    report(&mut sink, b"text");
    assert!(rt; bytes.as_slice() == b"some text".as_slice());
    Ok(())
}

#[test]
fn a_real_sink_fails_where_its_writer_is_full(rt: HostRuntime) -> Result<(), Fail> {
    let mut room = [0; 2];
    let mut sink = RealSink::new(room.as_mut_slice());
    assert!(rt; write_all(&mut sink, b"text") == Err(Failed));
    assert!(rt; room == *b"te");
    Ok(())
}

#[test]
fn faults_have_texts(rt: HostRuntime) -> Result<(), Fail> {
    let alloc = rt.alloc();
    let missing = format!(in alloc; "{}", FolderFault::Missing)?;
    assert!(rt; missing.as_str() == "there is no such file");
    assert!(rt; format!(in alloc; "{Failed}")?.as_str() == "the write failed");
    Ok(())
}

//! Runs of the whole command over a folder and sinks in memory.
ghost use Rattle.std.specs.Prelude.{◌≤◌};

use dt_io::{MemoryFolder, MemorySink};
use dt_tool::tool::tool;
use dt_tool::{Outcome, Status};
use std::alloc::{AllocError, Global};
use std::process::Abort;

/// A file of one pattern.
pub const NOP_LINE: &str = "nop 00000000000000000000000000000000\n";

/// What fails in a run, by the numbers of the calls, from 1: those of the folder, those of `out` and those of `err`.
#[derive(Clone, Copy)]
pub struct Failing<'a> {
    pub calls: &'a [u64],
    pub writes: &'a [u64],
    pub reports: &'a [u64],
}

pub const NOTHING_FAILS: Failing<'static> = Failing {
    calls: &[],
    writes: &[],
    reports: &[],
};

/// How many bytes the file `o` has room for.
pub const ROOM: usize = 2000;

/// How many bytes a read or a write takes.
pub const STEP: usize = 16;

/// What a run left.
#[derive(Drop)]
pub struct Ran {
    pub status: Status,
    pub folder: MemoryFolder,
    pub out: MemorySink,
    pub err: MemorySink,
}

fn words_of(alloc: Global, words: &[&str]) -> Result<Vec<String>, AllocError> {
    let mut all = Vec::new(alloc);
    for word in words {
        all.push(String::from_str(alloc, word)?)?;
    }
    Ok(all)
}

/// A run over a folder that holds the files `t` and `s` and has room for a file `o`.
#[tactic(auto, using(dt_io::proofs::Distinct::distinct_three))]
fn try_run(
    alloc: Global,
    words: &[&str],
    texts: [&[u8]; 2],
    failing: Failing,
) -> Result<Ran, AllocError> {
    let [text, other] = texts;
    let files = [
        (String::from_str(alloc, "t")?, Vec::from_slice(alloc, text)?),
        (
            String::from_str(alloc, "s")?,
            Vec::from_slice(alloc, other)?,
        ),
    ];
    let outputs = [String::from_str(alloc, "o")?];
    let mut folder = MemoryFolder::new(alloc, &files, &outputs, ROOM, STEP, failing.calls)?;
    let mut out = MemorySink::new(alloc, 8192, STEP, failing.writes)?;
    let mut err = MemorySink::new(alloc, 4096, STEP, failing.reports)?;
    let words = words_of(alloc, words)?;
    let status = tool(alloc, words.as_slice(), &mut folder, &mut out, &mut err);
    Ok(Ran {
        status,
        folder,
        out,
        err,
    })
}

/// The same, where there is memory.
pub fn run(
    rt: &(impl Abort + AllocGlobal),
    words: &[&str],
    texts: [&[u8]; 2],
    failing: Failing,
) -> Ran {
    try_run(rt.alloc(), words, texts, failing).expect(rt, "memory")
}

/// What is asked for, and the texts of `t` and `s`.
#[derive(Clone, Copy)]
pub struct Asked<'a> {
    pub words: &'a [&'a str],
    pub texts: [&'a str; 2],
}

/// What comes of a run.
#[derive(Clone, Copy)]
pub struct End<'a> {
    pub outcome: Outcome,
    pub number: u8,
    pub out: &'a [u8],
    pub err: &'a str,
    /// What the file `o` holds, if there is one.
    pub left: Option<&'a str>,
}

fn is_left(folder: &MemoryFolder, left: Option<&str>) -> bool {
    match left {
        Some(text) => folder.file("o") == Some(text.as_bytes()),
        None => folder.file("o").is_none(),
    }
}

/// A run ends so where this fails, of which the call `at` is one, and the files `t` and `s` stay as they were.
pub fn check(rt: &(impl Abort + AllocGlobal), asked: &Asked, failing: Failing, at: u64, end: &End) {
    let [text, other] = asked.texts;
    let texts = [text.as_bytes(), other.as_bytes()];
    let ran = run(rt, asked.words, texts, failing);
    assert!(rt; ran.status.outcome == end.outcome, "the outcome at {at}");
    assert!(rt; ran.status.number == end.number, "the number at {at}");
    assert!(rt; ran.out.bytes() == end.out, "standard output at {at}");
    assert!(rt;
        ran.err.bytes() == end.err.as_bytes(),
        "{} at {at}",
        end.err
    );
    assert!(rt; is_left(&ran.folder, end.left), "the file o at {at}");
    assert!(rt;
        ran.folder.file("t") == Some(texts[0]),
        "the file t at {at}"
    );
    assert!(rt;
        ran.folder.file("s") == Some(texts[1]),
        "the file s at {at}"
    );
}

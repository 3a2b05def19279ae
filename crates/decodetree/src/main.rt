//! Makes a C decoder of pattern files.
#![tactic(auto)]

use dt_io::{RealFolder, RealSink, write_all};
use dt_tool::tool::{no_memory, tool};
use std::alloc::AllocError;
use std::io::ErrorKind;
use std::process::ExitCode;
use std::{env, io};

/// The exit status where the system doesn't hand over the words.
const NO_WORDS: u8 = 6;

fn main(rt: HostRuntime) -> ExitCode {
    let mut err = RealSink::new(rt.stderr());
    let args = match env::args(&rt) {
        Ok(args) => args,
        Err(error) if error.kind() == ErrorKind::OutOfMemory => {
            return ExitCode::from(no_memory(&mut err).number);
        }
        Err(_) => {
            let _ = write_all(&mut err, b"error: no words\n");
            return ExitCode::from(NO_WORDS);
        }
    };
    let words: Result<Vec<String>, AllocError> = args.skip(1).collect(rt.alloc());
    let Ok(words) = words else {
        return ExitCode::from(no_memory(&mut err).number);
    };
    let mut folder = RealFolder::new(&rt);
    let mut out = RealSink::new(io::writer(&rt));
    let status = tool(
        rt.alloc(),
        words.as_slice(),
        &mut folder,
        &mut out,
        &mut err,
    );
    ExitCode::from(status.number)
}

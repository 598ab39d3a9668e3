//! The program: the words, files and streams of the process, handed to the top call.
#![tactic(auto)]

use and_outside::{RealFiles, RealSink, Sink};
use and_top::andromeda;
use std::alloc::AllocError;
use std::env;
use std::io::ErrorKind;
use std::process::ExitCode;

/// The status where there is no memory for the words.
const NO_MEMORY: u8 = 6;

/// The words after the program's name. There are none where one of them is no UTF-8.
fn words_of(rt: &HostRuntime) -> Result<Vec<String>, AllocError> {
    match env::args(rt) {
        Ok(args) => args.skip(1).collect(rt.alloc()),
        Err(error) if error.kind() == ErrorKind::OutOfMemory => Err(AllocError),
        Err(_) => Ok(Vec::new(rt.alloc())),
    }
}

fn main(rt: HostRuntime) -> ExitCode {
    let mut files = RealFiles::make(&rt);
    let mut out = RealSink::make(rt.stdout());
    let mut err = RealSink::make(rt.stderr());
    let Ok(words) = words_of(&rt) else {
        let _ = err.put(b"no memory\n");
        return ExitCode::from(NO_MEMORY);
    };
    ExitCode::from(andromeda(rt.alloc(), &words, &mut files, &mut out, &mut err))
}

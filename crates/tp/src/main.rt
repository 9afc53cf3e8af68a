//! The program: its words, standard input and standard output are handed to the
//! top call. The exit code tells how it ended.
#![tactic(auto)]

use std::process::ExitCode;
use std::{env, io};
use tp_io::StdStream;
use tp_run::{Status, tp_main};

fn main(rt: HostRuntime) -> ExitCode {
    let words = match env::args(&rt) {
        Ok(args) => match args.collect::<Vec<String>>(rt.alloc()) {
            Ok(words) => words,
            Err(_) => return Status::Memory.exit_code(),
        },
        Err(error) if error.kind() == io::ErrorKind::OutOfMemory => {
            return Status::Memory.exit_code();
        }
        // Words that aren't text are no command, as no words are.
        Err(_) => Vec::new(rt.alloc()),
    };
    let mut source = StdStream::new(rt.reader());
    let mut sink = StdStream::new(io::writer(&rt));
    tp_main(rt.alloc(), words.as_slice(), &mut source, &mut sink).exit_code()
}

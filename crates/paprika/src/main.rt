//! The program `paprika`: `survey_server`'s commands over the standard ends and a port of this machine.
#![tactic(auto)]

use edges::{OpenGate, StdSink, StdSource, TcpDoor};
use std::process::ExitCode;
use std::{env, io};
use survey_server::command;

fn main(rt: HostRuntime) -> ExitCode {
    // Words that are no text are the words of no command.
    let words = match words_of(&rt) {
        Ok(words) => words,
        Err(error) if error.kind() == io::ErrorKind::OutOfMemory => return ExitCode::from(5),
        Err(_) => Vec::new(rt.alloc()),
    };
    let mut source = StdSource::new(rt.stdin());
    let mut sink = StdSink::new(rt.stdout());
    let mut door = TcpDoor::new(&rt);
    let ended = command(
        &rt,
        rt.alloc(),
        words.as_slice(),
        &mut source,
        &mut sink,
        &mut door,
        &OpenGate,
    );
    ExitCode::from(ended.status)
}

/// The words after the program's name.
fn words_of(rt: &HostRuntime) -> io::Result<Vec<String>> {
    let words = env::args(rt)?.skip(1).collect(rt.alloc())?;
    Ok(words)
}

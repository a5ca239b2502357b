use crate::{Command, read_words};
use std::alloc::{AllocError, Global};
use std::test::Fail;

/// Words of commands, joined by blanks, with what they ask for.
const COMMANDS: [(&str, &str); 27] = [
    ("check", "check"),
    ("migrate", "migrate"),
    ("rank", "rank"),
    ("sample 0 2x2x2:3", "sample 0 2,2,2 3"),
    ("sample 2147483647 0:0", "sample 2147483647 0 0"),
    ("sample 7 999x0:999", "sample 7 999,0 999"),
    ("run", "run 2"),
    ("run --eliminators 0", "run 0"),
    ("run --eliminators=16", "run 16"),
    ("run --sample 1 --shape 3x3:2", "run 1 3,3 2 with 2"),
    ("run --shape=3x3:2 --sample=1", "run 1 3,3 2 with 2"),
    (
        "run --shape 3:2 --eliminators=4 --sample 9",
        "run 9 3 2 with 4",
    ),
    (
        "run --sample=9 --eliminators 4 --shape=3:2",
        "run 9 3 2 with 4",
    ),
    ("serve 1", "serve 1 with 2 for 65536"),
    ("serve 65535", "serve 65535 with 2 for 65536"),
    ("serve 8080 --eliminators 3", "serve 8080 with 3 for 65536"),
    ("serve --eliminators 3 8080", "serve 8080 with 3 for 65536"),
    ("serve --eliminators=3 8080", "serve 8080 with 3 for 65536"),
    ("serve 8080 --connections 1", "serve 8080 with 2 for 1"),
    (
        "serve --connections 65536 8080",
        "serve 8080 with 2 for 65536",
    ),
    (
        "serve --connections=5 8080 --eliminators 0",
        "serve 8080 with 0 for 5",
    ),
    (
        "serve --connections 5 --eliminators=0 8080",
        "serve 8080 with 0 for 5",
    ),
    (
        "serve 8080 --connections=5 --eliminators=0",
        "serve 8080 with 0 for 5",
    ),
    (
        "serve --eliminators=0 --connections=5 8080",
        "serve 8080 with 0 for 5",
    ),
    (
        "serve 80 --eliminators 16 --connections 9",
        "serve 80 with 16 for 9",
    ),
    (
        "serve --eliminators 1 80 --connections 9",
        "serve 80 with 1 for 9",
    ),
    (
        "serve --connections 9 80 --eliminators 1",
        "serve 80 with 1 for 9",
    ),
];

/// Words of no command, joined by blanks.
const USAGE: [&str; 96] = [
    "",
    "--",
    "-h",
    "--help",
    "--version",
    "-V",
    "help",
    "chec",
    "Check",
    "checks",
    "check ",
    " check",
    "check check",
    "check --",
    "check --help",
    "migrate x",
    "rank -h",
    "sample",
    "sample 1",
    "sample 1 2:1 3",
    "sample 1 2:1 --",
    "sample -- 1 2:1",
    "sample 2147483648 2:1",
    "sample 4294967297 2:1",
    "sample 01 2:1",
    "sample +1 2:1",
    "sample -1 2:1",
    "sample 1 2",
    "sample 1 2:",
    "sample 1 :1",
    "sample 1 2:1:1",
    "sample 1 2x:1",
    "sample 1 x2:1",
    "sample 1 2xx2:1",
    "sample 1 2,2:1",
    "sample 1 2X2:1",
    "sample 1 02:1",
    "sample 1 2:01",
    "sample 1 1000:1",
    "sample 1 2:1000",
    "sample 1 2:1x",
    "sample 2:1 1",
    "sample 1 --shape=2:1",
    "run 1",
    "run --",
    "run -- --eliminators 2",
    "run --eliminators",
    "run --eliminators=",
    "run --eliminators 17",
    "run --eliminators 02",
    "run --eliminators=-1",
    "run --eliminators -1",
    "run --eliminators +1",
    "run --eliminators x",
    "run --eliminators 256",
    "run --eliminators 2 --eliminators 2",
    "run --eliminators=2 --eliminators=3",
    "run --eliminators 2 --eliminators=3",
    "run --eliminator 2",
    "run --elim 2",
    "run --e=2",
    "run -e 2",
    "run -eliminators 2",
    "run eliminators 2",
    "run --Eliminators 2",
    "run --eliminators --sample 1 --shape 2:1",
    "run --sample 1",
    "run --shape 2:1",
    "run --sample --shape 2:1",
    "run --sample 1 --shape",
    "run --sample 1 --shape 2:1 --sample 1",
    "run --sample 1 --shape 2:1 --shape=2:1",
    "run --sample=1=1 --shape 2:1",
    "run --sample 2147483648 --shape 2:1",
    "run --connections 5",
    "run --port 5",
    "run --help",
    "run --=2",
    "run =2",
    "serve",
    "serve 0",
    "serve 65536",
    "serve 080",
    "serve -80",
    "serve 80 81",
    "serve 80 --",
    "serve -- 80",
    "serve --eliminators 2",
    "serve --eliminators 80 --connections 80",
    "serve 80 --eliminators",
    "serve 80 --eliminators 17",
    "serve 80 --connections 0",
    "serve 80 --connections 65537",
    "serve 80 --connections=1 --connections=1",
    "serve 80 --sample 1 --shape 2:1",
    "serve --port=80",
];

/// The words that blanks join.
fn split(alloc: Global, text: &str) -> Result<Vec<String>, AllocError> {
    let mut words = Vec::new(alloc);
    if !text.is_empty() {
        for word in text.split(' ') {
            words.push(String::from_str(alloc, word)?)?;
        }
    }
    Ok(words)
}

/// The numbers of a shape, joined by commas, and its degree.
fn shape_text(alloc: Global, shape: &crate::Shape) -> Result<String, AllocError> {
    let mut text = String::new(alloc);
    for count in shape.counts.as_slice() {
        if !text.is_empty() {
            text.push(',')?;
        }
        let number = format!(in alloc; "{count}")?;
        text.push_str(number.as_str())?;
    }
    let degree = format!(in alloc; " {}", shape.degree)?;
    text.push_str(degree.as_str())?;
    Ok(text)
}

/// What a command asks for.
fn text_of(alloc: Global, command: &Command) -> Result<String, AllocError> {
    match command {
        Command::Check => String::from_str(alloc, "check"),
        Command::Migrate => String::from_str(alloc, "migrate"),
        Command::Rank => String::from_str(alloc, "rank"),
        Command::Sample { seed, shape } => {
            let shape = shape_text(alloc, shape)?;
            format!(in alloc; "sample {seed} {shape}")
        }
        Command::Run { eliminators } => format!(in alloc; "run {eliminators}"),
        Command::RunSample {
            seed,
            shape,
            eliminators,
        } => {
            let shape = shape_text(alloc, shape)?;
            format!(in alloc; "run {seed} {shape} with {eliminators}")
        }
        Command::Serve {
            port,
            eliminators,
            connections,
        } => format!(in alloc; "serve {port} with {eliminators} for {connections}"),
    }
}

#[test]
fn words_of_commands(rt: HostRuntime) -> Result<(), Fail> {
    for (words, wanted) in COMMANDS {
        let list = split(rt.alloc(), words)?;
        let command = read_words(rt.alloc(), list.as_slice())?.ok_or(words)?;
        let text = text_of(rt.alloc(), &command)?;
        assert_eq!(rt; text.as_str(), wanted);
    }
    Ok(())
}

#[test]
fn words_of_none(rt: HostRuntime) -> Result<(), Fail> {
    for words in USAGE {
        let list = split(rt.alloc(), words)?;
        assert!(rt;
            read_words(rt.alloc(), list.as_slice())?.is_none(),
            "{words}"
        );
    }
    Ok(())
}

#[test]
fn as_many_counts_as_there_may_be(rt: HostRuntime) -> Result<(), Fail> {
    for (more, wanted) in [(97, true), (98, true), (99, false)] {
        let mut words = split(rt.alloc(), "sample 1")?;
        let mut shape = String::from_str(rt.alloc(), "2")?;
        for _ in 0..more {
            shape.push_str("x2")?;
        }
        shape.push_str(":1")?;
        words.push(shape)?;
        assert_eq!(rt; read_words(rt.alloc(), words.as_slice())?.is_some(), wanted);
    }
    Ok(())
}

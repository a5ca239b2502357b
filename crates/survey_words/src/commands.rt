//! The command that the words name.
ghost use Rattle.std.specs.Prelude.{◌≡◌, ◌≤◌, Some, IfOk, IfSome, map, string_bytes};
ghost use Rattle.survey_words.specs.Commands.{IsWithin, alone as alone_by, eliminators_of, number_or as number_or_by, run_of, run_with, sample_of, serve_of, words_of};
ghost use Rattle.survey_words.specs.Read.{text_lent, option_texts};

use crate::NoMemory;
use crate::items::{Options, read_options};
use crate::limits::{DEFAULT_ELIMINATORS, MAX_CONNECTIONS, MAX_ELIMINATORS, MAX_PORT, MAX_SEED};
use crate::numbers::number;
use crate::shapes::{Shape, read_shape};
use std::alloc::Global;

/// What the program is asked to do.
#[derive(Drop)]
pub enum Command {
    /// Checks the file on standard input.
    Check,
    /// Copies the result on standard input into the second format.
    Migrate,
    /// Ranks the alternatives on standard input.
    Rank,
    /// Runs a sample survey on one thread.
    Sample {
        seed: u32,
        shape: Shape,
    },
    /// Runs the script on standard input.
    Run {
        eliminators: u8,
    },
    /// Runs a sample survey with eliminators.
    RunSample {
        seed: u32,
        shape: Shape,
        eliminators: u8,
    },
    /// Serves a survey on a port of this machine.
    Serve {
        port: u16,
        eliminators: u8,
        connections: u32,
    },
}

/// The command that the words after the program's name name, or `None` where they name none.
pub fn read_words(alloc: Global, words: &[String]) -> Result<Option<Command>, NoMemory>
    ensures exact { IfOk result (λ command. command ≡ words_of (map (λ word. string_bytes word) words.now)) }
    ensures limits { IfOk result (λ command. IfSome command IsWithin) }
{
    let [name, after @ ..] = words else {
        return Ok(None);
    };
    match name.as_str() {
        "check" => Ok(alone(Command::Check, after)),
        "migrate" => Ok(alone(Command::Migrate, after)),
        "rank" => Ok(alone(Command::Rank, after)),
        "sample" => sample(alloc, after),
        "run" => match read_options(alloc, words)? {
            Some(options) => run(alloc, options),
            None => Ok(None),
        },
        "serve" => match read_options(alloc, words)? {
            Some(options) => Ok(serve(options)),
            None => Ok(None),
        },
        _ => Ok(None),
    }
}

/// The command, where no word comes after it.
fn alone(command: Command, words: &[String]) -> Option<Command>
    requires { IsWithin command }
    ensures exact { result ≡ alone_by command (map (λ word. string_bytes word) words.now) }
    ensures limits { IfSome result IsWithin }
{
    if words.is_empty() {
        Some(command)
    } else {
        None
    }
}

/// The sample survey of a seed and a shape.
fn sample(alloc: Global, words: &[String]) -> Result<Option<Command>, NoMemory>
    ensures exact { IfOk result (λ command. command ≡ sample_of (map (λ word. string_bytes word) words.now)) }
    ensures limits { IfOk result (λ command. IfSome command IsWithin) }
{
    let [seed_word, shape_word] = words else {
        return Ok(None);
    };
    let Some(seed) = number(seed_word.as_str(), 0, MAX_SEED) else {
        return Ok(None);
    };
    match read_shape(alloc, shape_word.as_str())? {
        Some(shape) => Ok(Some(Command::Sample { seed, shape })),
        None => Ok(None),
    }
}

/// The run of a script or of a sample survey.
fn run(alloc: Global, options: Options<'_>) -> Result<Option<Command>, NoMemory>
    ensures exact { IfOk result (λ command. command ≡ run_of (option_texts options.entry)) }
    ensures limits { IfOk result (λ command. IfSome command IsWithin) }
{
    if options.port.is_some() || options.connections.is_some() {
        return Ok(None);
    }
    let Some(eliminators) = eliminators(options.eliminators) else {
        return Ok(None);
    };
    match (options.sample, options.shape) {
        (None, None) => Ok(Some(Command::Run { eliminators })),
        (Some(seed), Some(shape)) => run_sample(alloc, seed, shape, eliminators),
        _ => Ok(None),
    }
}

/// The run of a sample survey of a seed and a shape.
fn run_sample(
    alloc: Global,
    seed: &str,
    shape_word: &str,
    eliminators: u8,
) -> Result<Option<Command>, NoMemory>
    requires { eliminators ≤ MAX_ELIMINATORS }
    ensures exact { IfOk result (λ command. command ≡ run_with eliminators (Some seed.now) (Some shape_word.now)) }
    ensures limits { IfOk result (λ command. IfSome command IsWithin) }
{
    let Some(seed) = number(seed, 0, MAX_SEED) else {
        return Ok(None);
    };
    match read_shape(alloc, shape_word)? {
        Some(shape) => Ok(Some(Command::RunSample {
            seed,
            shape,
            eliminators,
        })),
        None => Ok(None),
    }
}

/// The serving of a port.
fn serve(options: Options<'_>) -> Option<Command>
    ensures exact { result ≡ serve_of (option_texts options.entry) }
    ensures limits { IfSome result IsWithin }
{
    if options.sample.is_some() || options.shape.is_some() {
        return None;
    }
    let port = number(options.port?, 1, MAX_PORT)?;
    let eliminators = eliminators(options.eliminators)?;
    let connections = number_or(MAX_CONNECTIONS, 1, MAX_CONNECTIONS, options.connections)?;
    Some(Command::Serve {
        port: port as u16,
        eliminators,
        connections,
    })
}

/// How many eliminators the option asks for.
fn eliminators(word: Option<&str>) -> Option<u8>
    ensures exact { result ≡ eliminators_of (text_lent word.entry) }
    ensures limit { IfSome result (λ n. n ≤ MAX_ELIMINATORS) }
{
    let count = number_or(DEFAULT_ELIMINATORS, 0, MAX_ELIMINATORS, word)?;
    Some(count as u8)
}

/// The number that the word is, or the default where there is no word.
fn number_or(default: u32, least: u32, most: u32, word: Option<&str>) -> Option<u32>
    requires low { least ≤ default }
    requires high { default ≤ most }
    ensures exact { result ≡ number_or_by default least most (text_lent word.entry) }
    ensures limits { IfSome result (λ n. (least ≤ n) × (n ≤ most)) }
{
    match word {
        None => Some(default),
        Some(word) => number(word, least, most),
    }
}

//! Sample surveys beside eliminators.
ghost use Rattle.std.specs.Prelude.{◌≡◌, ◌≢◌, ◌≤◌};
ghost use Rattle.edges.specs.Faults.{CountsFaults};
ghost use Rattle.survey_server.specs.Command.{SamplesModel, SamplesShape};
ghost use Rattle.survey_words.specs.Shapes.{IsShape};

use crate::plain_commands::{refuse_shape, write_summary};
use crate::statuses::NO_MEMORY;
use criteria_model::Model;
use edges::{Gate, Sink};
use std::alloc::Global;
use std::sync::Wait;
use std::thread::Threads;
use survey_run::run_sample;
use survey_words::{MAX_ELIMINATORS, Shape};

/// Runs the sample survey of a seed and a shape beside `eliminators` eliminators.
pub(crate) fn sample_beside<R: Threads + Wait + Sync, K: Sink, G: Gate + Sync>(
    rt: &R,
    alloc: Global,
    seed: u32,
    shape: &Shape,
    eliminators: u8,
    sink: &mut K,
    gate: &G,
) -> u8
    requires shape { IsShape shape.now }
    requires eliminators { eliminators ≤ MAX_ELIMINATORS }
    ensures sampled { SamplesShape seed shape.now (K.written sink.old) (K.written sink.new) result }
    ensures no_read_fault { result ≢ 3 }
    ensures no_door_fault { result ≢ 6 }
    ensures write_fault { CountsFaults (result ≡ 4) (K.faults sink.old) (K.faults sink.new) }
{
    match Model::new(shape.counts.as_slice(), shape.degree) {
        Ok(model) => sample_model_beside(rt, alloc, seed, shape, &model, eliminators, sink, gate),
        Err(fault) => refuse_shape(alloc, fault, sink),
    }
}

/// Runs the sample survey of a seed and the model of a shape beside `eliminators` eliminators.
fn sample_model_beside<R: Threads + Wait + Sync, K: Sink, G: Gate + Sync>(
    rt: &R,
    alloc: Global,
    seed: u32,
    shape: &Shape,
    model: &Model,
    eliminators: u8,
    sink: &mut K,
    gate: &G,
) -> u8
    requires eliminators { eliminators ≤ MAX_ELIMINATORS }
    ensures sampled { SamplesModel seed shape.now model.now (K.written sink.old) (K.written sink.new) result }
    ensures no_read_fault { result ≢ 3 }
    ensures no_door_fault { result ≢ 6 }
    ensures write_fault { CountsFaults (result ≡ 4) (K.faults sink.old) (K.faults sink.new) }
{
    match run_sample(rt, alloc, u32::from(eliminators), seed, model, gate) {
        Ok(summary) => write_summary(alloc, seed, shape, &summary, sink),
        Err(_) => NO_MEMORY,
    }
}

//! The pool of a survey's classes.
ghost use Rattle.std.specs.Prelude.{◌≡◌, ◌+◌, ◌-◌, ◌≤◌, min, if◌then◌else◌, Some, length, slice_set, map, IfOk};
ghost use Rattle.std.specs.List.{position_or_len};
ghost use Rattle.std.specs.Option.{option_map};
ghost use Rattle.question_queue.specs.Pools.{new_pool, is_unranked, is_due, is_job, first_place, place_at, ChangesMark, reach_of, as_ranked, as_unranked, as_asked, given_out, kept_at, vectors_of, met_of, cut_kept};

use crate::marks::{Kept, Mark, Wanted};
use crate::search::first_from;
use crate::steps::Steps;
use criteria_model::Vector;
use std::alloc::{AllocError as NoMemory, Global};
use std::marker::Brand;
use std::sync::ledger::{Blank, Ledger};

#[cfg(test)]
mod tests;

/// The marks of a survey's classes, and the vectors kept for each. Places count from 1.
#[derive(Drop)]
pub struct Pool {
    marks: Vec<Mark>,
    kept: Vec<Option<Kept>>,
    // How many marks stand before the first class that isn't ranked, and before the first that is due.
    unranked: usize,
    due: usize,
    // The version of the last search for a job, and how many marks are known to stand before the next one at it.
    version: u32,
    job: usize,
}

// Clauses see the marks and the vectors.
impl std::marker::Model for Pool {
    ghost use Rattle.question_queue.specs.Pools.{Pooled, KeepsPlaces};

    ghost Value = { Pooled };

    ghost view = { λ p. record { marks = p.marks.items; kept = p.kept.items } };

    ghost invariant = { λ p. KeepsPlaces p.marks.items p.kept.items p.unranked p.due p.version p.job };
}

impl Pool {
    /// The pool of `count` classes, of which none is ranked, asked or given out.
    pub fn new(alloc: Global, count: u32) -> Result<Pool, NoMemory>
        ensures { IfOk result (λ pool. pool ≡ new_pool count) }
    {
        let unmarked = Mark {
            ranked: false,
            asked: false,
            given: None,
        };
        Ok(Pool {
            marks: vec![in alloc; unmarked; count as usize]?,
            kept: vec![in alloc; None; count as usize]?,
            unranked: 0,
            due: 0,
            version: 0,
            job: 0,
        })
    }

    /// The first class that isn't ranked.
    pub fn first_unranked(&self) -> Option<u32>
        ensures { result ≡ first_place is_unranked self.now.marks }
    {
        self.place_after(self.unranked)
    }

    /// The first class that is neither ranked nor asked.
    pub fn first_due(&self) -> Option<u32>
        ensures { result ≡ first_place is_due self.now.marks }
    {
        self.place_after(self.due)
    }

    /// Marks a class as ranked.
    pub fn mark_ranked(&mut self, place: u32)
        requires low { 1 ≤ place }
        requires high { place ≤ length self.old.marks }
        ensures { ChangesMark as_ranked self.old self.new place }
    {
        self.rank::<Brand>(place, Blank::new(1));
    }

    /// The same, with the marks that it looks at counted: at most two, and as many as the first unranked and the
    /// first due class move on by.
    pub fn mark_ranked_in<L: Ledger>(&mut self, place: u32, steps: &mut Steps<L>)
        requires low { 1 ≤ place }
        requires high { place ≤ length self.old.marks }
        ensures change { ChangesMark as_ranked self.old self.new place }
        ensures cost { steps.new + reach_of self.old ≤ steps.old + 2 + reach_of self.new }
    {
        self.marks[place as usize - 1].ranked = true;
        let marks = self.marks.as_slice();
        self.unranked = first_from(marks, Wanted::Unranked, self.unranked, steps);
        self.due = first_from(marks, Wanted::Due, self.due, steps);
    }

    /// Marks a class as not ranked.
    pub fn unmark_ranked(&mut self, place: u32)
        requires low { 1 ≤ place }
        requires high { place ≤ length self.old.marks }
        ensures { ChangesMark as_unranked self.old self.new place }
    {
        let index = place as usize - 1;
        let mark = &mut self.marks[index];
        mark.ranked = false;
        self.due = back_to(self.due, index, !mark.asked);
        self.unranked = self.unranked.min(index);
        self.job = self.job.min(index);
    }

    /// Marks a class as asked.
    pub fn mark_asked(&mut self, place: u32)
        requires low { 1 ≤ place }
        requires high { place ≤ length self.old.marks }
        ensures { ChangesMark as_asked self.old self.new place }
    {
        self.ask::<Brand>(place, Blank::new(1));
    }

    /// The same, with the marks that it looks at counted: at most two, and as many as the first unranked and the
    /// first due class move on by.
    pub fn mark_asked_in<L: Ledger>(&mut self, place: u32, steps: &mut Steps<L>)
        requires low { 1 ≤ place }
        requires high { place ≤ length self.old.marks }
        ensures change { ChangesMark as_asked self.old self.new place }
        ensures cost { steps.new + reach_of self.old ≤ steps.old + 2 + reach_of self.new }
    {
        self.marks[place as usize - 1].asked = true;
        self.due = first_from(self.marks.as_slice(), Wanted::Due, self.due, steps);
    }

    /// Gives out the first class that isn't ranked and was never given out, or was last given out at another
    /// version. It is marked with this one.
    pub fn next_job(&mut self, version: u32) -> Option<u32>
        ensures job { result ≡ first_place (is_job version) self.old.marks }
        ensures marks { self.new.marks ≡ given_out version self.old.marks }
        ensures len { length self.new.marks ≡ length self.old.marks }
        ensures kept { self.new.kept ≡ self.old.kept }
    {
        let index = self.find_job::<Brand>(version, Blank::new(1));
        self.version = version;
        self.job = index;
        if index == self.marks.len() {
            return None;
        }
        self.marks[index].given = Some(version);
        self.job = index + 1;
        Some(index as u32 + 1)
    }

    /// Keeps vectors of a class, of which no answers are known that they meet.
    pub fn keep(&mut self, place: u32, plus: Vector, minus: Vector)
        requires low { 1 ≤ place }
        requires high { place ≤ length self.old.marks }
        ensures marks { self.new.marks ≡ self.old.marks }
        ensures kept { self.new.kept ≡ slice_set self.old.kept (place - 1) (Some (record { plus = plus; minus = minus; met = 0 })) }
    {
        self.keep_met(place, 0, plus, minus);
    }

    /// Keeps vectors of a class that meet the first `met` answers.
    pub fn keep_met(&mut self, place: u32, met: u32, plus: Vector, minus: Vector)
        requires low { 1 ≤ place }
        requires high { place ≤ length self.old.marks }
        ensures marks { self.new.marks ≡ self.old.marks }
        ensures kept { self.new.kept ≡ slice_set self.old.kept (place - 1) (Some (record { plus = plus; minus = minus; met = met })) }
    {
        self.kept[place as usize - 1] = Some(Kept { plus, minus, met });
    }

    /// The vectors of a class that were kept last.
    pub fn kept(&self, place: u32) -> Option<(Vector, Vector)>
        requires low { 1 ≤ place }
        requires high { place ≤ length self.now.marks }
        ensures { result ≡ option_map vectors_of (kept_at self.now.kept place) }
    {
        let kept = self.kept[place as usize - 1]?;
        Some((kept.plus, kept.minus))
    }

    /// How many answers the vectors of a class are known to meet; 0 where none were kept.
    pub fn met(&self, place: u32) -> u32
        requires low { 1 ≤ place }
        requires high { place ≤ length self.now.marks }
        ensures { result ≡ met_of (kept_at self.now.kept place) }
    {
        match &self.kept[place as usize - 1] {
            Some(kept) => kept.met,
            None => 0,
        }
    }

    /// Takes back that vectors meet more than the first `met` answers.
    pub fn cut_met(&mut self, met: u32)
        ensures marks { self.new.marks ≡ self.old.marks }
        ensures kept { self.new.kept ≡ map (cut_kept met) self.old.kept }
    {
        cut_all(self.kept.as_mut_slice(), met);
    }

    // Marks the class, where nobody counts.
    fn rank<L: Ledger>(&mut self, place: u32, blank: Blank)
        requires ledger { (blank.name ≡ L.name) × (blank.parts ≡ L.parts) × (1 ≤ blank.parts) }
        requires low { 1 ≤ place }
        requires high { place ≤ length self.old.marks }
        ensures { ChangesMark as_ranked self.old self.new place }
    {
        let mut steps = Steps::<L>::new(blank);
        self.mark_ranked_in(place, &mut steps);
    }

    // Marks the class, where nobody counts.
    fn ask<L: Ledger>(&mut self, place: u32, blank: Blank)
        requires ledger { (blank.name ≡ L.name) × (blank.parts ≡ L.parts) × (1 ≤ blank.parts) }
        requires low { 1 ≤ place }
        requires high { place ≤ length self.old.marks }
        ensures { ChangesMark as_asked self.old self.new place }
    {
        let mut steps = Steps::<L>::new(blank);
        self.mark_asked_in(place, &mut steps);
    }

    // How many marks stand before the first job at the version.
    fn find_job<L: Ledger>(&self, version: u32, blank: Blank) -> usize
        requires ledger { (blank.name ≡ L.name) × (blank.parts ≡ L.parts) × (1 ≤ blank.parts) }
        ensures { result ≡ position_or_len (is_job version) self.now.marks }
    {
        let mut steps = Steps::<L>::new(blank);
        first_from(
            self.marks.as_slice(),
            Wanted::Job { version },
            self.before_job(version),
            &mut steps,
        )
    }

    // How many marks are known to stand before the first job at the version.
    fn before_job(&self, version: u32) -> usize
        ensures { result ≤ position_or_len (is_job version) self.now.marks }
    {
        if version == self.version {
            self.job
        } else {
            self.unranked
        }
    }

    // The place after this many marks, where there is one.
    fn place_after(&self, count: usize) -> Option<u32>
        ensures { result ≡ place_at self.now.marks count }
    {
        if count < self.marks.len() {
            Some(count as u32 + 1)
        } else {
            None
        }
    }
}

// The lesser of the two numbers, where the class is wanted.
fn back_to(count: usize, index: usize, is_wanted: bool) -> usize
    ensures { result ≡ (if is_wanted then min count index else count) }
{
    if is_wanted { count.min(index) } else { count }
}

// Takes back that the vectors meet more than this many answers.
fn cut_all(kept: &mut [Option<Kept>], met: u32)
    ensures { kept.new ≡ map (cut_kept met) kept.old }
{
    for latest in kept.iter_mut() {
        cut(latest, met);
    }
}

// The same, of one class.
fn cut(latest: &mut Option<Kept>, met: u32)
    ensures { latest.new ≡ cut_kept met latest.old }
{
    if let Some(kept) = latest {
        kept.met = kept.met.min(met);
    }
}

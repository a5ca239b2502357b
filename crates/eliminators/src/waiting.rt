//! Which surveys have a job in the line.
ghost use Rattle.std.specs.Prelude.{◌≤◌};

use std::alloc::{AllocError as NoMemory, Global};
use std::sync::Arc;
use std::sync::atomic::{AtomicBool, Ordering};

/// A mark for each survey: whether a job of it waits in the line. All ends of the line share the marks.
///
/// They only save jobs that would find nothing new to do, so no clause speaks of them.
#[derive(Drop)]
pub(crate) struct WaitingMarks {
    marks: Arc<Vec<AtomicBool>>,
}

impl WaitingMarks {
    /// The marks of so many surveys, of which none waits.
    pub(crate) fn new(alloc: Global, surveys: u32) -> Result<WaitingMarks, NoMemory> {
        let mut marks = Vec::with_capacity(alloc, surveys as usize)?;
        for _ in 0..surveys {
            marks.push(AtomicBool::new(false))?;
        }
        Ok(WaitingMarks {
            marks: Arc::new(alloc, marks)?,
        })
    }

    /// The same marks, for one more end.
    pub(crate) fn another(&self) -> Result<WaitingMarks, NoMemory> {
        Ok(WaitingMarks {
            marks: Arc::try_clone(&self.marks)?,
        })
    }

    /// Marks that a job of this survey waits. True where none did.
    pub(crate) fn raise(&self, survey: u32) -> bool
        requires exists { 1 ≤ survey }
    {
        match self.marks.get(survey as usize - 1) {
            Some(mark) => !mark.swap(true, Ordering::SeqCst),
            None => true,
        }
    }

    /// Marks that no job of this survey waits.
    pub(crate) fn lower(&self, survey: u32)
        requires exists { 1 ≤ survey }
    {
        if let Some(mark) = self.marks.get(survey as usize - 1) {
            mark.store(false, Ordering::SeqCst);
        }
    }
}

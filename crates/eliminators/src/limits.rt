//! Limits of the job line.

/// Jobs that wait in a job line.
pub const MAX_JOBS: usize = 1024;

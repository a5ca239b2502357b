//! The shape of a sample survey.
ghost use Rattle.std.specs.Prelude.{◌≡◌, ◌≤◌, IfOk, IfSome};
ghost use Rattle.text_fields.specs.Reading.{ReadsAs};
ghost use Rattle.survey_words.specs.Shapes.{AreCounts, IsShape, read_counts as read_counts_by, read_degree as read_degree_by, shape_of};

use crate::NoMemory;
use crate::limits::{MAX_SHAPE_COUNTS, MAX_SHAPE_NUMBER};
use std::alloc::Global;
use std::marker::Model;
use text_fields::Fields;

/// The numbers of levels of criteria, from the first criterion on.
#[derive(Drop)]
pub struct LevelCounts {
    items: Vec<u32>,
}

impl Model for LevelCounts {
    ghost use Rattle.std.specs.Prelude.{ℕ, List};

    ghost Value = { List ℕ };

    ghost view = { λ c. c.items.items };
}

impl LevelCounts {
    /// The counts.
    pub fn as_slice(&self) -> &[u32]
        ensures { result.now ≡ self.now }
    {
        self.items.as_slice()
    }
}

/// The level counts and the degree limit of a sample survey. Whether they are those of a model isn't tested.
#[derive(Drop)]
pub struct Shape {
    pub counts: LevelCounts,
    pub degree: u32,
}

/// The shape that the word is.
pub(crate) fn read_shape(alloc: Global, word: &str) -> Result<Option<Shape>, NoMemory>
    ensures exact { IfOk result (λ shape. shape ≡ shape_of word.now) }
    ensures limits { IfOk result (λ shape. IfSome shape IsShape) }
{
    let mut fields = Fields::of(word.as_bytes());
    let Some(counts) = read_counts(alloc, &mut fields)? else {
        return Ok(None);
    };
    let Some(degree) = read_degree(&mut fields) else {
        return Ok(None);
    };
    if !fields.is_empty() {
        return Ok(None);
    }
    Ok(Some(Shape { counts, degree }))
}

/// Reads the degree after the level counts.
fn read_degree(fields: &mut Fields<'_>) -> Option<u32>
    ensures exact { ReadsAs result fields.new (read_degree_by fields.old) }
    ensures limit { IfSome result (λ degree. degree ≤ MAX_SHAPE_NUMBER) }
{
    fields.word(b":")?;
    fields.number(MAX_SHAPE_NUMBER)
}

/// Reads the level counts.
fn read_counts(alloc: Global, fields: &mut Fields<'_>) -> Result<Option<LevelCounts>, NoMemory>
    ensures exact { IfOk result (λ counts. ReadsAs counts fields.new (read_counts_by MAX_SHAPE_COUNTS fields.old)) }
    ensures limits { IfOk result (λ counts. IfSome counts AreCounts) }
{
    let mut items = Vec::new(alloc);
    'counts: while items.len() < MAX_SHAPE_COUNTS {
        let Some(count) = fields.number(MAX_SHAPE_NUMBER) else {
            return Ok(None);
        };
        items.push(count)?;
        if !fields.skip(b'x') {
            return Ok(Some(LevelCounts { items }));
        }
    }
    Ok(None)
}

//! The line of a sample survey.
ghost use Rattle.std.specs.Prelude.{◌≡◌, ◌++◌, IfOk, OnOk, codes};
ghost use Rattle.std.specs.Fmt.{decimal};
ghost use Rattle.survey_server.specs.SampleTexts.{counts_text, sample_line, shape_text};

use edges::NoMemory;
use itoa::Buffer;
use sample_survey::Summary;
use std::alloc::Global;
use survey_words::Shape;

/// The line of the summary of the sample survey of a seed and a shape.
pub(crate) fn sample_line_of(
    alloc: Global,
    seed: u32,
    shape: &Shape,
    summary: &Summary,
) -> Result<Vec<u8>, NoMemory>
    ensures { IfOk result (λ line. line.items ≡ sample_line seed shape.now summary.now) }
{
    let mut line = Vec::new(alloc);
    add_number(&mut line, b"sample ", u64::from(seed))?;
    add_shape(&mut line, shape)?;
    add_number(&mut line, b" classes ", u64::from(summary.classes))?;
    add_number(&mut line, b" questions ", u64::from(summary.questions))?;
    add_number(&mut line, b" left ", u64::from(summary.left))?;
    add_number(&mut line, b" right ", u64::from(summary.right))?;
    add_number(&mut line, b" equal ", u64::from(summary.equal))?;
    add_number(&mut line, b" eliminated ", u64::from(summary.eliminated))?;
    add_number(&mut line, b" trace ", summary.trace)?;
    line.extend_from_slice(b" complete\n")?;
    Ok(line)
}

/// Adds a blank and the shape.
fn add_shape(line: &mut Vec<u8>, shape: &Shape) -> Result<(), NoMemory>
    ensures { OnOk result (line.new.items ≡ line.old.items ++ codes " " ++ shape_text shape.now) }
{
    line.extend_from_slice(b" ")?;
    add_counts(line, shape.counts.as_slice())?;
    add_number(line, b":", u64::from(shape.degree))
}

/// Adds level counts, joined by `x`.
fn add_counts(line: &mut Vec<u8>, counts: &[u32]) -> Result<(), NoMemory>
    ensures { OnOk result (line.new.items ≡ line.old.items ++ counts_text counts.now) }
{
    let [first, others @ ..] = counts else {
        return Ok(());
    };
    add_number(line, b"", u64::from(*first))?;
    for count in others {
        add_number(line, b"x", u64::from(*count))?;
    }
    Ok(())
}

/// Adds a text and then a number.
fn add_number(line: &mut Vec<u8>, text: &[u8], number: u64) -> Result<(), NoMemory>
    ensures { OnOk result (line.new.items ≡ line.old.items ++ text.now ++ decimal number) }
{
    line.extend_from_slice(text)?;
    line.extend_from_slice(Buffer::new().format(number).as_bytes())
}

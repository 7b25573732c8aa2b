//! Clusters of which a part was left out, marked by their numbers.
ghost use Rattle.std.specs.Prelude.{◌≡◌, OnOk, OnErr};
ghost use Rattle.block_builder.specs.Building.{AddsMark, is_marked};

use outside::NoMemory;

/// Whether a number is marked.
pub fn has_mark(marks: &[bool], number: usize) -> bool
    ensures { result ≡ is_marked marks.now number }
{
    number < marks.len() && marks[number]
}

/// Marks a number. Without memory all stays as it was.
pub fn mark(marks: &mut Vec<bool>, number: usize) -> Result<(), NoMemory>
    ensures marked { OnOk result (AddsMark marks.old.items marks.new.items number) }
    ensures err { OnErr result (marks.new.items ≡ marks.old.items) }
{
    let Some(needed) = number.checked_add(1) else {
        return Err(NoMemory);
    };
    if marks.len() < needed {
        marks.resize(needed, false)?;
    }
    marks[number] = true;
    Ok(())
}

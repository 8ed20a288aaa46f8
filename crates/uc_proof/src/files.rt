//! The files of a proof's lines.

ghost use Rattle.std.specs.Prelude.{◌≡◌, Some, map, slice_get, IfOk};
ghost use Rattle.uc_proof.specs.Files.{clause_file, source_file, part_file};

use crate::part::Part;
use std::alloc::{AllocError, Global};
use uc_problem::{Encoded, Problem, Source};
use uc_term::{Seq, Text};

/// The file of each part's line.
pub(crate) fn files(
    alloc: Global,
    problem: &Problem,
    encoded: &Encoded,
    parts: &[Part],
) -> Result<Seq<Text>, AllocError>
    ensures { IfOk result (λ files. files ≡ map (part_file problem.now encoded.now) parts.now) }
{
    let mut files = Seq::new(alloc);
    for part in parts {
        files.push(part_file(alloc, problem, encoded, *part)?)?;
    }
    Ok(files)
}

fn part_file(
    alloc: Global,
    problem: &Problem,
    encoded: &Encoded,
    part: Part,
) -> Result<Text, AllocError>
    ensures { IfOk result (λ file. file ≡ part_file problem.now encoded.now part) }
{
    match part {
        Part::Axiom(number) => match encoded.sources.as_slice().get(number as usize) {
            Some(source) => source_file(alloc, problem, *source),
            None => Ok(Text::new(alloc)),
        },
        Part::Denial(clause) => clause_file(alloc, problem, clause),
        Part::Fact(_) => Ok(Text::new(alloc)),
        Part::Conclusion => Ok(Text::new(alloc)),
        Part::Refutation => Ok(Text::new(alloc)),
    }
}

fn source_file(alloc: Global, problem: &Problem, source: Source) -> Result<Text, AllocError>
    ensures { IfOk result (λ file. file ≡ source_file problem.now (Some source)) }
{
    match source {
        Source::Clause(clause) => clause_file(alloc, problem, clause),
        Source::Reflexive => Ok(Text::new(alloc)),
        Source::Goal(_) => Ok(Text::new(alloc)),
    }
}

fn clause_file(alloc: Global, problem: &Problem, clause: u32) -> Result<Text, AllocError>
    ensures { IfOk result (λ file. file ≡ clause_file (slice_get problem.now.clauses clause)) }
{
    match problem.clauses.as_slice().get(clause as usize) {
        Some(sourced) => sourced.file.copy(alloc),
        None => Ok(Text::new(alloc)),
    }
}

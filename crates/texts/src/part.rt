//! The parts of a line, one after another, without the blanks between them.
ghost use Rattle.std.specs.{Prelude.{◌≡◌, ◌<◌, List, ℕ, length, IfOk, Option}, Option.{option_map}};
ghost use Rattle.texts.specs.Parts.{part_step, parts_of};

use crate::blank::from_first;
use kd_base::OutOfMemory;
use std::alloc::Global;

/// What a line is made of, as its words.
pub trait Part: Drop {
    /// The part at the front of bytes that begin with no blank, and what follows.
    ghost part_at: { List ℕ → Option (Self × List ℕ) };

    /// The part at the front, and what follows; `None` where it has no end.
    fn at_front(alloc: Global, bytes: &[u8]) -> Result<Option<(Self, &[u8])>, OutOfMemory>
        requires { 0 < length bytes.now }
        ensures { IfOk result (λ found. option_map (λ p. (p.0, p.1.now)) found ≡ part_at bytes.now) };
}

// The part at the front, and what follows it and the blanks after it.
fn part_step<P: Part>(alloc: Global, bytes: &[u8]) -> Result<Option<(P, &[u8])>, OutOfMemory>
    requires { 0 < length bytes.now }
    ensures { IfOk result (λ found. option_map (λ p. (p.0, p.1.now)) found ≡ part_step P.part_at bytes.now) }
{
    match P::at_front(alloc, bytes)? {
        None => Ok(None),
        Some((part, rest)) => Ok(Some((part, from_first(rest)))),
    }
}

/// The parts of a line; `None` where one has no end.
pub fn parts_of<P: Part>(alloc: Global, line: &[u8]) -> Result<Option<Vec<P>>, OutOfMemory>
    ensures { IfOk result (λ found. option_map (λ ps. ps.items) found ≡ parts_of P.part_at line.now) }
{
    let mut parts = Vec::new(alloc);
    let mut rest = from_first(line);
    // Each turn takes a byte at least.
    for _ in 0..rest.len() {
        if rest.is_empty() {
            return Ok(Some(parts));
        }
        let Some((part, after)) = part_step(alloc, rest)? else {
            return Ok(None);
        };
        parts.push(part)?;
        rest = after;
    }
    Ok(Some(parts))
}

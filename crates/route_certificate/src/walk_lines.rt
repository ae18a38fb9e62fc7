//! The lines of a walk.

ghost use Rattle.std.specs.Prelude.{◌≡◌, ℕ, ◌^◌, ◌<◌, ◌++◌, IfSome, IfNone, IfOk, length};
ghost use Rattle.line_forms.specs.Fronts.{HasNone, IsFront};
ghost use Rattle.route_certificate.specs.Forms.{FitsStep, from_body, step_body, from_line, step_line, FitsNode};

use line_forms::{after, cut_at, number};
use std::alloc::{AllocError, Global};

fn from_of(nodes: usize, body: &[u8]) -> Option<u32>
    ensures found { IfSome result (λ n. (body.now ≡ from_body n) × FitsNode nodes n) }
    ensures none { IfNone result ((n : ℕ) → FitsNode nodes n → body.now ≡ from_body n → ⊥) }
{
    let place = number(after(body, b"from ")?)?;
    if place < nodes as u64 {
        u32::try_from(place).ok()
    } else {
        None
    }
}

fn step_of(body: &[u8]) -> Option<u32>
    ensures found { IfSome result (λ k. (body.now ≡ step_body k) × FitsStep k) }
    ensures none { IfNone result ((k : ℕ) → FitsStep k → body.now ≡ step_body k → ⊥) }
{
    let place = number(after(body, b"step ")?)?;
    u32::try_from(place).ok()
}

/// The line `from` at the front, and what follows it.
pub(crate) fn next_from(nodes: usize, text: &[u8]) -> Option<(u32, &[u8])>
    ensures found { IfSome result (λ x. (text.now ≡ from_line x.0 ++ x.1.now) × FitsNode nodes x.0) }
    ensures none { IfNone result (HasNone from_line (FitsNode nodes) text.now) }
    ensures shorter { IfSome result (λ x. length x.1.now < length text.now) }
{
    let (body, rest) = cut_at(text, b'\n')?;
    let place = from_of(nodes, body)?;
    Some((place, rest))
}

fn next_step(text: &[u8]) -> Option<(u32, &[u8])>
    ensures found { IfSome result (λ x. (text.now ≡ step_line x.0 ++ x.1.now) × FitsStep x.0) }
    ensures none { IfNone result (HasNone step_line FitsStep text.now) }
    ensures shorter { IfSome result (λ x. length x.1.now < length text.now) }
{
    let (body, rest) = cut_at(text, b'\n')?;
    let step = step_of(body)?;
    Some((step, rest))
}

/// The steps at the front, as many as there are, and what follows them.
pub(crate) fn read_steps(alloc: Global, text: &[u8]) -> Result<(Vec<u32>, &[u8]), AllocError>
    ensures { IfOk result (λ x. IsFront step_line FitsStep x.0.items text.now x.1.now) }
{
    let mut steps = Vec::new(alloc);
    let mut rest = text;
    while let Some((step, more)) = next_step(rest) {
        steps.push(step)?;
        rest = more;
    }
    Ok((steps, rest))
}

//! The lines of an answer.

ghost use Rattle.std.specs.Prelude.{◌≡◌, ℕ, ◌^◌, ◌<◌, ◌≤◌, ◌++◌, List, IsTrue, IfSome, IfNone, IfOk, length, not, ◌==◌, ◌↔◌};
ghost use Rattle.std.specs.List.{list_all};
ghost use Rattle.std.specs.Fmt.{decimal};
ghost use Rattle.venue_types.specs.declared.link.Potential.{Potential};
ghost use Rattle.line_forms.specs.Lines.{line};
ghost use Rattle.line_forms.specs.Fronts.{HasNone};
ghost use Rattle.route_certificate.specs.Forms.{FitsNode};
ghost use Rattle.route_certificate.specs.Answers.{FitsCost, FitsPotential, at_body, to_line, route_line, at_line, reach_line};
ghost use Rattle.route_certificate.specs.AnswerFronts.{IsInRange, FitsBehind, IsRisingFront};

use line_forms::{after, cut_at, number, number_word};
use std::alloc::{AllocError, Global};
use venue_types::Potential;

// Above the most that an answer costs and that a potential is, in centimetres.
const COST_END: u64 = 4_398_046_511_104;

// Above the greatest number of 32 bits.
const NODE_END: u64 = 4_294_967_296;

// The number behind the front in the first line, where it is within the bounds, and what follows the line.
fn number_line<'a>(front: &[u8], low: u64, below: u64, text: &'a [u8]) -> Option<(u64, &'a [u8])>
    requires { IsTrue (list_all (λ b. not (b == 10)) front.now) }
    ensures found { IfSome result (λ x. (text.now ≡ line (front.now ++ decimal x.0) ++ x.1.now) × IsInRange low below x.0) }
    ensures none { IfNone result ((n : ℕ) (more : List ℕ) → IsInRange low below n → text.now ≡ line (front.now ++ decimal n) ++ more → ⊥) }
    ensures shorter { IfSome result (λ x. length x.1.now < length text.now) }
{
    let (body, rest) = cut_at(text, b'\n')?;
    let found = number(after(body, front)?)?;
    if low <= found && found < below {
        Some((found, rest))
    } else {
        None
    }
}

// Above the numbers of the nodes of a table of so many.
fn node_end(nodes: usize) -> u64
    ensures { (n : ℕ) → (n < result) ↔ FitsNode nodes n }
{
    (nodes as u64).min(NODE_END)
}

/// The line `to` at the front, and what follows it.
pub(crate) fn next_to(nodes: usize, text: &[u8]) -> Option<(u32, &[u8])>
    ensures found { IfSome result (λ x. (text.now ≡ to_line x.0 ++ x.1.now) × FitsNode nodes x.0) }
    ensures none { IfNone result (HasNone to_line (FitsNode nodes) text.now) }
{
    let end = node_end(nodes);
    let (node, rest) = number_line(b"to ", 0, end, text)?;
    Some((node as u32, rest))
}

/// The line `route` at the front, and what follows it.
pub(crate) fn next_route(text: &[u8]) -> Option<(u64, &[u8])>
    ensures found { IfSome result (λ x. (text.now ≡ route_line x.0 ++ x.1.now) × FitsCost x.0) }
    ensures none { IfNone result (HasNone route_line FitsCost text.now) }
{
    let (cost, rest) = number_line(b"route ", 0, COST_END, text)?;
    Some((cost, rest))
}

fn next_reach(nodes: usize, low: u64, text: &[u8]) -> Option<(u32, &[u8])>
    ensures found { IfSome result (λ x. (text.now ≡ reach_line x.0 ++ x.1.now) × FitsBehind (FitsNode nodes) (λ n. n) low x.0) }
    ensures none { IfNone result (HasNone reach_line (FitsBehind (FitsNode nodes) (λ n. n) low) text.now) }
    ensures shorter { IfSome result (λ x. length x.1.now < length text.now) }
{
    let end = node_end(nodes);
    let (node, rest) = number_line(b"reach ", low, end, text)?;
    Some((node as u32, rest))
}

fn potential_of(nodes: usize, low: u64, body: &[u8]) -> Option<Potential>
    ensures found { IfSome result (λ p. (body.now ≡ at_body p) × FitsBehind (FitsPotential nodes) (λ q. q.node) low p) }
    ensures none { IfNone result ((p : Potential) → FitsBehind (FitsPotential nodes) (λ q. q.node) low p → body.now ≡ at_body p → ⊥) }
{
    let (node, rest) = number_word(after(body, b"at ")?)?;
    let value = number(rest)?;
    let end = node_end(nodes);
    if low <= node && node < end && value < COST_END {
        Some(Potential {
            node: node as u32,
            value,
        })
    } else {
        None
    }
}

fn next_at(nodes: usize, low: u64, text: &[u8]) -> Option<(Potential, &[u8])>
    ensures found { IfSome result (λ x. (text.now ≡ at_line x.0 ++ x.1.now) × FitsBehind (FitsPotential nodes) (λ q. q.node) low x.0) }
    ensures none { IfNone result (HasNone at_line (FitsBehind (FitsPotential nodes) (λ q. q.node) low) text.now) }
    ensures shorter { IfSome result (λ x. length x.1.now < length text.now) }
{
    let (body, rest) = cut_at(text, b'\n')?;
    let potential = potential_of(nodes, low, body)?;
    Some((potential, rest))
}

/// The potentials at the front, as many as there are whose nodes ascend, and what follows them.
pub(crate) fn read_potentials(
    alloc: Global,
    nodes: usize,
    text: &[u8],
) -> Result<(Vec<Potential>, &[u8]), AllocError>
    ensures { IfOk result (λ x. IsRisingFront at_line (FitsPotential nodes) (λ q. q.node) x.0.items text.now x.1.now) }
{
    let mut potentials = Vec::new(alloc);
    let mut rest = text;
    let mut low = 0u64;
    while let Some((potential, more)) = next_at(nodes, low, rest) {
        low = potential.node as u64 + 1;
        potentials.push(potential)?;
        rest = more;
    }
    Ok((potentials, rest))
}

/// The reached nodes at the front, as many as there are that ascend, and what follows them.
pub(crate) fn read_reached(
    alloc: Global,
    nodes: usize,
    text: &[u8],
) -> Result<(Vec<u32>, &[u8]), AllocError>
    ensures { IfOk result (λ x. IsRisingFront reach_line (FitsNode nodes) (λ n. n) x.0.items text.now x.1.now) }
{
    let mut reached = Vec::new(alloc);
    let mut rest = text;
    let mut low = 0u64;
    while let Some((node, more)) = next_reach(nodes, low, rest) {
        low = node as u64 + 1;
        reached.push(node)?;
        rest = more;
    }
    Ok((reached, rest))
}

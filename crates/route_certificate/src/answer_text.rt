//! Reading and writing answers.

ghost use Rattle.std.specs.Prelude.{◌≡◌, ℕ, ◌^◌, ◌<◌, ◌++◌, IfOk, IsErrOf, length};
ghost use Rattle.line_forms.specs.Faults.{IsFaultLine};
ghost use Rattle.line_forms.specs.Behind.{IsFaultBehind};
ghost use Rattle.route_certificate.specs.declared.table.Table.{Table};
ghost use Rattle.route_certificate.specs.Answers.{IsAnswerText, IsAnswerTextOver, FitsAnswer, FitsCost, HasFewSteps, answer_text, route_line, none_line};
ghost use Rattle.route_certificate.specs.AnswerFronts.{IsClaim, IsClaimText};

use crate::answer::{AnswerIn, Claim};
use crate::answer_lines::{next_route, next_to, read_potentials, read_reached};
use crate::answer_writer::{push_claim, push_ends};
use crate::form_end::{Ending, read_end};
use crate::table::{FormFault, Table};
use crate::walk_lines::{next_from, read_steps};
use line_forms::after;
use std::alloc::Global;
use venue_types::{Bytes, List, OutOfMemory};

// The claim of a route, behind its first line and three before that.
fn read_route(alloc: Global, nodes: usize, cost: u64, text: &[u8]) -> Result<Claim, FormFault>
    requires text { length text.now < 2 ^ 32 }
    requires cost { FitsCost cost }
    ensures found { IfOk result (IsClaim nodes (route_line cost ++ text.now)) }
    ensures few { IfOk result HasFewSteps }
    ensures fault { (n : ℕ) → IsErrOf result (FormFault.Line n) → IsFaultBehind (IsClaimText nodes) 3 (route_line cost ++ text.now) n }
{
    let (steps, rest) = read_steps(alloc, text)?;
    let (at, rest) = read_potentials(alloc, nodes, rest)?;
    let lines = 4 + steps.len() as u64 + at.len() as u64;
    match read_end(rest) {
        Ending::Whole => Ok(Claim::Route {
            cost,
            steps: List::from_vec(steps),
            at: List::from_vec(at),
        }),
        Ending::Missing => Err(FormFault::Line(lines + 1)),
        Ending::TextBehind => Err(FormFault::Line(lines + 2)),
    }
}

// The claim that there is no walk, behind its first line and three before that.
fn read_nothing(alloc: Global, nodes: usize, text: &[u8]) -> Result<Claim, FormFault>
    ensures found { IfOk result (IsClaim nodes (none_line ++ text.now)) }
    ensures few { IfOk result HasFewSteps }
    ensures fault { (n : ℕ) → IsErrOf result (FormFault.Line n) → IsFaultBehind (IsClaimText nodes) 3 (none_line ++ text.now) n }
{
    let (reached, rest) = read_reached(alloc, nodes, text)?;
    let lines = 4 + reached.len() as u64;
    match read_end(rest) {
        Ending::Whole => Ok(Claim::Nothing {
            reached: List::from_vec(reached),
        }),
        Ending::Missing => Err(FormFault::Line(lines + 1)),
        Ending::TextBehind => Err(FormFault::Line(lines + 2)),
    }
}

// The claim whose lines stand behind three others.
fn read_claim(alloc: Global, nodes: usize, text: &[u8]) -> Result<Claim, FormFault>
    requires { length text.now < 2 ^ 32 }
    ensures found { IfOk result (IsClaim nodes text.now) }
    ensures few { IfOk result HasFewSteps }
    ensures fault { (n : ℕ) → IsErrOf result (FormFault.Line n) → IsFaultBehind (IsClaimText nodes) 3 text.now n }
{
    if let Some((cost, rest)) = next_route(text) {
        return read_route(alloc, nodes, cost, rest);
    }
    match after(text, b"none\n") {
        Some(rest) => read_nothing(alloc, nodes, rest),
        None => Err(FormFault::Line(4)),
    }
}

/// The answer over the table whose text this is, in one pass over the text.
///
/// A fault names the first line, from 1, such that no answer's text begins with the lines up to it. Over a table
/// without nodes there is no answer, so the fault is at line 1.
pub fn read_answer(alloc: Global, text: &[u8], table: &Table) -> Result<AnswerIn, FormFault>
    requires { length text.now < 2 ^ 32 }
    ensures found { IfOk result (IsAnswerText text.now table.now) }
    ensures few { IfOk result (λ answer. HasFewSteps answer.claim) }
    ensures fault { (n : ℕ) → IsErrOf result (FormFault.Line n) → IsFaultLine (IsAnswerTextOver table.now) text.now n }
{
    let nodes = table.nodes.len();
    if nodes == 0 {
        return Err(FormFault::Line(1));
    }
    let Some(rest) = after(text, b"imdf-answer 1\n") else {
        return Err(FormFault::Line(1));
    };
    let Some((from, rest)) = next_from(nodes, rest) else {
        return Err(FormFault::Line(2));
    };
    let Some((to, rest)) = next_to(nodes, rest) else {
        return Err(FormFault::Line(3));
    };
    let claim = read_claim(alloc, nodes, rest)?;
    Ok(AnswerIn { from, to, claim })
}

/// The one text of an answer. It reads back to the answer over every table that has all its nodes.
pub fn write_answer(alloc: Global, answer: &AnswerIn) -> Result<Bytes, OutOfMemory>
    requires { FitsAnswer 400000 answer.now }
    ensures spelled { IfOk result (λ bytes. bytes ≡ answer_text answer.now) }
    ensures reads_back { IfOk result (λ bytes. (table : Table) → FitsAnswer (length table.nodes) answer.now → IsAnswerText bytes table answer.now) }
{
    let mut out = Vec::new(alloc);
    push_ends(&mut out, answer.from, answer.to)?;
    push_claim(&mut out, &answer.claim)?;
    Ok(Bytes::from_vec(out))
}

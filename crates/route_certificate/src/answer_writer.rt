//! Writing the lines of an answer.

ghost use Rattle.std.specs.Prelude.{◌≡◌, ◌++◌, OnOk};
ghost use Rattle.std.specs.List.{flat_map};
ghost use Rattle.std.specs.Fmt.{decimal};
ghost use Rattle.line_forms.specs.Lines.{line};
ghost use Rattle.route_certificate.specs.Forms.{from_line, step_line, end_line};
ghost use Rattle.route_certificate.specs.Answers.{answer_head, to_line, route_line, at_line, none_line, reach_line, claim_text};

use crate::answer::Claim;
use line_forms::push_number;
use std::alloc::AllocError;
use venue_types::Potential;

// Adds a line of a front and a number.
fn push_numbered(out: &mut Vec<u8>, front: &[u8], n: u64) -> Result<(), AllocError>
    ensures { OnOk result (out.new.items ≡ out.old.items ++ line (front.now ++ decimal n)) }
{
    out.extend_from_slice(front)?;
    push_number(out, n)?;
    out.push(b'\n')?;
    Ok(())
}

fn push_potential(out: &mut Vec<u8>, potential: Potential) -> Result<(), AllocError>
    ensures { OnOk result (out.new.items ≡ out.old.items ++ at_line potential) }
{
    out.extend_from_slice(b"at ")?;
    push_number(out, potential.node as u64)?;
    out.push(b' ')?;
    push_number(out, potential.value)?;
    out.push(b'\n')?;
    Ok(())
}

#[tactic(auto, unfolding(crate::specs::Forms::step_line))]
fn push_steps(out: &mut Vec<u8>, steps: &[u32]) -> Result<(), AllocError>
    ensures { OnOk result (out.new.items ≡ out.old.items ++ flat_map step_line steps.now) }
{
    for step in steps {
        push_numbered(out, b"step ", *step as u64)?;
    }
    Ok(())
}

fn push_potentials(out: &mut Vec<u8>, at: &[Potential]) -> Result<(), AllocError>
    ensures { OnOk result (out.new.items ≡ out.old.items ++ flat_map at_line at.now) }
{
    for potential in at {
        push_potential(out, *potential)?;
    }
    Ok(())
}

#[tactic(auto, unfolding(crate::specs::Answers::reach_line))]
fn push_reached(out: &mut Vec<u8>, reached: &[u32]) -> Result<(), AllocError>
    ensures { OnOk result (out.new.items ≡ out.old.items ++ flat_map reach_line reached.now) }
{
    for node in reached {
        push_numbered(out, b"reach ", *node as u64)?;
    }
    Ok(())
}

/// Adds the first three lines.
pub(crate) fn push_ends(out: &mut Vec<u8>, from: u32, to: u32) -> Result<(), AllocError>
    ensures { OnOk result (out.new.items ≡ out.old.items ++ (answer_head ++ (from_line from ++ to_line to))) }
{
    out.extend_from_slice(b"imdf-answer 1\n")?;
    push_numbered(out, b"from ", from as u64)?;
    push_numbered(out, b"to ", to as u64)?;
    Ok(())
}

fn push_route(
    out: &mut Vec<u8>,
    cost: u64,
    steps: &[u32],
    at: &[Potential],
) -> Result<(), AllocError>
    ensures { OnOk result (out.new.items ≡ out.old.items ++ (route_line cost ++ (flat_map step_line steps.now ++ (flat_map at_line at.now ++ end_line)))) }
{
    push_numbered(out, b"route ", cost)?;
    push_steps(out, steps)?;
    push_potentials(out, at)?;
    out.extend_from_slice(b"end\n")?;
    Ok(())
}

fn push_nothing(out: &mut Vec<u8>, reached: &[u32]) -> Result<(), AllocError>
    ensures { OnOk result (out.new.items ≡ out.old.items ++ (none_line ++ (flat_map reach_line reached.now ++ end_line))) }
{
    out.extend_from_slice(b"none\n")?;
    push_reached(out, reached)?;
    out.extend_from_slice(b"end\n")?;
    Ok(())
}

/// Adds the lines of a claim and the last line.
pub(crate) fn push_claim(out: &mut Vec<u8>, claim: &Claim) -> Result<(), AllocError>
    ensures { OnOk result (out.new.items ≡ out.old.items ++ claim_text claim.now) }
{
    match claim {
        Claim::Route { cost, steps, at } => {
            push_route(out, *cost, steps.as_slice(), at.as_slice())
        }
        Claim::Nothing { reached } => push_nothing(out, reached.as_slice()),
    }
}

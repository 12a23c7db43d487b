//! The generated definitions and lines of a trial.

ghost use Rattle.std.specs.Prelude.{◌≡◌, ◌++◌, ◌≤◌, ◌+◌, ◌*◌, ◌%◌, IfOk, OnOk, length};
ghost use Rattle.session.specs.TextDecks.{FitsDeck};
ghost use Rattle.session.specs.TrialLines as spec;

use std::alloc::{AllocError, Global};

/// Returns the definitions of a trial of `last` rounds. The only error is running out of memory.
pub(crate) fn definitions(alloc: Global, last: u16) -> Result<Vec<u8>, AllocError>
    requires { last ≤ 20000 }
    ensures is { IfOk result (λ text. text.items ≡ spec.trial_definitions last) }
    ensures room { IfOk result (λ text. FitsDeck text.items) }
{
    let mut text = Vec::from_slice(alloc, b"u_0 !\n")?;
    let mut i = 0u16;
    while i < last {
        i += 1;
        put_multiple(alloc, &mut text, i, 1 + i % 3, i / 2)?;
    }
    Ok(text)
}

/// Returns the lines of all rounds of a trial. The only error is running out of memory.
pub(crate) fn all_rounds(alloc: Global, rounds: u16) -> Result<Vec<u8>, AllocError>
    requires some { 1 ≤ rounds }
    ensures { IfOk result (λ text. text.items ≡ spec.trial_rounds_text rounds rounds) }
{
    let mut text = Vec::new(alloc);
    let mut k = 0u16;
    while k < rounds {
        k += 1;
        put_round(alloc, &mut text, rounds, k)?;
    }
    Ok(text)
}

// Appends the k-th round of a trial.
fn put_round(alloc: Global, text: &mut Vec<u8>, rounds: u16, k: u16) -> Result<(), AllocError>
    requires some { 1 ≤ rounds }
    requires within { k ≤ rounds }
    ensures { OnOk result (text.new.items ≡ text.old.items ++ spec.trial_round_text rounds k) }
{
    let edited = spread(7, k, rounds);
    text.extend_from_slice(b":define ")?;
    put_multiple(alloc, text, edited, 2 + k % 3, edited / 2)?;
    put_name(alloc, text, spread(11, k, rounds))?;
    text.extend_from_slice(b"\nu_0\n")
}

// Returns a number from 1 to `most` for round `k`; it advances by `factor` from round to round.
fn spread(factor: u32, k: u16, most: u16) -> u16
    requires some { 1 ≤ most }
    requires small { factor ≤ 11 }
    ensures is { result ≡ 1 + factor * k % most }
    ensures within { result ≤ most }
{
    1 + (factor * u32::from(k) % u32::from(most)) as u16
}

// Appends a line that defines unit `i` as `factor` times unit `j`.
fn put_multiple(
    alloc: Global,
    text: &mut Vec<u8>,
    i: u16,
    factor: u16,
    j: u16,
) -> Result<(), AllocError>
    ensures is { OnOk result (text.new.items ≡ text.old.items ++ spec.trial_multiple_line i factor j) }
    ensures short { OnOk result (length text.new.items ≤ length text.old.items + 22) }
{
    put_name(alloc, text, i)?;
    text.push(b' ')?;
    text.extend_from_slice(factor.to_string(alloc)?.as_bytes())?;
    text.push(b' ')?;
    put_name(alloc, text, j)?;
    text.push(b'\n')?;
    Ok(())
}

// Appends the name of the i-th unit.
fn put_name(alloc: Global, text: &mut Vec<u8>, i: u16) -> Result<(), AllocError>
    ensures is { OnOk result (text.new.items ≡ text.old.items ++ spec.trial_unit_name i) }
    ensures short { OnOk result (length text.new.items ≤ length text.old.items + 7) }
{
    text.extend_from_slice(b"u_")?;
    text.extend_from_slice(i.to_string(alloc)?.as_bytes())
}

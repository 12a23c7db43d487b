//! Column input, which is read in full before any row is written.

ghost use Rattle.std.specs.Prelude.{◌≡◌, ◌≤◌, ◌<◌, [], List, ℕ, Some, IfErr, IfOk, IsErrOf, OnOk, length};
ghost use Rattle.units_io.specs.Faults.{HasIoCountRisen};
ghost use Rattle.session.specs.Outside.{SessionTookMoreThan};
ghost use Rattle.units_run.specs.ColumnEndings.{IsColumnRunInputCutOff};
ghost use Rattle.units_run.specs.declared.column_end.ColumnEnd.TheVariants as end;

use crate::column_end::ColumnEnd;
use std::alloc::Global;
use units_io::{Source, Text};

const BLOCK: usize = 65_536;

/// The limit of column input, in bytes.
pub(crate) const MOST_INPUT: usize = 16_777_216;

/// Returns all bytes of a source, up to its end.
pub(crate) fn read_input<S: Source>(alloc: Global, src: &mut S) -> Result<Text, ColumnEnd>
    ensures if_known { (input : List ℕ) → S.left src.old ≡ Some input →
        IfOk result (λ text. (text ≡ input) × (S.left src.new ≡ Some [])) }
    ensures read { IsErrOf result end.ReadFault → HasIoCountRisen (S.faults src.old) (S.faults src.new) }
    ensures too_long { IsErrOf result end.InputTooLong →
        SessionTookMoreThan 16777216 (S.taken src.old) (S.taken src.new) }
    ensures over { IfErr result IsColumnRunInputCutOff }
{
    let Ok(mut block) = vec![in alloc; 0u8; BLOCK] else {
        return Err(ColumnEnd::NoMemory);
    };
    read_by(alloc, src, block.as_mut_slice())
}

// Returns all bytes of a source, read block by block.
fn read_by<S: Source>(alloc: Global, src: &mut S, block: &mut [u8]) -> Result<Text, ColumnEnd>
    requires some { 0 < length block.old }
    requires small { length block.old ≤ 65536 }
    ensures if_known { (input : List ℕ) → S.left src.old ≡ Some input →
        IfOk result (λ text. (text ≡ input) × (S.left src.new ≡ Some [])) }
    ensures read { IsErrOf result end.ReadFault → HasIoCountRisen (S.faults src.old) (S.faults src.new) }
    ensures too_long { IsErrOf result end.InputTooLong →
        SessionTookMoreThan 16777216 (S.taken src.old) (S.taken src.new) }
    ensures over { IfErr result IsColumnRunInputCutOff }
{
    let mut text = Vec::new(alloc);
    match take_all(src, block, &mut text) {
        Ok(()) => Ok(Text::from(text)),
        Err(end) => Err(end),
    }
}

// Appends all bytes of a source to an empty `text`.
fn take_all<S: Source>(src: &mut S, block: &mut [u8], text: &mut Vec<u8>) -> Result<(), ColumnEnd>
    requires some { 0 < length block.old }
    requires small { length block.old ≤ 65536 }
    requires empty { text.old.items ≡ [] }
    ensures if_known { (input : List ℕ) → S.left src.old ≡ Some input →
        OnOk result ((text.new.items ≡ input) × (S.left src.new ≡ Some [])) }
    ensures read { IsErrOf result end.ReadFault → HasIoCountRisen (S.faults src.old) (S.faults src.new) }
    ensures too_long { IsErrOf result end.InputTooLong →
        SessionTookMoreThan 16777216 (S.taken src.old) (S.taken src.new) }
    ensures over { IfErr result IsColumnRunInputCutOff }
{
    while text.len() <= MOST_INPUT {
        let n = match src.take(block) {
            Ok(n) => n,
            Err(_) => return Err(ColumnEnd::ReadFault),
        };
        if n == 0 {
            return Ok(());
        }
        text.extend_from_slice(&block[..n])?;
    }
    Err(ColumnEnd::InputTooLong)
}

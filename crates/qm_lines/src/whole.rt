//! A whole input, and a whole text.

ghost use Rattle.std.specs.Prelude.{◌≡◌, ◌≢◌, ◌≤◌, ◌<◌, length, Err, IfOk, IfSome, OnOk, OnErr, IsErrOf};
ghost use Rattle.std.specs.Io.KnownBytes.{IsAtEnd};
ghost use Rattle.qm_model.specs.Causes.{IsCause, Grows, GrowsPart};

use crate::ports::{Failed, Sink, SinkError, Source};
use std::alloc::Global;

/// The most bytes that an input may have.
pub const LIMIT: usize = 16_777_216;

/// Why an input was not read.
#[derive(Clone, Copy, Debug, PartialEq, Eq)]
pub enum InputError {
    Memory,
    /// The source failed, and its count of faults rose.
    Failed,
    /// The input has more bytes than `LIMIT`.
    TooLong,
}

/// Reads a source to its end. It stops at the first failure, and once it read more than `LIMIT` bytes.
pub fn read_all<S: Source>(alloc: Global, source: &mut S) -> Result<Vec<u8>, InputError>
    ensures all { IfOk result (λ bytes. IfSome (S.left source.old) (λ input. bytes.items ≡ input)) }
    ensures short { IfOk result (λ bytes. length bytes.items ≤ LIMIT) }
    ensures end { OnOk result (IsAtEnd (S.left source.new)) }
    ensures long { IsErrOf result InputError.TooLong →
        IfSome (S.left source.old) (λ input. LIMIT < length input) }
    ensures cause { IsCause (S.faults source.old) (S.faults source.new)
        (IsErrOf result InputError.Failed) }
    ensures steady { result ≢ Err InputError.Failed → S.faults source.new ≡ S.faults source.old }
{
    let mut all = Vec::new(alloc);
    let mut buffer = [0; 4096];
    loop {
        match source.read(&mut buffer) {
            Err(Failed) => return Err(InputError::Failed),
            Ok(0) => return Ok(all),
            Ok(count) => {
                if count > LIMIT - all.len() {
                    return Err(InputError::TooLong);
                }
                if all.extend_from_slice(&buffer[..count]).is_err() {
                    return Err(InputError::Memory);
                }
            }
        }
    }
}

/// Writes a whole text. It stops at the first error.
pub fn write_all<K: Sink>(sink: &mut K, text: &[u8]) -> Result<(), SinkError>
    ensures ok { OnOk result (Grows (K.text sink.old) (K.text sink.new) text.now) }
    ensures err { OnErr result (GrowsPart (K.text sink.old) (K.text sink.new) text.now) }
    ensures cause { IsCause (K.faults sink.old) (K.faults sink.new)
        (IsErrOf result SinkError.Failed) }
    ensures steady { result ≢ Err SinkError.Failed → K.faults sink.new ≡ K.faults sink.old }
{
    let mut at = 0;
    while at < text.len() {
        at += sink.write(&text[at..])?;
    }
    Ok(())
}

//! The text of a fill, and its status.

ghost use Rattle.std.specs.Prelude.{◌≡◌, IfOk};
ghost use Rattle.qm_filling.specs.Says.{filled_text, filled_status, IsServed};

use crate::runs::{Filled, run_fill};
use qm_base::{ByteKey, ByteValue};
use qm_engine::{Answering, End};
use qm_fill::{Fill, Tally};
use qm_lines::{Sink, SinkError, write_all};
use qm_store::Store;
use std::alloc::{AllocError, Global};

// What is written, and the status when it is.
fn told(alloc: Global, counted: &Result<Tally, End>) -> Result<(Vec<u8>, u8), AllocError>
    ensures text { IfOk result (λ told. told.0.items ≡ filled_text counted.now) }
    ensures status { IfOk result (λ told. told.1 ≡ filled_status counted.now) }
{
    match counted {
        Ok(tally) => Ok((tally.summary(alloc)?, 0)),
        Err(End::Done | End::Memory) => Ok((Vec::new(alloc), 5)),
        Err(End::StoreFault) => {
            let text = String::from_str(alloc, "store fault\n")?;
            Ok((text.into_bytes(), 6))
        }
    }
}

/// Runs a fill over the store by databases of this kind, and writes its summary, or of a failed store `store fault` alone. It answers a
/// status: 0, every command has its reply; 4, the sink failed; 5, want of memory; 6, the store failed.
pub fn serve_fill<X: Answering<C, Key = ByteKey, Value = ByteValue>, C: Store, K: Sink>(
    alloc: Global,
    store: C,
    how: X::Opening,
    fill: Fill,
    sink: &mut K,
) -> (u8, C)
    ensures { IsServed X.scheme fill result.0 (C.told store) (C.told result.1) (C.faults store)
        (C.faults result.1) (K.text sink.old) (K.text sink.new) (K.faults sink.old)
        (K.faults sink.new) }
{
    let Filled { counted, store } = run_fill::<X, C>(alloc, store, how, fill);
    let (text, status) = match told(alloc, &counted) {
        Ok(told) => told,
        Err(_) => return (5, store),
    };
    match write_all(sink, &text) {
        Ok(()) => (status, store),
        Err(SinkError::Failed) => (4, store),
        Err(SinkError::Memory) => (5, store),
    }
}

//! A worker that asks, and goes on once it was told.

use crate::worker::Worker;
use qm_base::{ByteString, FixedBytes, Location, OpenGate};
use qm_crew::Turning;
use qm_index::unordered::Index;
use qm_index::{Factory, FourCap};
use std::alloc::{AllocError, Global};
use std::test::Fail;

type Own = Worker<Index<FourCap, Location<()>>, FixedBytes<8>>;

// Two keys with one index key.
fn key(alloc: Global, last: u8) -> Result<FixedBytes<8>, AllocError> {
    FixedBytes::from_bytes(alloc, &[1, 2, 3, 4, 0, 0, 0, last])
}

#[test]
fn a_worker_asks(rt: HostRuntime) -> Result<(), Fail> {
    let alloc = rt.alloc();
    let mut worker: Own = Worker::new(alloc, Index::new(alloc, FourCap), 0)?;
    worker.assign(0, key(alloc, 1)?, true)?;
    worker.assign(1, key(alloc, 2)?, true)?;
    worker.turn(&OpenGate, 0);
    // it knew its own keys of the round, and forgot them after it
    assert!(rt; worker.asked().is_none());
    assert!(rt; worker.live() == 2);
    assert!(rt; worker.places(alloc, 0)?.as_slice() == [0, 1].as_slice());
    worker.assign(2, key(alloc, 1)?, true)?;
    worker.assign(3, key(alloc, 2)?, false)?;
    worker.turn(&OpenGate, 0);
    assert!(rt; worker.asked() == Some(0));
    worker.tell(0, Some(key(alloc, 1)?))?;
    worker.turn(&OpenGate, 0);
    assert!(rt; worker.asked() == Some(1));
    worker.tell(1, Some(key(alloc, 2)?))?;
    worker.turn(&OpenGate, 0);
    assert!(rt; worker.asked().is_none());
    assert!(rt; worker.live() == 1);
    assert!(rt; worker.places(alloc, 1)?.as_slice() == [1].as_slice());
    assert!(rt; !worker.is_failed());
    Ok(())
}

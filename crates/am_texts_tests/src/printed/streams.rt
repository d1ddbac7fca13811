//! A source and a sink over those of std.

use am_io::{Sink, Source, StdSink, StdSource, give_all, take_all};

const TEXT: &[u8] = b"twenty bytes of text";

#[test]
fn reads_from_a_slice_and_writes_into_a_vector(rt: HostRuntime) {
    let mut source = StdSource::new(TEXT);
    assert!(rt; matches!(take_all(rt.alloc(), &mut source), Ok(bytes) if bytes.as_slice() == TEXT));
    assert!(rt; source.faults() == 0);
    let mut held = Vec::new(rt.alloc());
    let mut sink = StdSink::new(&mut held);
    assert!(rt; give_all(&mut sink, TEXT).is_ok());
    assert!(rt; sink.faults() == 0);
    let StdSink { .. } = sink;
    assert!(rt; held.as_slice() == TEXT);
}

//! Texts with segments: their faults.

use crate::readers::{Reader, try_rows};
use crate::segments::tables::{FAULTS, HEAD};
use am_lexer::What;

#[test]
fn texts_with_segments_have_their_faults(rt: HostRuntime) {
    try_rows(&rt, rt.alloc(), Reader::Segments, HEAD, FAULTS.as_slice());
    try_rows(
        &rt,
        rt.alloc(),
        Reader::Segments,
        "",
        &[("# nothing\n", 2, What::Missing)],
    );
}

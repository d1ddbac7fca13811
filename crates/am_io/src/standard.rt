//! Sources and sinks over the readers and writers of std.

ghost use Rattle.std.specs.Prelude.{◌≡◌, false};
ghost use Rattle.am_io.specs.Causes.{ReadCause, Reads, ShortageCause, WriteCause, Writes, exactly};
ghost use Rattle.am_io.specs.Standard.{faults_after};

use crate::memory_source::is_end;
use crate::sink::{Sink, SinkFault};
use crate::source::{Failed, Source};
use std::io::{Read, Write};
use std::marker::Model;

/// A source over any reader of std. It tells what the reader tells of its bytes, which for the real standard input is
/// nothing, and counts each read that fails.
#[derive(Drop)]
pub struct StdSource<R: Read> {
    inner: R,
    faults: u64,
    ended: bool,
}

impl<R: Read> Model for StdSource<R> {
    ghost use Rattle.am_io.specs.Standard.{Stream};

    ghost Value = { Stream };

    ghost view = { λ s. record { left = R.remaining s.inner; faults = s.faults; ended = s.ended } };
}

impl<R: Read> StdSource<R> {
    /// Over this reader, with no fault so far and not ended.
    pub fn new(inner: R) -> StdSource<R>
        ensures { result ≡ record { left = R.remaining inner; faults = 0; ended = false } }
    {
        StdSource {
            inner,
            faults: 0,
            ended: false,
        }
    }
}

impl<R: Read> Source for StdSource<R> {
    ghost left = { λ s. s.left };

    ghost has_ended = { λ s. s.ended };

    ghost count = { λ s. exactly s.faults };

    fn faults(&self) -> u64 {
        self.faults
    }

    fn read(&mut self, buf: &mut [u8]) -> Result<usize, Failed>
        requires { self.old.ended ≡ false }
        ensures bytes { Reads result self.old.left self.new.left self.old.ended self.new.ended buf.new }
        ensures cause { ReadCause result (exactly self.old.faults) (exactly self.new.faults) }
        ensures counted { self.new.faults ≡ faults_after result self.old.faults }
    {
        match self.inner.read(buf) {
            Ok(count) => {
                self.ended = is_end(count, buf.len());
                Ok(count)
            }
            Err(_) => {
                self.faults = self.faults.saturating_add(1);
                Err(Failed)
            }
        }
    }
}

/// A sink over any writer of std. It tells what the writer tells of what it holds, which for the real standard output
/// is nothing, and counts each write that fails or takes no byte of a piece that has one. A writer's want of memory is a fault
/// like any other.
#[derive(Drop)]
pub struct StdSink<W: Write> {
    inner: W,
    faults: u64,
}

impl<W: Write> Model for StdSink<W> {
    ghost use Rattle.am_io.specs.Standard.{Drain};

    ghost Value = { Drain };

    ghost view = { λ s. record { held = W.contents s.inner; faults = s.faults } };
}

impl<W: Write> StdSink<W> {
    /// Over this writer, with no fault so far.
    pub fn new(inner: W) -> StdSink<W>
        ensures { result ≡ record { held = W.contents inner; faults = 0 } }
    {
        StdSink { inner, faults: 0 }
    }
}

impl<W: Write> Sink for StdSink<W> {
    ghost held = { λ s. s.held };

    ghost count = { λ s. exactly s.faults };

    ghost shortages = { λ s. exactly 0 };

    fn faults(&self) -> u64 {
        self.faults
    }

    fn write(&mut self, piece: &[u8]) -> Result<usize, SinkFault>
        ensures bytes { Writes result self.old.held self.new.held piece.now }
        ensures cause { WriteCause result (exactly self.old.faults) (exactly self.new.faults) }
        ensures shortage { ShortageCause result (exactly 0) (exactly 0) }
        ensures counted { self.new.faults ≡ faults_after result self.old.faults }
    {
        match self.inner.write(piece) {
            Ok(count) if count > 0 || piece.is_empty() => Ok(count),
            _ => {
                self.faults = self.faults.saturating_add(1);
                Err(SinkFault::Failed)
            }
        }
    }
}

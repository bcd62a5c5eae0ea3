//! The program's edge: a source over any reader and a sink over any writer, as standard input and
//! output are.
ghost use Rattle.std.specs.Prelude.{◌≡◌};

use crate::outside::{Failed, Sink, Source};
use std::io::{Read, Write};

/// A source over a reader. Each error of the reader is a fault.
#[derive(Debug, Drop)]
pub struct Reading<R> {
    inner: R,
    faults: u64,
}

impl<R: Read> Reading<R> {
    ghost use Rattle.vi_commands.specs.Standard.{reader_of, reader_faults};

    /// A source over this reader, with no fault yet.
    pub fn new(inner: R) -> Reading<R>
        ensures reader { reader_of result ≡ inner }
        ensures no_fault { reader_faults result ≡ 0 }
    {
        Reading { inner, faults: 0 }
    }
}

impl<R: Read> Source for Reading<R> {
    ghost left = { λ source. R.remaining source.inner };

    ghost faults = { λ source. source.faults };

    fn read(&mut self, buf: &mut [u8]) -> Result<usize, Failed> {
        match self.inner.read(buf) {
            Ok(count) => Ok(count),
            Err(_) => {
                self.faults = self.faults.saturating_add(1);
                Err(Failed)
            }
        }
    }
}

/// A sink over a writer. Each error of the writer is a fault, and so is a write of some bytes of
/// which it takes none.
#[derive(Debug, Drop)]
pub struct Writing<W> {
    inner: W,
    faults: u64,
}

impl<W: Write> Writing<W> {
    ghost use Rattle.vi_commands.specs.Standard.{writer_of, writer_faults};

    /// A sink over this writer, with no fault yet.
    pub fn new(inner: W) -> Writing<W>
        ensures writer { writer_of result ≡ inner }
        ensures no_fault { writer_faults result ≡ 0 }
    {
        Writing { inner, faults: 0 }
    }
}

impl<W: Write> Sink for Writing<W> {
    ghost taken = { λ sink. W.contents sink.inner };

    ghost faults = { λ sink. sink.faults };

    fn write(&mut self, piece: &[u8]) -> Result<usize, Failed> {
        match self.inner.write(piece) {
            Ok(count) if count > 0 || piece.is_empty() => Ok(count),
            _ => {
                self.faults = self.faults.saturating_add(1);
                Err(Failed)
            }
        }
    }
}

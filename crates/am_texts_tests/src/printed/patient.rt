//! A source that counts more than the reads that failed.

ghost use Rattle.std.specs.Prelude.{Some};

use am_io::{Failed, MemorySource, Source, take_all};

/// Tries a read that failed once more by itself. It tells of both, and has failed where both did.
#[derive(Drop)]
struct Patient {
    inner: MemorySource,
    told: u64,
    failures: u64,
}

impl Source for Patient {
    ghost left = { λ s. Some s.inner.left };

    ghost has_ended = { λ s. s.inner.ended };

    ghost count = { λ s. record { told = s.told; met = s.failures } };

    fn faults(&self) -> u64 {
        self.told
    }

    fn read(&mut self, buf: &mut [u8]) -> Result<usize, Failed> {
        match self.inner.read(buf) {
            Ok(count) => return Ok(count),
            Err(Failed) => self.told = self.told.saturating_add(1),
        }
        match self.inner.read(buf) {
            Ok(count) => Ok(count),
            Err(Failed) => {
                self.told = self.told.saturating_add(1);
                self.failures = self.failures.saturating_add(1);
                Err(Failed)
            }
        }
    }
}

/// The second read fails, and where the third does too, that is the end.
#[test]
fn a_read_is_tried_again(rt: HostRuntime) {
    for (fails, faults, is_read) in [([2, 9], 1, true), ([2, 3], 2, false)] {
        let bytes = Vec::from_slice(rt.alloc(), b"twenty bytes of text").expect(
            &rt,
            "ample memory",
        );
        let fails = Vec::from_slice(rt.alloc(), &fails).expect(&rt, "ample memory");
        let mut source = Patient {
            inner: MemorySource::new(bytes, 7, fails),
            told: 0,
            failures: 0,
        };
        assert!(rt; take_all(rt.alloc(), &mut source).is_ok() == is_read);
        assert!(rt; source.faults() == faults);
        assert!(rt; source.failures == u64::from(!is_read));
    }
}

ghost use Rattle.std.specs.Prelude.{◌≡◌, ◌<◌, ◌≤◌, [], length, IfOk, OnErr, Some, None, option_map, option_copied};
ghost use Rattle.std.specs.Io.KnownBytes.{ReadConsumes};
ghost use Rattle.apl_io.specs.Faults.{Rose};
ghost use Rattle.aplsv_devices.specs.Kept.{KeepsRead};

use crate::kept::kept_with;
use apl_io::{Failed, Source};
use std::alloc::Global;
use std::io::Read;

/// A source that reads what a reader of the library gives. A call that fails counts as a fault, an interrupted one
/// too. It keeps what it gave, as long as that is no more than a bundle may have.
#[derive(Drop)]
pub struct StdSource<R> {
    inner: R,
    faults: u64,
    kept: Option<Vec<u8>>,
}

impl<R> StdSource<R> {
    ghost use Rattle.aplsv_devices.specs.Source.{source_bytes};

    /// A source over a reader, which has not failed and gave nothing yet.
    pub fn new(alloc: Global, inner: R) -> Self
        ensures inner { result.inner ≡ inner }
        ensures faults { result.faults ≡ 0 }
        ensures kept { source_bytes result ≡ Some [] }
    {
        StdSource {
            inner,
            faults: 0,
            kept: Some(Vec::new(alloc)),
        }
    }

    /// All that it gave; `None` where that is more than a bundle may have, or where memory for it ran out.
    pub fn kept(&self) -> Option<&[u8]>
        ensures { option_map (λ bytes. bytes.now) result ≡ source_bytes self.now }
    {
        match &self.kept {
            Some(bytes) => Some(bytes.as_slice()),
            None => None,
        }
    }
}

impl<R: Read> Source for StdSource<R> {
    ghost use Rattle.aplsv_devices.specs.Source.{source_bytes};

    ghost left = { λ s. R.remaining s.inner };

    ghost faults = { λ s. s.faults };

    fn faults(&self) -> u64 {
        self.faults
    }

    fn read(&mut self, into: &mut [u8]) -> Result<usize, Failed>
        requires { 0 < length into.old }
        ensures count { IfOk result (λ count. count ≤ length into.new) }
        ensures bytes { ReadConsumes (R.remaining self.old.inner) (R.remaining self.new.inner) result into.new }
        ensures counted { self.old.faults ≤ self.new.faults }
        ensures cause { OnErr result (Rose self.old.faults self.new.faults) }

        // What it gave stands behind what it kept.
        ensures kept { KeepsRead (source_bytes self.old) result into.new (source_bytes self.new) }
    {
        match self.inner.read(into) {
            Ok(count) => {
                self.kept = kept_with(self.kept.take(), &into[..count]);
                Ok(count)
            }
            Err(_) => {
                self.faults = self.faults.saturating_add(1);
                Err(Failed)
            }
        }
    }
}

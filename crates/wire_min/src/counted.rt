//! A reader or a writer with a count of its failures.
ghost use Rattle.std.specs.Prelude.{◌≡◌};
ghost use Rattle.std.specs.Io.{ReadsAtMost, WritesAtMost};
ghost use Rattle.std.specs.Io.KnownBytes.{Keeps, ReadConsumes, WriteAppends};

use std::io;
use std::io::{Read, Write};

/// A reader or a writer, and how many of its calls failed. The count stays at `u64::MAX` once
/// there.
#[derive(Drop)]
pub struct Counted<D> {
    device: D,
    failures: u64,
}

impl<D> Counted<D> {
    ghost use Rattle.wire_min.specs.Counted.{device_of, failures_of, one_more};

    /// The device with no failure yet.
    pub fn new(device: D) -> Counted<D>
        ensures device { device_of result ≡ device }
        ensures failures { failures_of result ≡ 0 }
    {
        Counted {
            device,
            failures: 0,
        }
    }

    /// How many calls failed: those that answered an error, and the writes that took 0 bytes.
    pub fn failures(&self) -> u64
        ensures { result ≡ failures_of self.now }
    {
        self.failures
    }

    fn count_failure(&mut self)
        ensures device { device_of self.new ≡ device_of self.old }
        ensures failures { failures_of self.new ≡ one_more (failures_of self.old) }
    {
        self.failures = self.failures.saturating_add(1);
    }
}

impl<R: Read> Counted<R> {
    ghost use Rattle.wire_min.specs.Counted.{device_of, failures_of, after_call};

    /// One read of the device, whose error is answered and counted.
    pub fn read(&mut self, buf: &mut [u8]) -> io::Result<usize>
        ensures bound { ReadsAtMost result buf.new }
        ensures bytes { ReadConsumes (R.remaining (device_of self.old))
            (R.remaining (device_of self.new)) result buf.new }
        ensures failures { failures_of self.new ≡ after_call result (failures_of self.old) }
    {
        let result = self.device.read(buf);
        if result.is_err() {
            self.count_failure();
        }
        result
    }
}

impl<W: Write> Counted<W> {
    ghost use Rattle.wire_min.specs.Counted.{device_of, failures_of, after_call, after_write};

    /// One write to the device, whose error is answered and counted; 0 bytes taken are counted too.
    pub fn write(&mut self, buf: &[u8]) -> io::Result<usize>
        ensures bound { WritesAtMost result buf.now }
        ensures bytes { WriteAppends (W.contents (device_of self.old))
            (W.contents (device_of self.new)) result buf.now }
        ensures failures { failures_of self.new ≡ after_write result (failures_of self.old) }
    {
        let result = self.device.write(buf);
        if !matches!(result, Ok(1..)) {
            self.count_failure();
        }
        result
    }

    /// One flush of the device, whose error is answered and counted.
    pub fn flush(&mut self) -> io::Result<()>
        ensures bytes { Keeps (W.contents (device_of self.old)) (W.contents (device_of self.new)) }
        ensures failures { failures_of self.new ≡ after_call result (failures_of self.old) }
    {
        let result = self.device.flush();
        if result.is_err() {
            self.count_failure();
        }
        result
    }
}

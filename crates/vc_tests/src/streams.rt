//! Streams that fail, that have no end, or that give very much.
use std::io::{Error, Read, Result, Write};

/// Gives one byte a read, and fails at the read of that number.
#[derive(Drop)]
pub(crate) struct Failing<'a> {
    pub(crate) rest: &'a [u8],
    pub(crate) reads_left: usize,
}

impl Read for Failing<'_> {
    fn read(&mut self, buf: &mut [u8]) -> Result<usize> {
        if self.reads_left == 0 {
            return Err(Error::from_raw_os_error(5));
        }
        self.reads_left -= 1;
        match self.rest.split_first() {
            Some((byte, rest)) if !buf.is_empty() => {
                buf[0] = *byte;
                self.rest = rest;
                Ok(1)
            }
            _ => Ok(0),
        }
    }
}

/// Gives a space a read, counts the reads, and ends at the read of that number.
#[derive(Drop)]
pub(crate) struct Spaces {
    pub(crate) reads: u32,
    pub(crate) last: u32,
}

impl Read for Spaces {
    fn read(&mut self, buf: &mut [u8]) -> Result<usize> {
        self.reads = self.reads.saturating_add(1);
        if self.reads == self.last || buf.is_empty() {
            return Ok(0);
        }
        buf[0] = b' ';
        Ok(1)
    }
}

/// Gives a text, and after it so many spaces, as many at a read as it may.
#[derive(Drop)]
pub(crate) struct Padded<'a> {
    pub(crate) text: &'a [u8],
    pub(crate) spaces: usize,
}

impl Read for Padded<'_> {
    fn read(&mut self, buf: &mut [u8]) -> Result<usize> {
        let given = self.text.read(buf)?;
        if given > 0 {
            return Ok(given);
        }
        let given = self.spaces.min(buf.len());
        buf[..given].fill(b' ');
        self.spaces -= given;
        Ok(given)
    }
}

/// Takes one byte a call, and at the call of that number fails or takes none.
#[derive(Drop)]
pub(crate) struct Stubborn {
    pub(crate) taken: Vec<u8>,
    pub(crate) calls_left: usize,
    pub(crate) fails: bool,
}

impl Write for Stubborn {
    fn write(&mut self, buf: &[u8]) -> Result<usize> {
        match buf.first() {
            Some(byte) if self.calls_left > 0 => {
                self.calls_left -= 1;
                self.taken.push(*byte)?;
                Ok(1)
            }
            _ if self.fails => Err(Error::from_raw_os_error(5)),
            _ => Ok(0),
        }
    }

    fn flush(&mut self) -> Result<()> {
        Ok(())
    }
}

/// Keeps up to 256 bytes without memory, and takes one byte a call.
#[derive(Drop)]
pub(crate) struct Kept {
    pub(crate) bytes: [u8; 256],
    pub(crate) len: usize,
}

impl Kept {
    pub(crate) fn new() -> Kept {
        Kept {
            bytes: [0; 256],
            len: 0,
        }
    }

    /// What was written.
    pub(crate) fn written(&self) -> &[u8] {
        self.bytes.get(..self.len).unwrap_or(&[])
    }
}

impl Write for Kept {
    fn write(&mut self, buf: &[u8]) -> Result<usize> {
        match (buf.first(), self.bytes.get_mut(self.len)) {
            (Some(byte), Some(place)) => {
                *place = *byte;
                self.len = self.len.saturating_add(1);
                Ok(1)
            }
            _ => Ok(0),
        }
    }

    fn flush(&mut self) -> Result<()> {
        Ok(())
    }
}

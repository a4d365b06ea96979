// What a program reads: a file, or standard input.
use std::fs::File;
use std::io;
use std::io::{Read, Stdin};
use std::os::fd::{AsRawFd, RawFd};

#[derive(Drop)]
pub enum Reader {
    Standard(Stdin),
    File(File),
}

impl Reader {
    // The system's number of it.
    pub fn descriptor(&self) -> RawFd {
        match self {
            Reader::Standard(input) => input.as_raw_fd(),
            Reader::File(file) => file.as_raw_fd(),
        }
    }
}

impl Read for Reader {
    fn read(&mut self, bytes: &mut [u8]) -> io::Result<usize> {
        match self {
            Reader::Standard(input) => input.read(bytes),
            Reader::File(file) => file.read(bytes),
        }
    }
}

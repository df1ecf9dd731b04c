// An open file: how many bytes it has, or why it is not read.
use std::io;
use std::io::{ErrorKind, Read, Seek, SeekFrom};

// The most bytes that are read of a file.
pub(crate) const MOST: usize = 4194304;

#[derive(Clone, Copy)]
pub(crate) enum Unread {
    Unopened,
    Directory,
    NoFile,
    TooLarge,
    NotWhole,
}

// A pipe or a terminal has no positions. Its bytes are not touched.
fn has_positions(file: &mut impl Seek) -> bool {
    file.seek(SeekFrom::Current(0)).is_ok()
}

// A directory can be opened, and not read.
fn can_be_read(file: &mut impl Read) -> io::Result<usize> {
    file.read(&mut [0u8; 1])
}

fn unreadable(error: io::Error) -> Unread {
    if error.kind() == ErrorKind::IsADirectory {
        return Unread::Directory;
    }
    Unread::NotWhole
}

// The number of bytes, and the position back at the first of them.
fn sized(file: &mut impl Seek) -> Result<usize, Unread> {
    let Ok(size) = file.seek(SeekFrom::End(0)) else {
        return Err(Unread::NotWhole);
    };
    if size > MOST as u64 {
        return Err(Unread::TooLarge);
    }
    match file.seek(SeekFrom::Start(0)) {
        Ok(0) => Ok(size as usize),
        _ => Err(Unread::NotWhole),
    }
}

pub(crate) fn of<F: Read + Seek>(file: &mut F) -> Result<usize, Unread> {
    if !has_positions(file) {
        return Err(Unread::NoFile);
    }
    if let Err(error) = can_be_read(file) {
        return Err(unreadable(error));
    }
    sized(file)
}

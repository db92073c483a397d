// Reading and writing the files that a command names.
use crate::failure::Failure;
use std::fs::File;
use std::io::{Read, Write};
use std::rt::Files;
use std::{fs, io};

// The bytes of a file, and one more than `most` where it is longer: enough to tell.
pub fn read_up_to<R: Files + Alloc>(rt: &R, path: &str, most: usize) -> io::Result<Vec<u8, R::A>> {
    let mut bytes = Vec::new(rt.alloc());
    let file = File::open(rt, path)?;
    let mut front = file.take((most as u64).saturating_add(1));
    front.read_to_end(&mut bytes)?;
    Ok(bytes)
}

// The same, where a failure is the file's.
pub(crate) fn read<'a>(
    rt: &HostRuntime,
    path: &'a str,
    most: usize,
) -> Result<Vec<u8>, Failure<'a>> {
    read_up_to(rt, path, most).map_err(|error| Failure::File { path, error })
}

// Writes a new file, and leaves none that is half written.
pub(crate) fn write_whole<'a>(
    rt: &HostRuntime,
    path: &'a str,
    bytes: &[u8],
) -> Result<(), Failure<'a>> {
    let mut file = File::create(rt, path).map_err(|error| Failure::File { path, error })?;
    if let Err(error) = file.write_all(bytes) {
        let _ = fs::remove_file(rt, path);
        return Err(Failure::File { path, error });
    }
    Ok(())
}

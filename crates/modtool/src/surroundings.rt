//! The words and the environment of the process.
use bz_base::{EnvPair, EnvTable, Mem, OutOfMemory, Seq, Txt};
use std::env;
use std::env::{Env, FillError};
use std::io::ErrorKind;

/// The words behind the program's name. Where one of them isn't UTF-8 they spell no command, and
/// none are given.
pub fn words<R: Env + AllocGlobal>(rt: &R) -> Mem<Vec<String>> {
    let mut words = Vec::new(rt.alloc());
    match env::args(rt) {
        Ok(args) => {
            for word in args.skip(1) {
                words.push(word)?;
            }
            Ok(words)
        }
        Err(error) if error.kind() == ErrorKind::OutOfMemory => Err(OutOfMemory),
        Err(_) => Ok(words),
    }
}

/// The environment's variables that are UTF-8, in the process's order, on Linux and amd64.
pub fn environment<R: Env + AllocGlobal>(rt: &R) -> Mem<EnvTable> {
    let mut pairs = Vec::new(rt.alloc());
    for place in 0..usize::MAX {
        match entry(rt, place)? {
            None => break,
            Some(entry) => {
                if let Some(pair) = pair(rt, &entry)? {
                    pairs.push(pair)?;
                }
            }
        }
    }
    Ok(EnvTable {
        pairs: Seq::of_vec(pairs),
        os: Txt::of(rt.alloc(), "linux")?,
        arch: Txt::of(rt.alloc(), "amd64")?,
    })
}

/// The bytes of the entry at a place, in a buffer that doubles until they fit.
fn entry<R: Env + AllocGlobal>(rt: &R, place: usize) -> Mem<Option<Vec<u8>>> {
    let mut size = 256usize;
    for _ in 0..usize::BITS {
        let mut buffer = vec![in rt.alloc(); 0u8; size]?;
        match rt.var_at(place, &mut buffer) {
            Ok(length) => {
                buffer.truncate(length);
                return Ok(Some(buffer));
            }
            Err(FillError::NotPresent) => return Ok(None),
            Err(FillError::TooLong) => size = size.saturating_mul(2),
        }
    }
    Err(OutOfMemory)
}

fn pair<R: AllocGlobal>(rt: &R, entry: &Vec<u8>) -> Mem<Option<EnvPair>> {
    let Ok(text) = str::from_utf8(entry) else {
        return Ok(None);
    };
    match text.split_once('=') {
        None => Ok(None),
        Some((name, value)) => Ok(Some(EnvPair {
            name: Txt::of(rt.alloc(), name)?,
            value: Txt::of(rt.alloc(), value)?,
        })),
    }
}

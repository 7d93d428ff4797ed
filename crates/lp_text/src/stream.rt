ghost use Rattle.std.specs.Prelude.{◌≡◌, ◌≤◌, IfOk, IfErr, vec_len};
ghost use Rattle.lp_text.specs.Streams.{ReadsWhole, ReadsOpened, Puts, PutsOpened};

use crate::shelf::{LIMIT, ShelfFault};
use std::alloc::Global;
use std::fs::OpenFile;
use std::io::{self, ErrorKind, Read, Write};

/// All bytes of a file that was to be opened for reading.
pub(crate) fn read_opened<R: Read + OpenFile + Drop>(
    opened: io::Result<R>,
    alloc: Global,
) -> Result<Vec<u8>, ShelfFault>
    ensures limit { IfOk result (λ v. vec_len v ≤ LIMIT) }
    ensures contents { ReadsOpened (λ v. v.items) R.remaining opened result }
{
    let file = opened.map_err(|_| ShelfFault::Failed)?;
    let expected = file.metadata().map_or(0, |data| data.len());
    read_whole(file, expected, alloc)
}

/// All bytes of a reader, with room made for those expected. It reads no further than one byte
/// after the limit, so a file that grows or never ends is too long.
fn read_whole<R: Read + Drop>(
    reader: R,
    expected: u64,
    alloc: Global,
) -> Result<Vec<u8>, ShelfFault>
    ensures limit { IfOk result (λ v. vec_len v ≤ LIMIT) }
    ensures contents { ReadsWhole (λ v. v.items) (R.remaining reader) result }
{
    let mut bytes = Vec::new(alloc);
    let room = expected.min(LIMIT as u64) as usize + 1;
    bytes.reserve(room).map_err(|_| ShelfFault::NoMemory)?;
    match reader.take(LIMIT as u64 + 1).read_to_end(&mut bytes) {
        Ok(_) if bytes.len() > LIMIT => Err(ShelfFault::TooLong),
        Ok(_) => Ok(bytes),
        Err(error) if error.kind() == ErrorKind::OutOfMemory => Err(ShelfFault::NoMemory),
        Err(_) => Err(ShelfFault::Failed),
    }
}

/// Hands all bytes to a file that was to be opened for writing.
pub(crate) fn put_opened<W: Write>(
    opened: &mut io::Result<W>,
    bytes: &[u8],
) -> Result<(), ShelfFault>
    ensures contents { PutsOpened W.contents result opened.old opened.new bytes.now }
    ensures cause { IfErr result (λ e. e ≡ ShelfFault.Failed) }
{
    match opened {
        Ok(file) => put(file, bytes),
        Err(_) => Err(ShelfFault::Failed),
    }
}

/// Hands all bytes on in order, and flushes them. A writer that takes nothing of what is left
/// fails. After a failure a prefix was handed on.
pub(crate) fn put<W: Write>(writer: &mut W, bytes: &[u8]) -> Result<(), ShelfFault>
    ensures contents { Puts result (W.contents writer.old) (W.contents writer.new) bytes.now }
    ensures cause { IfErr result (λ e. e ≡ ShelfFault.Failed) }
{
    let mut done = 0;
    for _turn in 0..u64::MAX {
        if done == bytes.len() {
            return writer.flush().map_err(|_| ShelfFault::Failed);
        }
        match writer.write(&bytes[done..]) {
            Ok(0) => return Err(ShelfFault::Failed),
            Ok(taken) => done += taken,
            Err(error) if error.kind() == ErrorKind::Interrupted => {}
            Err(_) => return Err(ShelfFault::Failed),
        }
    }
    Err(ShelfFault::Failed)
}

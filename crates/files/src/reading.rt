//! Reading to the end.
ghost use Rattle.std.specs.Prelude.{◌≡◌, ◌≢◌, IfOk, IfSome};
ghost use Rattle.std.specs.IoError.{error_kind};

use crate::{FileFault, ReadFault};
use std::alloc::Global;
use std::io;
use std::io::{ErrorKind, Read};

/// All bytes that a reader has left. Where a read fails none are answered, however many came before.
///
/// Faults: `Refused` where a read fails; `Memory`.
pub fn read_whole<T: Read>(alloc: Global, reader: &mut T) -> Result<Vec<u8>, ReadFault>
    ensures whole { IfOk result (λ bytes. IfSome (T.remaining reader.old) (λ left. bytes.items ≡ left)) }
{
    let mut bytes = Vec::new(alloc);
    match reader.read_to_end(&mut bytes) {
        Ok(_) => Ok(bytes),
        Err(error) => Err(read_fault(&error)),
    }
}

/// What an error of the system means for a file that was to be read.
pub(crate) fn read_fault(error: &io::Error) -> ReadFault
    ensures memory { error_kind error.now ≡ ErrorKind.OutOfMemory → result ≡ ReadFault.Memory }
    ensures absent { error_kind error.now ≡ ErrorKind.NotFound → result ≡ ReadFault.Absent }
    ensures refused { error_kind error.now ≢ ErrorKind.OutOfMemory → error_kind error.now ≢ ErrorKind.NotFound → result ≡ ReadFault.Refused }
{
    match error.kind() {
        ErrorKind::OutOfMemory => ReadFault::Memory,
        ErrorKind::NotFound => ReadFault::Absent,
        _ => ReadFault::Refused,
    }
}

/// What an error of the system means for a file that was to be made.
pub(crate) fn fault_of(error: &io::Error) -> FileFault
    ensures memory { error_kind error.now ≡ ErrorKind.OutOfMemory → result ≡ FileFault.Memory }
    ensures refused { error_kind error.now ≢ ErrorKind.OutOfMemory → result ≡ FileFault.Refused }
{
    match error.kind() {
        ErrorKind::OutOfMemory => FileFault::Memory,
        _ => FileFault::Refused,
    }
}

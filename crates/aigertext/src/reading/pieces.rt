//! Reading a source piece by piece behind bytes that are held.
ghost use Rattle.std.specs.Prelude.{◌≡◌, ◌<◌, ◌≤◌, true, false, length, drop, Ok, OnOk, IsErrOf};
ghost use Rattle.std.specs.Io.KnownBytes.{prepend_known, Keeps, IsAtEnd};
ghost use Rattle.base.specs.Device.{HasRisen};

use base::{DeviceFault, ReadAllFault, Source};

/// How many bytes one call of a source is asked for.
pub(crate) const PIECE: usize = 65536;

/// Reads a piece of a source, in its place, behind some bytes, and answers whether there was one; there is none at the end.
pub fn read_piece<S: Source>(
    bytes: &mut Vec<u8>,
    piece: &mut [u8; PIECE],
    source: &mut S,
) -> Result<bool, ReadAllFault>
    ensures bytes { OnOk result (Keeps (prepend_known bytes.old.items (S.to_come source.old))
        (prepend_known bytes.new.items (S.to_come source.new))) }
    ensures end { result ≡ Ok false → IsAtEnd (S.to_come source.new) }
    ensures ends { result ≡ Ok true → S.calls_left source.new < S.calls_left source.old }
    ensures counted { OnOk result (S.failures source.new ≡ S.failures source.old) }
    ensures device { IsErrOf result ReadAllFault.Device
        → HasRisen (S.failures source.old) (S.failures source.new) }
    ensures memory { IsErrOf result ReadAllFault.NoMemory → S.failures source.new
        ≡ S.failures source.old }
{
    match source.read(piece) {
        Err(DeviceFault::Failed) => Err(ReadAllFault::Device),
        Ok(count) => match bytes.extend_from_slice(&piece[..count]) {
            Ok(()) => Ok(count > 0),
            Err(_) => Err(ReadAllFault::NoMemory),
        },
    }
}

/// Reads all that a source has left behind some bytes.
pub fn read_rest<S: Source>(bytes: &mut Vec<u8>, source: &mut S) -> Result<(), ReadAllFault>
    ensures bytes { OnOk result (Keeps (prepend_known bytes.old.items (S.to_come source.old))
        (prepend_known bytes.new.items (S.to_come source.new))) }
    ensures end { OnOk result (IsAtEnd (S.to_come source.new)) }
    ensures counted { OnOk result (S.failures source.new ≡ S.failures source.old) }
    ensures device { IsErrOf result ReadAllFault.Device
        → HasRisen (S.failures source.old) (S.failures source.new) }
    ensures memory { IsErrOf result ReadAllFault.NoMemory → S.failures source.new
        ≡ S.failures source.old }
{
    let mut piece = [0u8; PIECE];
    while read_piece(bytes, &mut piece, source)? {}
    Ok(())
}

/// Drops the first n bytes of a buffer.
pub fn remove_front(bytes: &mut Vec<u8>, n: usize)
    requires { n ≤ length bytes.old.items }
    ensures { bytes.new.items ≡ drop n bytes.old.items }
{
    let len = bytes.len();
    bytes.as_mut_slice().copy_within(n..len, 0);
    bytes.truncate(len - n);
}

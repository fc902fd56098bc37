//! Copies bytes into a caller's buffer.
ghost use Rattle.std.specs.Prelude.{◌≡◌};
ghost use Rattle.wit_ffi.specs.Room.{laid_over};

/// Copies bytes over the beginning of others, as far as they fit.
pub(crate) fn lay(room: &mut [u8], bytes: &[u8])
    ensures { room.new ≡ laid_over room.old bytes.now }
{
    if bytes.len() <= room.len() {
        let (prefix, _) = room.split_at_mut(bytes.len());
        prefix.copy_from_slice(bytes);
    } else {
        let most = room.len();
        room.copy_from_slice(&bytes[..most]);
    }
}

// Bytes with zeros behind them.
ghost use Rattle.std.specs.Prelude.{◌≡◌, ◌≤◌, ◌-◌, ◌++◌, length, replicate};

use crate::piece::MAX_PIECE_LEN;

/// The bytes, and zeros up to 64 bytes.
pub(crate) fn with_zeros(bytes: &[u8]) -> [u8; MAX_PIECE_LEN]
    requires { length bytes.now ≤ MAX_PIECE_LEN }
    ensures { result ≡ bytes.now ++ replicate (MAX_PIECE_LEN - length bytes.now) 0 }
{
    let mut all = [0; MAX_PIECE_LEN];
    all[..bytes.len()].copy_from_slice(bytes);
    all
}

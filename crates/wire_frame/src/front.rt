// The front of a stream of items.
ghost use Rattle.std.specs.Prelude.{◌≡◌, IfOk, IfSome, IfErr, Ok, None};
ghost use Rattle.wire_frame.specs.Stream.{IsFront, IsPartial, IsTooLong};

use svc_value::limits::MAX_FRAME_LEN;
/// The length in front is above that of the longest item.
#[derive(Clone, Copy)]
pub(crate) struct TooLong;

/// The item in front of `bytes`, which are a stream from the length of an item on; None where they end before it does.
pub(crate) fn front_item(bytes: &[u8]) -> Result<Option<&[u8]>, TooLong>
    ensures item { IfOk result (λ found. IfSome found (λ item. IsFront bytes.now item.now)) }
    ensures none { result ≡ Ok None → IsPartial bytes.now }
    ensures too_long { IfErr result (λ _. IsTooLong bytes.now) }
{
    let [high, low, rest @ ..] = bytes else {
        return Ok(None);
    };
    let size = usize::from(*high) * 256 + usize::from(*low);
    if MAX_FRAME_LEN < size {
        return Err(TooLong);
    }
    if rest.len() < size {
        return Ok(None);
    }
    Ok(Some(&rest[..size]))
}

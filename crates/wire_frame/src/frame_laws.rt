// Laws of frames and their bytes.
ghost use Rattle.std.specs.Prelude.{◌≤◌, length, ◌≡◌, ◌++◌, ℕ, List};
ghost use Rattle.wire_frame.specs.declared.frame.Frame.{Frame as AnyFrame};
ghost use Rattle.wire_frame.specs.Frames.{FrameOf};
ghost use Rattle.wire_frame.specs.Framing.{Unread, IsAnswered, IsWrongNext};
ghost use Rattle.propagation.specs.Logs.{Frame as TheoryFrame};
ghost use Rattle.svc_value.specs.declared.value.Value.{Value};
ghost use Rattle.wire_frame.specs.Message.{IsMessage};
ghost use Rattle.wire_frame.specs.Stream.{IsPartial};
ghost use Rattle.wire_frame.specs.Taking.{IsAtFront, IsBadFrame};
ghost use Rattle.wire_frame.specs.declared.reason.FrameReason.{FrameReason};

use svc_value::limits::MAX_FRAME_LEN;

/// A frame has one list of bytes, no two frames have the same, and none begins another.
pub fn frames_are_told()
    ensures one { (frame : AnyFrame) (a b : List ℕ) → FrameOf frame a → FrameOf frame b → a ≡ b }
    ensures same { (f g : AnyFrame) (bytes : List ℕ) → FrameOf f bytes → FrameOf g bytes → f ≡ g }
    ensures apart { (f g : AnyFrame) (a b x y : List ℕ) → FrameOf f a → FrameOf g b → a ++ x ≡ b ++ y →
        (f ≡ g) × (a ≡ b) × (x ≡ y) }
{}

/// A frame has at most 585 bytes.
pub fn frames_are_short()
    ensures { (frame : AnyFrame) (bytes : List ℕ) → FrameOf frame bytes → length bytes ≤ MAX_FRAME_LEN }
{}

/// The frame in front of some bytes is the only one, and there is none where the bytes are bad; bad bytes have one place
/// and one reason.
pub fn fronts_are_told()
    ensures one { (bytes : List ℕ) (f g : AnyFrame) (m n : ℕ) → IsAtFront bytes f m → IsAtFront bytes g n →
        (f ≡ g) × (m ≡ n) }
    ensures place { (bytes : List ℕ) (m n : ℕ) (why other : FrameReason) → IsBadFrame bytes m why →
        IsBadFrame bytes n other → (m ≡ n) × (why ≡ other) }
    ensures none { (bytes : List ℕ) (frame : AnyFrame) (n place : ℕ) (why : FrameReason) → IsAtFront bytes frame n →
        ¬ (IsBadFrame bytes place why) }
{}

/// The next frame of a stream is wrong in one way, and stays so as the stream goes on; it is then neither a frame that can
/// be answered nor one that has not wholly come.
pub fn wrong_frames_stay()
    ensures one { (held : List ℕ) (m n : ℕ) (why other : FrameReason) → IsWrongNext held m why →
        IsWrongNext held n other → (m ≡ n) × (why ≡ other) }
    ensures stays { (held more : List ℕ) (place : ℕ) (why : FrameReason) → IsWrongNext held place why →
        IsWrongNext (held ++ more) place why }
    ensures none { (old new : Unread) (frame : AnyFrame) (place : ℕ) (why : FrameReason) → IsAnswered old new frame →
        ¬ (IsWrongNext old.held place why) }
    ensures whole { (held : List ℕ) (place : ℕ) (why : FrameReason) → IsWrongNext held place why →
        ¬ (IsPartial held) }
{}

/// The bytes of a frame are one message at most, and a message has one list of bytes.
pub fn messages_are_told()
    ensures message { (bytes : List ℕ) (m n : TheoryFrame Value) → IsMessage bytes m → IsMessage bytes n → m ≡ n }
    ensures bytes { (a b : List ℕ) (m : TheoryFrame Value) → IsMessage a m → IsMessage b m → a ≡ b }
{}

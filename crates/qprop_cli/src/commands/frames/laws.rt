// A law of streams of frames.
ghost use Rattle.std.specs.Prelude.{◌≡◌, ℕ, List};
ghost use Rattle.document_reading.specs.declared.refusal.Refusal.{Refusal};
ghost use Rattle.wire_frame.specs.declared.frame.Frame.{Frame};
ghost use Rattle.qprop_cli.specs.Commands.Frames.{IsStream, HasFrames, IsFirstWrong, IsStreamRefusal};

/// Bytes are a stream of one list of frames at most, have one first wrong frame at most, and never both; so what `frames`
/// answers is told by what it reads.
pub fn streams_are_told()
    ensures frames { (bytes : List ℕ) (a b : List Frame) → IsStream bytes a → IsStream bytes b → a ≡ b }
    ensures wrong { (bytes : List ℕ) (m n : ℕ) → IsFirstWrong bytes m → IsFirstWrong bytes n → m ≡ n }
    ensures refused { (bytes : List ℕ) (frames : List Frame) (refusal : Refusal) → HasFrames bytes frames → ¬ (IsStreamRefusal bytes refusal) }
{}

// Laws of streams.
ghost use Rattle.std.specs.Prelude.{◌≡◌, ◌+◌, [], ◌∷◌, ◌++◌, length, ℕ, List, All};
ghost use Rattle.wire_frame.specs.Stream.{framed_item, Splits, items_of, IsByte, IsItem, IsPartial, IsTooLong};
ghost use Rattle.wire_frame.specs.Cut.{Cut, IsCutting, past};

/// A stream has one list of items, and one rest.
pub fn splits_once()
    ensures items { (stream : List ℕ) (items : List (List ℕ)) (rest : List ℕ) →
        Splits stream items rest → items ≡ items_of stream }
    ensures rest { (stream : List ℕ) (items : List (List ℕ)) (one other : List ℕ) →
        Splits stream items one → Splits stream items other → one ≡ other }
{}

/// Every list of bytes is a stream of items with a rest.
pub fn splits_always()
    ensures { (stream : List ℕ) → All IsByte stream → (rest : List ℕ) × Splits stream (items_of stream) rest }
{}

/// However a stream comes, a cutter that was fed all of it and has answered these items has cut it so: the items that it
/// answered are the stream's, once it holds no more of them.
pub fn stream_comes_in_pieces()
    // A cutter begins so, and stays so as it is fed and as it answers an item.
    ensures begun { (cut : Cut) → cut.held ≡ [] → cut.offset ≡ 0 → IsCutting [] [] cut }
    ensures fed { (stream piece : List ℕ) (items : List (List ℕ)) (old new : Cut) → IsCutting stream items old →
        new.held ≡ old.held ++ piece → new.offset ≡ old.offset → IsCutting (stream ++ piece) items new }
    ensures answered { (stream item : List ℕ) (items : List (List ℕ)) (old new : Cut) → IsCutting stream items old →
        old.held ≡ framed_item item ++ new.held → IsItem item → new.offset ≡ past old.offset (length item + 2) →
        IsCutting stream (items ++ item ∷ []) new }

    // When it answers None or a length, the items are all of the stream's.
    ensures partial { (stream : List ℕ) (items : List (List ℕ)) (cut : Cut) → IsCutting stream items cut → IsPartial cut.held →
        items ≡ items_of stream }
    ensures too_long { (stream : List ℕ) (items : List (List ℕ)) (cut : Cut) → IsCutting stream items cut → IsTooLong cut.held →
        items ≡ items_of stream }
    // A length that no item has stands in front for ever.
    ensures stays { (held more : List ℕ) → IsTooLong held → IsTooLong (held ++ more) }
{}

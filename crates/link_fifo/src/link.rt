// What a link promises, at each of its ends.
ghost use Rattle.std.specs.Prelude.{◌≡◌, List, Option, ℕ, [], ◌∷◌, ◌++◌, option_map, IfSome, IsNone, OnOk, IfErr};

use svc_value::Bytes;

/// The end of a link that takes items.
pub trait LinkOut {
    /// Every item pushed so far, oldest first, where the link tells.
    ghost sent: { Self → Option (List (List ℕ)) };

    /// How many pushes are known to succeed.
    ghost room: { Self → ℕ };

    /// Takes `item` as the last one sent. The item comes back only where `room` is 0 afterwards; nothing is sent then.
    fn push(&mut self, item: Bytes) -> Result<(), Bytes>
        ensures appended { OnOk result (sent self.new ≡ option_map (λ items. items ++ item ∷ []) (sent self.old)) }
        ensures handed_back { IfErr result (λ back. back ≡ item) }
        ensures kept { IfErr result (λ _. sent self.new ≡ sent self.old) }
        ensures full { IfErr result (λ _. room self.new ≡ 0) };
}

/// The end of a link that gives items.
pub trait LinkIn {
    /// Every item popped so far, oldest first, where the link tells.
    ghost received: { Self → Option (List (List ℕ)) };

    /// The items that the next pops are known to give.
    ghost known: { Self → List (List ℕ) };

    /// The next item, which counts as received from then on. None only where `known` is empty afterwards; nothing is received then.
    fn pop(&mut self) -> Option<Bytes>
        ensures taken { IfSome result (λ item. received self.new ≡ option_map (λ items. items ++ item ∷ []) (received self.old)) }
        ensures kept { IsNone result → received self.new ≡ received self.old }
        ensures empty { IsNone result → known self.new ≡ [] };
}

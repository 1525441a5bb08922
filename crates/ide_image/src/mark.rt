//! How a slot stands.
ghost use Rattle.std.specs.Prelude.{◌≡◌};
ghost use Rattle.ide_image.specs.Bits.{mark_of};
ghost use Rattle.ide_image.specs.Queue.{is_pending_mark, is_held, is_stacked};

/// How a slot stands: whether its key is pending, whether a hand has claimed it, and whether the
/// slot is on the stack of those that wait.
#[derive(Clone, Copy, PartialEq, Eq, Debug)]
pub(crate) enum Mark {
    /// Its key is not pending, and the slot is not on the stack.
    Settled,
    /// Its key is not pending. The slot was left on the stack.
    Left,
    /// Its key is pending, and no hand has claimed it. The slot is on the stack.
    Waiting,
    /// Its key is pending, and a hand has claimed it. The slot is not on the stack.
    Held,
    /// Its key is pending, and a hand has claimed it. The slot was left on the stack.
    HeldLeft,
}

impl Mark {
    /// The mark of a slot that is pending or not, set down as one on the stack or not, and claimed or not.
    #[inline(always)]
    pub(crate) fn of(pending: bool, stacked: bool, held: bool) -> Mark
        ensures { result ≡ mark_of pending stacked held }
    {
        match (pending, stacked, held) {
            (false, false, _) => Mark::Settled,
            (false, true, _) => Mark::Left,
            (true, _, false) => Mark::Waiting,
            (true, false, true) => Mark::Held,
            (true, true, true) => Mark::HeldLeft,
        }
    }

    /// Whether the key is pending.
    pub(crate) fn is_pending(self) -> bool
        ensures { result ≡ is_pending_mark self }
    {
        match self {
            Mark::Settled | Mark::Left => false,
            Mark::Waiting | Mark::Held | Mark::HeldLeft => true,
        }
    }

    /// Whether a hand has claimed it.
    pub(crate) fn is_held(self) -> bool
        ensures { result ≡ is_held self }
    {
        match self {
            Mark::Settled | Mark::Left | Mark::Waiting => false,
            Mark::Held | Mark::HeldLeft => true,
        }
    }

    /// Whether the slot is on the stack.
    pub(crate) fn is_stacked(self) -> bool
        ensures { result ≡ is_stacked self }
    {
        match self {
            Mark::Settled | Mark::Held => false,
            Mark::Left | Mark::Waiting | Mark::HeldLeft => true,
        }
    }
}

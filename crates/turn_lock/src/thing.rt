ghost use Rattle.std.specs.Prelude.{◌≡◌};

/// A sequential object: it answers one call at a time.
pub trait Thing {
    /// What is asked.
    type Call;
    /// What is answered.
    type Reply;

    /// The type of the part of the object that no turn changes, as its settings.
    ghost Fixed: { Type 0 };

    /// The part of the object that no turn changes.
    ghost fixed: { Self → Self.Fixed };

    /// Whether a call may be asked of objects with this fixed part.
    ghost may_ask: { Self.Fixed → Self.Call → Type 0 };

    /// One turn: the object before, the call, the reply and the object after.
    ghost turned: { Self → Self.Call → Self.Reply → Self → Type 0 };

    /// Takes one turn. While it runs no other call does.
    fn turn(&mut self, call: Self::Call) -> Self::Reply
        requires { may_ask (fixed self.old) call }
        ensures { turned self.old call result self.new };

    /// No turn changes the fixed part.
    ghost stays_fixed: { (before after : Self) (call : Self.Call) (reply : Self.Reply) → turned before call reply after → fixed after ≡ fixed before };
}

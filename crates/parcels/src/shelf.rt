//! Where parcels lie while nothing holds them.

ghost use Rattle.std.specs.Prelude.{◌≡◌, ◌≢◌, ℕ, Option, Some, None};

/// Parcels by the number of their node. What a taking or a giving leaves as it was is for each kind
/// of shelf to say.
pub trait Shelf<T> {
    // The parcel at a node, where there is one.
    ghost at: { Self → ℕ → Option T };

    // A parcel that may be given to a node.
    ghost allows: { Self → ℕ → T → Type 0 };

    // What was so before is so after.
    ghost keeps: { Self → Self → Type 0 };

    /// Takes the parcel of a node.
    fn take(&mut self, node: usize) -> T
        requires { (parcel : T) × (at self.old node ≡ Some parcel) }
        ensures there { at self.old node ≡ Some result }
        ensures gone { at self.new node ≡ None }
        ensures others { (k : ℕ) → k ≢ node → at self.new k ≡ at self.old k }
        ensures kept { keeps self.old self.new };

    /// Gives a node its parcel.
    fn put(&mut self, node: usize, parcel: T)
        requires vacant { at self.old node ≡ None }
        requires allowed { allows self.old node parcel }
        ensures there { at self.new node ≡ Some parcel }
        ensures others { (k : ℕ) → k ≢ node → at self.new k ≡ at self.old k }
        ensures kept { keeps self.old self.new };

    ghost keeps_itself: { (s : Self) → keeps s s };

    ghost keeps_on: { (s t u : Self) → keeps s t → keeps t u → keeps s u };

    ghost keeps_allowing: { (s t : Self) (node : ℕ) (parcel : T)
        → keeps s t
        → allows s node parcel
        → allows t node parcel };
}

// What a cost kind is: amounts, their sum and their order, and the two questions about them.
ghost use Rattle.std.specs.Prelude.{◌≡◌, Bool};
ghost use Rattle.cost.specs.Kind.{KindLaws};

// A cost is a record; its amount is what it counts as. Sums of amounts need not be amounts of a cost.
// The order is the amounts' and not the records', which may differ where the amounts are equal, so it is no `PartialOrd`.
pub trait CostKind: Copy {
    ghost amounts: { Type 0 };

    ghost amount: { Self → amounts };

    ghost plus: { amounts → amounts → amounts };

    ghost le: { amounts → amounts → Bool };

    // Is this cost at most b?
    fn at_most(self, b: Self) -> bool
        ensures answer { result ≡ le (amount self) (amount b) };

    // Is this cost plus b at most c plus d?
    fn sum_at_most(self, b: Self, c: Self, d: Self) -> bool
        ensures answer { result ≡ le (plus (amount self) (amount b)) (plus (amount c) (amount d)) };

    ghost lawful: { KindLaws plus le };
}

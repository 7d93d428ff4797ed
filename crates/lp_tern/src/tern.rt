ghost use Rattle.std.specs.Prelude.{◌≡◌};
ghost use Rattle.lp_tern.specs.Values.{choose_of, negate_of, rise_of};

/// The value of a signal.
#[derive(Clone, Copy, PartialEq)]
pub enum Tern {
    /// Low.
    Zero,
    /// High.
    One,
    /// Low or high, it is not known which.
    X,
}

/// `a` where the control is 1, `b` where it is 0; where it is unknown, the value that both agree on.
pub fn choose(c: Tern, a: Tern, b: Tern) -> Tern
    ensures { result ≡ choose_of c a b }
{
    match c {
        Tern::One => a,
        Tern::Zero => b,
        Tern::X if a == b => a,
        Tern::X => Tern::X,
    }
}

/// Whether a signal rose between two moments.
pub fn rise(prev: Tern, cur: Tern) -> Tern
    ensures { result ≡ rise_of prev cur }
{
    match (prev, cur) {
        (Tern::Zero, Tern::One) => Tern::One,
        (Tern::One, _) | (_, Tern::Zero) => Tern::Zero,
        _ => Tern::X,
    }
}

/// The complement of a value.
pub fn negate(a: Tern) -> Tern
    ensures { result ≡ negate_of a }
{
    match a {
        Tern::Zero => Tern::One,
        Tern::One => Tern::Zero,
        Tern::X => Tern::X,
    }
}

ghost use Rattle.std.specs.Prelude.{◌≡◌};
ghost use Rattle.cyp_sets.specs.Masks.{meets, obeys, shows};

/// Some set variables and some classes of element terms, by the bits of their places. Of an integer these are the variables
/// that it is in and its class; of a set term its variables and the classes of its elements.
#[derive(Clone, Copy, Debug)]
pub(crate) struct Mask {
    pub vars: u16,
    pub classes: u8,
}

/// What a literal says of each integer.
#[derive(Clone, Copy, Debug)]
pub(crate) enum Rule {
    Same(Mask, Mask),
    Sub(Mask, Mask),
    Apart(Mask, Mask),
}

/// What a literal says of some integer.
#[derive(Clone, Copy, Debug)]
pub(crate) enum Want {
    NotSame(Mask, Mask),
    NotSub(Mask, Mask),
}

/// What a literal says of each integer, or of some.
#[derive(Clone, Copy, Debug)]
pub(crate) enum Saying {
    OfEach(Rule),
    OfSome(Want),
}

impl Mask {
    /// Whether the integer is in the set term.
    pub(crate) fn meets(self, set: Mask) -> bool
        ensures { result ≡ meets self set }
    {
        self.vars & set.vars != 0 || self.classes & set.classes != 0
    }
}

impl Rule {
    /// Whether the rule holds of the integer.
    pub(crate) fn allows(self, at: Mask) -> bool
        ensures { result ≡ obeys at self }
    {
        match self {
            Rule::Same(a, b) => at.meets(a) == at.meets(b),
            Rule::Sub(a, b) => !at.meets(a) || at.meets(b),
            Rule::Apart(a, b) => !at.meets(a) || !at.meets(b),
        }
    }
}

impl Want {
    /// Whether the integer is what is wanted.
    pub(crate) fn is_shown(self, at: Mask) -> bool
        ensures { result ≡ shows at self }
    {
        match self {
            Want::NotSame(a, b) => at.meets(a) != at.meets(b),
            Want::NotSub(a, b) => at.meets(a) && !at.meets(b),
        }
    }
}

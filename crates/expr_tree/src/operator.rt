//! The operators before the members of a sum or a product, and the roots.

ghost use Rattle.std.specs.Prelude.{◌≡◌};
ghost use Rattle.expr_tree.specs.Syntax.{degree};

/// The sign before a member of a sum.
#[derive(Clone, Copy, Drop)]
pub enum Sign {
    /// The member is added.
    Plus,
    /// The member is subtracted.
    Minus,
}

/// Whether a member of a product multiplies or divides.
#[derive(Clone, Copy, Drop)]
pub enum Scale {
    /// The member multiplies.
    Multiply,
    /// The member divides.
    Divide,
}

/// Which root is taken.
#[derive(Clone, Copy, Drop)]
pub enum RootKind {
    /// The square root.
    Square,
    /// The cube root.
    Cube,
}

impl RootKind {
    /// Returns the degree of the root: 2 or 3.
    pub fn degree(self) -> u32
        ensures { result ≡ degree self }
    {
        match self {
            RootKind::Square => 2,
            RootKind::Cube => 3,
        }
    }
}

//! Trees of expressions.

ghost use Rattle.std.specs.Prelude.{◌≡◌, ◌++◌, ◌∷◌, [], length, OnOk, OnErr, map, option_map, slice_get};
ghost use Rattle.std.specs.Option.{option_copied};
ghost use Rattle.expr_tree.specs.Trees.{factor_syntax, syntax, syntax_of_factors, syntax_of_terms, syntax_of_trees};
ghost use Rattle.expr_tree.specs.Trees.{term_syntax};

use crate::operator::{RootKind, Scale, Sign};
use frac128::Numeral;
use std::alloc::{AllocError, Global};
use units_io::Text;

// The capacity reserved for the first member of a list. Most lists have two members.
const USUAL_MEMBERS: usize = 2;

/// The tree of an expression.
// Rare variants are boxed, which keeps a tree as small as its `Word` variant.
#[cycle(tree)]
pub enum Tree {
    /// A numeral.
    Number(Numeral),
    /// A fraction of two numerals.
    Bar(Box<Quotient>),
    /// A word.
    Word(Text),
    /// The argument of the function that the expression defines.
    Argument,
    /// A word directly before an operand in parentheses.
    Call(Box<Text>, Box<Tree>),
    /// The inverse of a function, and the operand in parentheses.
    Inverse(Box<Text>, Box<Tree>),
    /// A root of an expression in parentheses.
    Root(RootKind, Box<Tree>),
    /// An expression in parentheses.
    Group(Box<Tree>),
    /// An operand after a minus that is a sign.
    Negate(Box<Tree>),
    /// A base and its exponent.
    Power(Box<Tree>, Box<Tree>),
    /// Operands side by side, from left to right.
    Juxtaposed(Trees),
    /// The members of a product, from left to right.
    Product(Factors),
    /// The members of a sum, from left to right.
    Sum(Terms),
}

// Written by hand, so that code that drops a tree need not prove anything about its contents.
impl Drop for Tree {
    #[cycle(tree)]
    fn drop(self) {
        match self {
            Tree::Number(_)
            | Tree::Bar(_)
            | Tree::Word(_)
            | Tree::Argument
            | Tree::Call(_, _)
            | Tree::Inverse(_, _)
            | Tree::Root(_, _)
            | Tree::Group(_)
            | Tree::Negate(_)
            | Tree::Power(_, _)
            | Tree::Juxtaposed(_)
            | Tree::Product(_)
            | Tree::Sum(_) => (),
        }
    }
}

/// A fraction of two numerals.
#[derive(Clone, Copy, Drop)]
pub struct Quotient {
    /// The numeral before the bar.
    pub top: Numeral,
    /// The numeral after the bar.
    pub bottom: Numeral,
}

/// A list of trees, in order.
#[cycle(tree)]
pub struct Trees {
    pub(crate) items: Vec<Tree>,
}

// Written by hand, so that code that drops a list of trees need not prove anything about its contents.
impl Drop for Trees {
    #[cycle(tree)]
    fn drop(self) {
        let Trees { items: _ } = self;
    }
}

/// The members of a product, in order. Each multiplies or divides.
#[cycle(tree)]
pub struct Factors {
    pub(crate) items: Vec<(Scale, Tree)>,
}

// Written by hand, so that code that drops the members of a product need not prove anything about them.
impl Drop for Factors {
    #[cycle(tree)]
    fn drop(self) {
        let Factors { items: _ } = self;
    }
}

/// The members of a sum, in order, each with its sign.
#[cycle(tree)]
pub struct Terms {
    pub(crate) items: Vec<(Sign, Tree)>,
}

// Written by hand, so that code that drops the members of a sum need not prove anything about them.
impl Drop for Terms {
    #[cycle(tree)]
    fn drop(self) {
        let Terms { items: _ } = self;
    }
}

impl Trees {
    /// Returns an empty list.
    pub fn new(alloc: Global) -> Trees
        ensures { syntax_of_trees result ≡ [] }
    {
        Trees {
            items: Vec::new(alloc),
        }
    }

    /// Appends a tree. If that fails, the list is unchanged.
    pub fn push(&mut self, _alloc: Global, item: Tree) -> Result<(), AllocError>
        ensures ok { OnOk result (syntax_of_trees self.new ≡ syntax_of_trees self.old ++ syntax item ∷ []) }
        ensures err { OnErr result (syntax_of_trees self.new ≡ syntax_of_trees self.old) }
    {
        push_member(&mut self.items, item)
    }

    /// Returns the number of trees.
    pub fn len(&self) -> usize
        ensures { result ≡ length (syntax_of_trees self.now) }
    {
        self.items.len()
    }

    /// Returns the trees as a slice.
    pub fn as_slice(&self) -> &[Tree]
        ensures { map syntax result.now ≡ syntax_of_trees self.now }
    {
        self.items.as_slice()
    }

    /// Returns the tree at index `i`, or `None` if `i` is out of bounds.
    pub fn get(&self, i: usize) -> Option<&Tree>
        ensures { option_map syntax (option_copied result) ≡ slice_get (syntax_of_trees self.now) i }
    {
        self.items.get(i)
    }
}

impl Factors {
    /// Returns an empty list.
    pub fn new(alloc: Global) -> Factors
        ensures { syntax_of_factors result ≡ [] }
    {
        Factors {
            items: Vec::new(alloc),
        }
    }

    /// Appends a member. If that fails, the list is unchanged.
    pub fn push(&mut self, _alloc: Global, item: (Scale, Tree)) -> Result<(), AllocError>
        ensures ok { OnOk result (syntax_of_factors self.new ≡ syntax_of_factors self.old ++ factor_syntax item ∷ []) }
        ensures err { OnErr result (syntax_of_factors self.new ≡ syntax_of_factors self.old) }
    {
        push_member(&mut self.items, item)
    }

    /// Returns the number of members.
    pub fn len(&self) -> usize
        ensures { result ≡ length (syntax_of_factors self.now) }
    {
        self.items.len()
    }

    /// Returns the members as a slice.
    pub fn as_slice(&self) -> &[(Scale, Tree)]
        ensures { map factor_syntax result.now ≡ syntax_of_factors self.now }
    {
        self.items.as_slice()
    }

    /// Returns the member at index `i`, or `None` if `i` is out of bounds.
    pub fn get(&self, i: usize) -> Option<&(Scale, Tree)>
        ensures { option_map factor_syntax (option_copied result) ≡ slice_get (syntax_of_factors self.now) i }
    {
        self.items.get(i)
    }
}

impl Terms {
    /// Returns an empty list.
    pub fn new(alloc: Global) -> Terms
        ensures { syntax_of_terms result ≡ [] }
    {
        Terms {
            items: Vec::new(alloc),
        }
    }

    /// Appends a member. If that fails, the list is unchanged.
    pub fn push(&mut self, _alloc: Global, item: (Sign, Tree)) -> Result<(), AllocError>
        ensures ok { OnOk result (syntax_of_terms self.new ≡ syntax_of_terms self.old ++ term_syntax item ∷ []) }
        ensures err { OnErr result (syntax_of_terms self.new ≡ syntax_of_terms self.old) }
    {
        push_member(&mut self.items, item)
    }

    /// Returns the number of members.
    pub fn len(&self) -> usize
        ensures { result ≡ length (syntax_of_terms self.now) }
    {
        self.items.len()
    }

    /// Returns the members as a slice.
    pub fn as_slice(&self) -> &[(Sign, Tree)]
        ensures { map term_syntax result.now ≡ syntax_of_terms self.now }
    {
        self.items.as_slice()
    }

    /// Returns the member at index `i`, or `None` if `i` is out of bounds.
    pub fn get(&self, i: usize) -> Option<&(Sign, Tree)>
        ensures { option_map term_syntax (option_copied result) ≡ slice_get (syntax_of_terms self.now) i }
    {
        self.items.get(i)
    }
}

// Appends a member. The first one reserves room for the usual number of members. If that fails, the list is unchanged.
fn push_member<T: Drop>(items: &mut Vec<T>, item: T) -> Result<(), AllocError>
    ensures ok { OnOk result (items.new.items ≡ items.old.items ++ item ∷ []) }
    ensures err { OnErr result (items.new.items ≡ items.old.items) }
{
    if items.is_empty() {
        items.reserve_exact(USUAL_MEMBERS)?;
    }
    items.push(item)?;
    Ok(())
}

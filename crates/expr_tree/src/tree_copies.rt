//! Copies of trees.

ghost use Rattle.std.specs.Prelude.{◌≡◌, IfOk};
ghost use Rattle.expr_tree.specs.Trees.{syntax, syntax_of_factors, syntax_of_terms, syntax_of_trees};

use crate::operator::Sign;
use crate::tree::{Factors, Terms, Tree, Trees};
use crate::tree_building::{
    bar_tree, call_tree, group_tree, inverse_tree, power_tree, root_tree, signed_tree, word_tree,
};
use std::alloc::{AllocError, Global};

impl Tree {
    /// Returns an equal tree. Fails only if out of memory.
    #[cycle(copy)]
    pub fn copy(&self, alloc: Global) -> Result<Tree, AllocError>
        ensures { IfOk result (λ tree. syntax tree ≡ syntax self.now) }
    {
        match self {
            Tree::Number(x) => Ok(Tree::Number(*x)),
            Tree::Bar(quotient) => bar_tree(alloc, quotient.top, quotient.bottom),
            Tree::Word(word) => word_tree(alloc, word.as_bytes(), None),
            Tree::Argument => Ok(Tree::Argument),
            Tree::Call(word, operand) => {
                call_tree(alloc, word.as_bytes(), operand.copy(alloc)?, None)
            }
            Tree::Inverse(word, operand) => {
                inverse_tree(alloc, word.as_bytes(), operand.copy(alloc)?)
            }
            Tree::Root(kind, operand) => root_tree(alloc, *kind, operand.copy(alloc)?),
            Tree::Group(operand) => group_tree(alloc, operand.copy(alloc)?),
            Tree::Negate(operand) => signed_tree(alloc, Sign::Minus, operand.copy(alloc)?),
            Tree::Power(base, exponent) => {
                let base = base.copy(alloc)?;
                power_tree(alloc, base, exponent.copy(alloc)?)
            }
            Tree::Juxtaposed(members) => Ok(Tree::Juxtaposed(members.copy(alloc)?)),
            Tree::Product(members) => Ok(Tree::Product(members.copy(alloc)?)),
            Tree::Sum(members) => Ok(Tree::Sum(members.copy(alloc)?)),
        }
    }
}

impl Trees {
    /// Returns a list of equal trees in the same order. Fails only if out of memory.
    #[cycle(copy)]
    #[tactic(auto, using(crate::proofs::Says::copies))]
    pub fn copy(&self, alloc: Global) -> Result<Trees, AllocError>
        ensures { IfOk result (λ trees. syntax_of_trees trees ≡ syntax_of_trees self.now) }
    {
        let mut items = Vec::with_capacity(alloc, self.items.len())?;
        for tree in &self.items {
            items.push(tree.copy(alloc)?)?;
        }
        Ok(Trees { items })
    }
}

impl Factors {
    // Returns equal members of a product, in the same order.
    #[cycle(copy)]
    #[tactic(auto, using(crate::proofs::Says::copies))]
    fn copy(&self, alloc: Global) -> Result<Factors, AllocError>
        ensures { IfOk result (λ members. syntax_of_factors members ≡ syntax_of_factors self.now) }
    {
        let mut items = Vec::with_capacity(alloc, self.items.len())?;
        for member in &self.items {
            items.push((member.0, member.1.copy(alloc)?))?;
        }
        Ok(Factors { items })
    }
}

impl Terms {
    // Returns equal members of a sum, in the same order.
    #[cycle(copy)]
    #[tactic(auto, using(crate::proofs::Says::copies))]
    fn copy(&self, alloc: Global) -> Result<Terms, AllocError>
        ensures { IfOk result (λ members. syntax_of_terms members ≡ syntax_of_terms self.now) }
    {
        let mut items = Vec::with_capacity(alloc, self.items.len())?;
        for member in &self.items {
            items.push((member.0, member.1.copy(alloc)?))?;
        }
        Ok(Terms { items })
    }
}

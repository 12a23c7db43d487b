//! The members of a juxtaposition, a product or a sum, in a common form.

ghost use Rattle.std.specs.Prelude.{◌≡◌, ◌<◌, Some, length, slice_get};
ghost use Rattle.tree_eval.specs.Operands.{operand, operands_with_steps};

use crate::step::Step;
use expr_tree::{Factors, Terms, Tree, Trees};

/// The members of a juxtaposition, a product or a sum.
#[derive(Clone, Copy)]
pub(crate) enum Operands<'t> {
    Juxtaposed(&'t Trees),
    Product(&'t Factors),
    Sum(&'t Terms),
}

/// A member, and the step that combines it with a running value.
#[derive(Clone, Copy)]
pub(crate) struct Operand<'t> {
    pub(crate) step: Step,
    pub(crate) tree: &'t Tree,
}

impl<'t> Operands<'t> {
    // The number of members.
    pub(crate) fn len(&self) -> usize
        ensures { result ≡ length (operands_with_steps self.now) }
    {
        match self {
            Operands::Juxtaposed(trees) => trees.len(),
            Operands::Product(factors) => factors.len(),
            Operands::Sum(terms) => terms.len(),
        }
    }

    // Returns the member at a place.
    pub(crate) fn get(&self, i: usize) -> Operand<'t>
        requires { i < length (operands_with_steps self.now) }
        ensures { slice_get (operands_with_steps self.now) i ≡ Some (operand result) }
    {
        match self {
            Operands::Juxtaposed(trees) => Operand {
                step: Step::Multiply,
                tree: trees.get(i).unwrap(),
            },
            Operands::Product(factors) => {
                let factor = factors.get(i).unwrap();
                Operand {
                    step: Step::of_scale(factor.0),
                    tree: &factor.1,
                }
            }
            Operands::Sum(terms) => {
                let term = terms.get(i).unwrap();
                Operand {
                    step: Step::of_sign(term.0),
                    tree: &term.1,
                }
            }
        }
    }
}

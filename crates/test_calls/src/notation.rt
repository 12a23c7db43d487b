//! The notation of trees: each has its kind before its parts, in parentheses, and words are in brackets.

use crate::lines::AnswerWriter;
use expr_tree::{Factors, Scale, Sign, Terms, Tree, Trees};
use frac128::Numeral;

// Appends a tree.
#[cycle(put)]
#[tactic(auto, using(crate::proofs::Sizes::sizes))]
pub(crate) fn put_tree(out: &mut AnswerWriter, tree: &Tree) {
    match tree {
        Tree::Number(x) => put_numeral(out, x),
        Tree::Bar(quotient) => put_bar(out, &quotient.top, &quotient.bottom),
        Tree::Word(word) => put_word(out, word.as_bytes()),
        Tree::Argument => out.put(b"[]"),
        Tree::Call(word, operand) => {
            out.put(b"(call ");
            put_word(out, word.as_bytes());
            put_last(out, operand);
        }
        Tree::Inverse(word, operand) => {
            out.put(b"(inverse ");
            put_word(out, word.as_bytes());
            put_last(out, operand);
        }
        Tree::Root(kind, operand) => {
            out.put(b"(root ");
            out.put_number(kind.degree());
            put_last(out, operand);
        }
        Tree::Group(operand) => {
            out.put(b"(group");
            put_last(out, operand);
        }
        Tree::Negate(operand) => {
            out.put(b"(negate");
            put_last(out, operand);
        }
        Tree::Power(base, exponent) => {
            out.put(b"(power ");
            put_tree(out, base);
            put_last(out, exponent);
        }
        Tree::Juxtaposed(members) => put_members(out, members),
        Tree::Product(members) => put_factors(out, members),
        Tree::Sum(members) => put_terms(out, members),
    }
}

// Appends the last part of a tree and the closing parenthesis.
#[cycle(put)]
#[tactic(auto, using(crate::proofs::Sizes::sizes))]
fn put_last(out: &mut AnswerWriter, tree: &Tree) {
    out.put(b" ");
    put_tree(out, tree);
    out.put(b")");
}

// Appends juxtaposed operands.
#[cycle(put)]
#[tactic(auto, using(crate::proofs::Sizes::sizes))]
fn put_members(out: &mut AnswerWriter, members: &Trees) {
    out.put(b"(side");
    for member in members.as_slice() {
        out.put(b" ");
        put_tree(out, member);
    }
    out.put(b")");
}

// Appends a product.
#[cycle(put)]
#[tactic(auto, using(crate::proofs::Sizes::sizes))]
fn put_factors(out: &mut AnswerWriter, members: &Factors) {
    out.put(b"(product");
    for member in members.as_slice() {
        out.put(scale_text(member.0));
        put_tree(out, &member.1);
    }
    out.put(b")");
}

// Appends a sum.
#[cycle(put)]
#[tactic(auto, using(crate::proofs::Sizes::sizes))]
fn put_terms(out: &mut AnswerWriter, members: &Terms) {
    out.put(b"(sum");
    for member in members.as_slice() {
        out.put(sign_text(member.0));
        put_tree(out, &member.1);
    }
    out.put(b")");
}

// Returns `*` or `/` between blanks.
fn scale_text(scale: Scale) -> &'static [u8] {
    match scale {
        Scale::Multiply => b" * ",
        Scale::Divide => b" / ",
    }
}

// Returns `+` or `-` between blanks.
fn sign_text(sign: Sign) -> &'static [u8] {
    match sign {
        Sign::Plus => b" + ",
        Sign::Minus => b" - ",
    }
}

// Appends a quotient of two numerals.
fn put_bar(out: &mut AnswerWriter, top: &Numeral, bottom: &Numeral) {
    out.put(b"(bar ");
    put_numeral(out, top);
    out.put(b" ");
    put_numeral(out, bottom);
    out.put(b")");
}

// Appends a numeral: its coefficient, and its power of ten unless that is 1.
fn put_numeral(out: &mut AnswerWriter, x: &Numeral) {
    out.put_number(x.coefficient());
    let power = x.scale();
    if power != 0 {
        out.put(b"e");
        out.put_number(power);
    }
}

// Appends a word in brackets.
pub(crate) fn put_word(out: &mut AnswerWriter, word: &[u8]) {
    out.put(b"[");
    out.put(word);
    out.put(b"]");
}

//! Laws of replies. The functions do nothing: the contract of each is the law.

ghost use Rattle.reply.specs.Examples.{ReplyExamplesLaw};
ghost use Rattle.reply.specs.GrantExamples.{ConversionExamplesLaw};
ghost use Rattle.reply.specs.Grants.{ConversionGrantLaw};
ghost use Rattle.reply.specs.Quotients.{ConversionQuotientLaw};
ghost use Rattle.reply.specs.TextValues.{ReplyDenominatorLaw};

use deck::tables_are_of_lines;
use frac128::reduced_law;
use table_names::kind_law;

/// A few replies are as found by hand.
pub fn examples_law()
    ensures { ReplyExamplesLaw }
{}

/// The result of a division is a fraction if and only if it is the exact quotient.
pub fn quotient_law()
    ensures { ConversionQuotientLaw }
{
    reduced_law();
}

/// The value of a text has a denominator above 0.
pub fn denominator_law()
    ensures { ReplyDenominatorLaw }
{
    reduced_law();
    tables_are_of_lines();
}

/// A reply grants exactly the conversions that are defined, and states their exact values.
pub fn grant_law()
    ensures { ConversionGrantLaw }
{
    kind_law();
    quotient_law();
}

/// A few texts are converted or refused as found by hand.
pub fn grant_examples_law()
    ensures { ConversionExamplesLaw }
{}

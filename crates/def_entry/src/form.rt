//! The options and the bodies of a function, which follow its parameter.

ghost use Rattle.std.specs.Prelude.{◌≡◌, option_map};
ghost use Rattle.std.specs.Option.{option_copied};
ghost use Rattle.def_entry.specs.Forms as spec;
ghost use Rattle.def_entry.specs.LineViews.{seen_entry_form, seen_entry_text_pair, seen_options};

use crate::cuts::cut_at;
use crate::options::{Options, options_at};
use def_lines::trim;

// The options of a function and the texts of its bodies.
#[derive(Drop)]
pub(crate) struct Form<'a> {
    pub options: Options<'a>,
    pub forward: &'a [u8],
    pub inverse: Option<&'a [u8]>,
}

// Returns the options and the bodies after them, which are separated at the first `;`. Returns `None` if an option is
// incomplete or repeated, or if a body is empty.
#[tactic(auto, unfolding(crate::specs::Forms::form_of))]
pub(crate) fn form_of(text: &[u8]) -> Option<Form<'_>>
    ensures { option_map seen_entry_form result ≡ spec.form_of text.now }
{
    let Some((options, bodies)) = options_at(text) else {
        return None;
    };
    match cut_at(bodies, b';') {
        Some((forward, inverse)) => {
            let forward = some_text(trim(forward))?;
            let inverse = some_text(trim(inverse))?;
            Some(Form {
                options,
                forward,
                inverse: Some(inverse),
            })
        }
        None => {
            let forward = some_text(trim(bodies))?;
            Some(Form {
                options,
                forward,
                inverse: None,
            })
        }
    }
}

// Returns the text, or `None` if it is empty.
pub(crate) fn some_text(text: &[u8]) -> Option<&[u8]>
    ensures { option_copied result ≡ spec.some_text text.now }
{
    if text.is_empty() { None } else { Some(text) }
}

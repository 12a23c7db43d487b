//! The lines of a deck that are active under some settings.

mod flags;
mod in_force;
mod surroundings;

pub(crate) use flags::{active_flags, edited_flags, flags_in_force};
pub(crate) use in_force::InForce;

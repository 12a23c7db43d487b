//! The lines of calls and of answers: the loop over the lines of standard input, the word that names the kind of the
//! calls, tables of words, the arguments of calls, and the texts that answers consist of.

mod answer_writer;
mod answers;
mod change;
mod fault;
mod faults;
mod run;
mod word_table;
mod words;

pub(crate) use answer_writer::AnswerWriter;
pub(crate) use answers::{Answers, put_answers};
pub(crate) use change::read_change;
pub(crate) use fault::CallFault;
pub(crate) use faults::{put_entry_refusal, put_parse_refusal};
pub(crate) use run::{first_word, read_all, refuse_kind, write_all};
pub(crate) use word_table::meaning_of;
pub(crate) use words::{key_in, read_number, split_at_space};

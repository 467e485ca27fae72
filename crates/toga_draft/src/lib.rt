//! The lines of a source, read into a draft: what each says, with names that are not looked up yet; or the first error of form, with its
//! place and its cause.
#![tactic(auto)]

mod declarations;
mod draft;
mod first;
mod operands;
mod programs;
mod reader;
mod unread;
mod word;

pub use draft::{
    Draft, EvictDraft, InstrDraft, LabelDraft, NameDraft, NumberDraft, OperandDraft, ProgramDraft,
    Setting, SpaceDraft,
};
pub use reader::{MAX_SOURCE, read_draft};
pub use unread::Unread;
pub use word::Word;

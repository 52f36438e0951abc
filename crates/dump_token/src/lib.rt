//! The words of a line.
//!
//! Blanks part the words: spaces, tabs and carriage returns. A word that begins with a double quote
//! goes on to the quote that closes it, over blanks too.
#![tactic(auto)]

mod fault;
mod law;
mod quoted;
mod token;

pub use fault::TokenFault;
pub use law::one_reading;
pub use token::{Token, tokens};

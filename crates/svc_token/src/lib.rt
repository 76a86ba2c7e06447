//! The tokens of a line: words, numbers, quoted texts and marks, the longest that fits first.
//! Tokens lend their bytes from the line.
#![tactic(auto)]

mod cutting;
mod keyword;
mod mark;
mod refs;
mod token;

pub use cutting::{CutError, cut, is_blank, one_cut};
pub use keyword::{Keyword, spelled_keyword};
pub use refs::{BytesRef, NameRef};
pub use token::{MAX_NAME_LEN, Token, is_name};

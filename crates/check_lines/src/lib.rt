//! What programs of checks have in common. Such a program reads cases from standard input, one on each line, and prints the result of
//! each; so one more case costs no proof.
//!
//! [`Names::read`] reads what a line asks for. A blank line and one that begins with `#` are remarks. `let NAME = PIECES` gives bytes a
//! name, for the lines after it. Any other line is a case, `WORDS: PIECES`: words of the program's own, and bytes. Bytes are written in
//! pieces with blanks between them, which follow one another:
//!
//! | piece | bytes |
//! |---|---|
//! | `0a00ff` | those of the hexadecimal digits |
//! | `'FLOWCMD1'` | those of the text, which has no blank |
//! | `$NAME` | those that have the name |
//! | `12x00`, `12x$NAME` | those of the other piece, so many times |
//!
//! The result of a case is printed in rows, which begin with two blanks: [`put_records`] writes a row for each record, with blanks after
//! its tag and its length, and [`put_text`] one for each line of a text. A [`Told`] is made of such rows, and returns nothing to those
//! who append: a function without exits is proved in a fraction of the time.
#![tactic(auto)]

mod line;
mod record;
mod row;
mod told;

pub use line::{Line, Names};
pub use record::{pairs, records};
pub use row::{put_file, put_records, put_rows, put_text};
pub use told::Told;

//! A test's rows, in a library: what each row of the test of the whole program does to one store, and what is told of
//! it. Whoever has `Rows` answer them says what obeys the commands among them (`Top`).
//!
//! A row that is empty or begins with `#` is a heading and is printed as it is; `##` begins a table, with an empty store
//! and no input. Some rows put a text together, which a row below takes:
//!
//! - `|TEXT`: the text and a newline. `+COUNT PART`: the part, so often. `x COUNT BYTES`: bytes in hexadecimal, so often.
//!
//! Some change the store and the input:
//!
//! - `new`: a new store, with no files. `new CALL WAY`: the same, whose call of this number fails; a put then leaves the
//!   `old` file, `nothing`, or so many of the first new bytes, but fewer than all. Calls of all kinds are counted, those of
//!   the rows below among them.
//! - `put NAME`: the text becomes a file. `many COUNT`: it becomes so many files `m000.i`, `m001.i`, .. `remove NAME`.
//! - `change NAME OFFSET`: the byte at this offset of a file, or its last one, is changed. `cut NAME`: the last byte goes.
//!   `forge NAME`: a kept object's code loads 2 in place of 1, and its digest is made anew.
//! - `input`: the text becomes the input of commands, up to the next table.
//!
//! The others ask, and are printed with what is told:
//!
//! - `$ LINE`: the command line over the store. Its status is printed, what it put out, its line on `err`, the names that it
//!   put, in order, and whether `prog.img` is the `first` image of the table or an`other`. A newline is printed as `\n`, an
//!   output of more than 1,000 bytes as its length, and the bytes and the digest of an image as `first`, the first that
//!   were told in the table, or `other`. In a row `$<CALL LINE` this call of the input fails, in `$>CALL LINE` this call of
//!   the output, and in `$! LINE` `err` takes nothing. In a row `$= LINE` what is put out is printed as it is, with the
//!   bytes and the digest of each image.
//! - `? words LINE`: the command that a command line says, its operand, and its number, colours, stack and steps, as far as it
//!   has them.
//! - `? script`: how many lawful lines the text begins with, up to its end or up to the first place where none stands, and
//!   the offset of that place.
//! - `? database`, `? image`: the text of the database, or the listing of the image, whose file has the text as its payload, in
//!   the version that is made. `? file`: the listing of the image whose file the text is.
//! - `? program NUMBER`: the files of the made program of this number with two modules.
#![tactic(auto)]

mod changes;
mod command_lines;
mod commands;
mod made_programs;
mod outputs;
mod scripts;
mod stores;
mod texts;
mod trial;

pub use commands::Top;
pub use trial::Rows;

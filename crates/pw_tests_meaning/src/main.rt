//! A test of the meaning of C: a program that reads C programs, one a line or a line for each module, and prints for
//! each its line's number and how its run ends.
//!
//! A line that is empty or begins with `#` is a heading and is printed as it is. Other lines are:
//!
//! - `=stack N`, `=bound N`, `=input BYTES` (in hexadecimal), `=frame NAME N`: for the next program alone; with none
//!   the stack is the greatest that there is, the bound is 100,000, there is no input, and a frame takes no room.
//! - `=ones N`: in the next program the last function of each module returns `1 + 1 + ..` of so many operands in place of
//!   its body, as a tree: no text may be so long.
//! - `=calls N`: in the next program the last function of each module returns `f(f(.. f(0) ..))` of so many calls of the first
//!   function, as a tree: no text may nest so.
//! - `:NAME TEXT`: a module of the next program; modules come in byte order of their names.
//! - `+TEXT`: the last module, which is called `a`; and then the program runs. `!` runs those that came.
#![tactic(auto)]

mod answers;
mod job;
mod ones;

use answers::push_run;
use job::Job;
use pw_rows::{Program, Text, answer_rows};
use std::io;

/// Adds the number of a program's last line and how its run ends; none of it is left.
fn answer_job(text: &mut Text, number: usize, job: &mut Job) {
    text.display(&number);
    text.push(b" ");
    push_run(text, job);
    text.push(b"\n");
    *job = Job::new(text.alloc());
}

/// Adds a module, by a row that has its name and its text.
fn add_named(text: &mut Text, job: &mut Job, row: &str) {
    let (name, source) = row.split_once(' ').unwrap_or((row, ""));
    job.add_module(text, name, source);
}

impl Program for Job {
    fn answer(&mut self, text: &mut Text, number: usize, row: &str) {
        if let Some(setting) = row.strip_prefix('=') {
            self.set(text, setting);
        } else if let Some(module) = row.strip_prefix(':') {
            add_named(text, self, module);
        } else if let Some(source) = row.strip_prefix('+') {
            self.add_module(text, "a", source);
            answer_job(text, number, self);
        } else if row == "!" {
            answer_job(text, number, self);
        } else {
            text.push(row.as_bytes());
            text.push(b"\n");
        }
    }
}

fn main(rt: HostRuntime) -> io::Result<()> {
    let mut job = Job::new(rt.alloc());
    answer_rows(rt.alloc(), rt.reader(), &mut rt.stdout(), &mut job)
}

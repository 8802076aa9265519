//! A program that is to be run, as its rows say.

use crate::ones::{return_calls, return_ones};
use pw_check::{CheckKind, check};
use pw_front_end::{FrontEndFault, front};
use pw_rows::Text;
use pw_tree::Module;
use pw_typed::TModule;
use pw_value::Name;
use pw_value::limits::STACK_LIMIT;
use std::alloc::Global;
use std::mem::ManuallyDrop;

/// A module's name and its typed tree, whose memory goes back with the program's.
#[derive(Drop)]
pub struct Checked {
    pub name: Name,
    pub tree: ManuallyDrop<TModule>,
}

/// A program with all that its run rests on.
#[derive(Drop)]
pub struct Job {
    /// Its modules, as far as they are taken.
    pub modules: Vec<Checked>,
    /// The front end or checking refuses a module.
    pub is_refused: bool,
    pub frames: Vec<(Name, u32)>,
    pub stack: u32,
    pub bound: u64,
    pub input: Vec<u8>,
    /// Where it is not 0, the last function of each module returns the sum of so many ones in place of its body.
    pub ones: u32,
    /// Where it is not 0, the last function of each module returns so many calls of the first, each the argument of the next.
    pub calls: u32,
}

impl Job {
    /// No modules, the greatest stack, and the usual bounds.
    pub fn new(alloc: Global) -> Job {
        Job {
            modules: Vec::new(alloc),
            is_refused: false,
            frames: Vec::new(alloc),
            stack: STACK_LIMIT,
            bound: 100000,
            input: Vec::new(alloc),
            ones: 0,
            calls: 0,
        }
    }

    /// Adds the typed tree of a module.
    fn add_checked(&mut self, text: &mut Text, name: &str, tree: ManuallyDrop<TModule>) {
        match Name::new(text.alloc(), name.as_bytes()) {
            Ok(name) => {
                if self.modules.push(Checked { name, tree }).is_err() {
                    text.cut();
                }
            }
            Err(_) => text.cut(),
        }
    }

    /// The same, whose last function returns ones where that is set.
    fn add_typed(&mut self, text: &mut Text, name: &str, mut tree: TModule) {
        if self.ones > 0 && return_ones(text.alloc(), &mut tree, self.ones).is_err() {
            text.cut();
        }
        if self.calls > 0 && return_calls(text.alloc(), &mut tree, self.calls).is_err() {
            text.cut();
        }
        self.add_checked(text, name, ManuallyDrop::new(tree));
    }

    /// Adds a module by its syntax tree, where checking takes it.
    fn add_tree(&mut self, text: &mut Text, name: &str, tree: &Module) {
        match check(text.alloc(), tree) {
            Ok(typed) => self.add_typed(text, name, typed),
            Err(fault) => match fault.kind {
                CheckKind::NoMemory => text.cut(),
                _ => self.is_refused = true,
            },
        }
    }

    /// Adds a module by its text, where the front end and checking take it.
    pub fn add_module(&mut self, text: &mut Text, name: &str, source: &str) {
        match front(text.alloc(), source.as_bytes()) {
            Ok(tree) => self.add_tree(text, name, &ManuallyDrop::new(tree)),
            Err(FrontEndFault::NoMemory) => text.cut(),
            Err(FrontEndFault::Refused(_)) => self.is_refused = true,
        }
    }

    /// Adds the frame of a function, by a row that has its name and its size.
    fn add_frame(&mut self, text: &mut Text, row: &str) {
        let (name, frame) = row.split_once(' ').unwrap_or((row, ""));
        match Name::new(text.alloc(), name.as_bytes()) {
            Ok(name) => {
                let frame = frame.parse::<u32>().unwrap_or(0);
                if self.frames.push((name, frame)).is_err() {
                    text.cut();
                }
            }
            Err(_) => text.cut(),
        }
    }

    /// Takes a setting, by its words.
    pub fn set(&mut self, text: &mut Text, setting: &str) {
        let (word, value) = setting.split_once(' ').unwrap_or((setting, ""));
        match word {
            "stack" => self.stack = value.parse::<u32>().unwrap_or(0),
            "bound" => self.bound = value.parse::<u64>().unwrap_or(0),
            "ones" => self.ones = value.parse::<u32>().unwrap_or(0),
            "calls" => self.calls = value.parse::<u32>().unwrap_or(0),
            "input" => self.input = text.spelled(value),
            _ => self.add_frame(text, value),
        }
    }
}

//! Object files, linked.

use crate::images::{push_fault, push_image};
use pw_image::Image;
use pw_link::link;
use pw_object::{Object, read};
use pw_rows::Text;
use pw_value::LinkFault;
use std::alloc::Global;

/// The object of a file, where it is one.
fn object_of(text: &mut Text, file: &str) -> Option<Object> {
    let bytes = text.spelled(file);
    read(text.alloc(), &bytes).ok()
}

/// The objects of these files; another text gives none.
fn objects_of(text: &mut Text, files: &str) -> Vec<Object> {
    let mut objects = Vec::new(text.alloc());
    for file in files.split(' ') {
        if let Some(object) = object_of(text, file) {
            if objects.push(object).is_err() {
                text.cut();
            }
        }
    }
    objects
}

/// What linking objects gives.
fn linked(alloc: Global, objects: &[Object], stack: u32) -> Result<Image, LinkFault> {
    link(alloc, objects, stack)
}

/// Adds what linking objects gives.
fn push_answer(text: &mut Text, objects: &[Object], stack: u32, marks: &[u8]) {
    match linked(text.alloc(), objects, stack) {
        Ok(image) => push_image(text, &image, marks),
        Err(fault) => push_fault(text, &fault),
    }
}

/// Adds what linking the objects of a row gives.
pub fn push_linked(text: &mut Text, row: &str) {
    let (stack, rest) = row.split_once(' ').unwrap_or((row, ""));
    let (marks, files) = rest.split_once(' ').unwrap_or((rest, ""));
    let objects = objects_of(text, files);
    let stack = stack.parse::<u32>().unwrap_or(0);
    push_answer(text, &objects, stack, marks.as_bytes());
}

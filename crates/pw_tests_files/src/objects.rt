//! Object files as text.

use crate::functions::push_functions;
use crate::globals::push_globals;
use crate::shown::{push_again, push_names, push_shaped, push_value};
use pw_object::{Object, read, write};
use pw_rows::Text;

/// Adds the parts of an object in their order, the version behind the module's name.
fn push_parts(text: &mut Text, object: &Object) {
    text.push(object.module.as_bytes());
    push_value(text, &(object.version, object.flow.as_slice()));
    push_value(text, &object.directives.as_slice());
    push_shaped(text, object.declared.as_slice());
    push_names(text, object.used.as_slice());
    push_globals(text, object.globals.as_slice());
    push_functions(text, object.functions.as_slice());
}

/// Adds what an object file holds, or its fault.
pub fn push_object(text: &mut Text, bytes: &[u8]) {
    match read(text.alloc(), bytes) {
        Ok(object) => {
            push_parts(text, &object);
            let written = write(text.alloc(), &object);
            push_again(text, written, bytes);
        }
        Err(error) => text.debug(&error),
    }
}

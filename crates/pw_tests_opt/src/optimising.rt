//! Flow files, optimised.

ghost use Rattle.pw_flow.specs.ValidFlow.{IsValid};

use pw_flow::FlowModule;
use pw_law_opt::laws::optimisation_keeps_lawful;
use pw_opt::optimise;
use pw_rows::Text;
use std::alloc::{AllocError, Global};

/// The file of an optimised module.
fn optimised_file(alloc: Global, flow: &FlowModule) -> Result<Vec<u8>, AllocError>
    requires { IsValid flow.now }
{
    optimisation_keeps_lawful();
    let optimised = optimise(alloc, flow)?;
    let file = pw_flowfile::write(alloc, &optimised)?;
    Ok(file)
}

/// Adds the file of an optimised module.
fn push_module(text: &mut Text, flow: &FlowModule)
    requires { IsValid flow.now }
{
    match optimised_file(text.alloc(), flow) {
        Ok(bytes) => {
            for byte in &bytes {
                text.byte(*byte);
            }
        }
        Err(AllocError) => text.cut(),
    }
}

/// Adds the file of the module of a row's flow file, optimised.
pub fn push_optimised(text: &mut Text, row: &str) {
    let file = text.spelled(row);
    match pw_flowfile::read(text.alloc(), &file) {
        Ok(flow) => push_module(text, &flow),
        Err(_) => text.push(b"no file"),
    }
}

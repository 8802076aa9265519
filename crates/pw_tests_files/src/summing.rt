//! Summaries that are made of flow graphs.

ghost use Rattle.pw_summary.specs.Summary.{IsVersioned};

use crate::shown::push_value;
use crate::summaries::push_summary;
use pw_rows::Text;
use pw_summarise::summarise;
use pw_summary::Summary;
use pw_summary_file::write;

/// Adds a summary and its file.
fn push_with_file(text: &mut Text, summary: &Summary)
    requires { IsVersioned summary.now }
{
    push_summary(text, summary);
    match write(text.alloc(), summary) {
        Ok(file) => push_value(text, &file.as_slice()),
        Err(_) => text.cut(),
    }
}

/// Adds the summary of the module of a flow file.
pub fn push_summed(text: &mut Text, bytes: &[u8]) {
    let alloc = text.alloc();
    match pw_flowfile::read(alloc, bytes) {
        Ok(flow) => match summarise(alloc, &flow) {
            Ok(summary) => push_with_file(text, &summary),
            Err(_) => text.cut(),
        },
        Err(error) => text.debug(&error),
    }
}

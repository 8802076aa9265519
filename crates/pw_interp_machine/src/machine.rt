//! What a run is while it goes on.

use pw_interp_pushes::Call;
use pw_interp_todo::Control;

/// A run: the call of the function that runs, the calls that wait for it, of which the last is the caller, and what is done
/// now.
#[derive(Drop)]
pub struct Machine<'a> {
    pub call: Call<'a>,
    pub callers: Vec<Call<'a>>,
    pub control: Control<'a>,
}

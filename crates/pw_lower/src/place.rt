//! Where the parameters and locals of a function stand, and where scalar lvalues are;
//! where jumps go.

use pw_value::Name;

/// Where a parameter or local stands: in a temporary, or in a slot.
#[derive(Clone, Copy)]
pub enum LocalPlace {
    /// In the temporary of this number.
    Temp(u32),
    /// In the slot of this number.
    Slot(u32),
}

/// Where a scalar lvalue is: a temporary that keeps it, a global by its name, or what the address in a
/// temporary leads to.
#[derive(Drop)]
pub enum Target {
    /// The temporary of this number keeps it.
    Kept(u32),
    /// It is the global object of this name.
    Named(Name),
    /// The temporary of this number holds its address.
    Led(u32),
}

/// The blocks to which `break` and `continue` go.
#[derive(Clone, Copy)]
pub struct Ways {
    pub out: u32,
    pub on: u32,
}

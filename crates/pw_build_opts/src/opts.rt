//! The options of builds and of runs.

/// How a program is built: how many registers webs may have, 0 to 8, the bytes of the stack, and whether its flow graphs are
/// optimised.
#[derive(Clone, Copy)]
pub struct Opts {
    pub colours: u8,
    pub stack: u32,
    pub optimise: bool,
}

/// How a program is built, and for how many instructions it runs at most.
#[derive(Clone, Copy)]
pub struct RunOpts {
    pub build: Opts,
    pub budget: u64,
}

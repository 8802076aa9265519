//! Laws of the placed run by itself for the law of selection, without code: where its pointers lead, which calls are active, and in
//! which blocks its functions stand.
#![tactic(auto)]

ghost use Rattle.pw_law_select_known.specs.Laws.{ActiveCallsAreNoted, EndsNeverStop, EnteredFramesAreKnown, FunctionsStandInBlocks, OperationsKeepShape, OperationsNeverStop, PointersAreKnown, SlotsAreBehindGlobals, StartBytesAreKnown, WebsKeepShape, WebsNeverStop};

/// In each state of the placed run every pointer leads to an object that there has been, at an offset of 32 bits, or to a
/// function of the program; and slots have numbers behind those of global objects.
pub fn pointers_are_known()
    ensures known { PointersAreKnown }
    ensures slots { SlotsAreBehindGlobals }
{}

/// The calls that are active after what the placed run noted are those of the functions that are active.
pub fn active_calls_are_noted()
    ensures { ActiveCallsAreNoted }
{}

/// Functions that are active are those of the program, each somewhere in one of its blocks.
pub fn functions_stand_in_blocks()
    ensures { FunctionsStandInBlocks }
{}

/// An operation that calls nothing leaves which objects live and how long they are, and notes loads and stores alone.
pub fn operations_keep_shape()
    ensures { OperationsKeepShape }
{}

/// A web where it is loaded, or stored back, leaves which objects live and how long they are, and notes loads and
/// stores alone.
pub fn webs_keep_shape()
    ensures { WebsKeepShape }
{}

/// What stops the placed run is a call: no other operation, no web and no end of a block does.
pub fn calls_alone_stop()
    ensures operations { OperationsNeverStop }
    ensures webs { WebsNeverStop }
    ensures ends { EndsNeverStop }
{}

/// Where a function is entered, pointers in its frame and in those of all that wait lead somewhere.
pub fn entered_frames_are_known()
    ensures { EnteredFramesAreKnown }
{}

/// Pointers in the objects with which a run starts lead somewhere.
pub fn start_bytes_are_known()
    ensures { StartBytesAreKnown }
{}

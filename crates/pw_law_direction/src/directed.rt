//! Laws of the run of a program under directives, of that run alone, without code.

ghost use Rattle.pw_law_direction.specs.DirectedLaws.{CallsAreOfTheGraph, DirectionRestsOnRuns, OperationsCallByTheGraph, RegistersAreKept, StartIsNotCalled, TakenFunctionsAreFine, TrafficIsObeyed, ValuesAreFine};

/// No value of a run under directives is a pointer, or a piece of one, to a function whose address nothing takes or to a
/// global that a register may hold: neither in temporaries, registers and what is saved, nor in objects.
pub fn directed_values_are_fine()
    ensures { ValuesAreFine }
{}

/// A pointer to a function whose address is taken leads to no function whose address nothing takes: functions of one number
/// have one name.
pub fn taken_functions_are_fine()
    ensures { TakenFunctionsAreFine }
{}

/// No function of a lawful program calls `$start`, by its name or through a value.
pub fn start_is_not_called()
    ensures { StartIsNotCalled }
{}

/// An operation of a function under directives enters another function only if it is a call, and then one that the graph says
/// it calls, where the values of its temporaries are fine.
pub fn operations_call_by_the_graph()
    ensures { OperationsCallByTheGraph }
{}

/// Every call of a run under directives is a call of the program's graph: the active function calls by name what the graph
/// says, and through values only functions whose address is taken and whose shape is the call's.
pub fn directed_calls_are_of_the_graph()
    ensures { CallsAreOfTheGraph }
{}

/// Under sound directives what a run notes obeys the law of traffic: each covered global is loaded and stored by entries of
/// its webs alone, once a call, and nothing is called behind the store.
pub fn directed_runs_obey_traffic()
    ensures { TrafficIsObeyed }
{}

/// Under sound directives each register that a callee keeps holds on a return what it held at the call, but those of the
/// webs in which the function is a member.
pub fn directed_runs_keep_registers()
    ensures { RegistersAreKept }
{}

/// The law of direction follows from its first part, that the directed run keeps the flow run.
pub fn direction_rests_on_runs()
    ensures { DirectionRestsOnRuns }
{
    directed_calls_are_of_the_graph();
    directed_runs_keep_registers();
    directed_runs_obey_traffic();
}

//! Laws of what flow graphs, summaries and objects show to linking. A function here does nothing: its clauses are facts about all values.

ghost use Rattle.std.specs.Prelude.{◌↔◌, List, map};
ghost use Rattle.std.specs.List.{AllByRecursion};
ghost use Rattle.pw_value.specs.declared.fault.LinkFault.{LinkFault};
ghost use Rattle.pw_flow.specs.declared.flow.FlowModule.{FlowModule};
ghost use Rattle.pw_flow.specs.ValidFlow.{IsValid};
ghost use Rattle.pw_summary.specs.declared.summary.Summary.{Summary};
ghost use Rattle.pw_object.specs.declared.object.Object.{Object};
ghost use Rattle.pw_link_rules.specs.Linking.{Links, Refusal};
ghost use Rattle.pw_link_interface.specs.Interface.{interface};
ghost use Rattle.pw_graph.specs.Program.{AreLinked, AreRefused};
ghost use Rattle.pw_summarise.specs.Summarises.{Summarises};
ghost use Rattle.pw_law_shown.specs.Alike.{AreObjectsIn, AreSummariesOf, DeclaresMain, IsObjectIn, ShowModules, ShowsModule, shown};

/// Modules are refused alike by their lawful flow graphs and by their summaries: the linking tests over the ones and those over
/// the others come to one answer, and to one fault.
pub fn flow_graphs_and_summaries_are_refused_alike()
    ensures linked { (flows : List FlowModule) (ss : List Summary) →
        AllByRecursion IsValid flows → AreSummariesOf flows ss → Links (map shown flows) ↔ AreLinked ss }
    ensures refused { (flows : List FlowModule) (ss : List Summary) (fault : LinkFault) →
        AllByRecursion IsValid flows → AreSummariesOf flows ss → Refusal (map shown flows) fault ↔ AreRefused ss fault }
{}

/// Modules are refused alike by their summaries and by their objects: where each flow graph is lawful and declares the `main`
/// that it defines, and the second phase made the objects under directives whose webs are of globals of the program, the
/// linking tests over the summaries and those over the objects come to one answer, and to one fault. So it does not matter to
/// these tests that objects name the globals of webs besides, have functions and globals in another order, and the shape of
/// `main` by its declaration.
pub fn summaries_and_objects_are_refused_alike()
    ensures linked { (flows : List FlowModule) (ss : List Summary) (objects : List Object) →
        AllByRecursion IsValid flows → AllByRecursion DeclaresMain flows → AreSummariesOf flows ss → AreObjectsIn flows flows objects →
        AreLinked ss ↔ Links (map interface objects) }
    ensures refused { (flows : List FlowModule) (ss : List Summary) (objects : List Object) (fault : LinkFault) →
        AllByRecursion IsValid flows → AllByRecursion DeclaresMain flows → AreSummariesOf flows ss → AreObjectsIn flows flows objects →
        AreRefused ss fault ↔ Refusal (map interface objects) fault }
{}

/// An object that the second phase made shows what its module does; and where each object shows what its module does, whoever
/// made it, modules are refused alike by their summaries and by their objects.
pub fn objects_show_their_modules()
    ensures made { (program : List FlowModule) (flow : FlowModule) (s : Summary) (o : Object) →
        IsValid flow → Summarises flow s → IsObjectIn program flow o → ShowsModule program flow s o }
    ensures linked { (flows : List FlowModule) (ss : List Summary) (objects : List Object) →
        AllByRecursion IsValid flows → AllByRecursion DeclaresMain flows → AreSummariesOf flows ss → ShowModules flows flows ss objects →
        AreLinked ss ↔ Links (map interface objects) }
{}

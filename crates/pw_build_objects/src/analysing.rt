//! The database of modules, by their flow graphs.

ghost use Rattle.std.specs.Prelude.{◌≡◌, ◌⊎◌, ◌≤◌, IfErr, IfOk, OnOk};
ghost use Rattle.std.specs.List.{AllByRecursion};
ghost use Rattle.pw_flow.specs.ValidFlow.{IsValid};
ghost use Rattle.pw_summary.specs.Summary.{IsSummary};
ghost use Rattle.pw_db.specs.Database.{IsDatabase};
ghost use Rattle.pw_colour.specs.Colours.{IsDatabaseOf};
ghost use Rattle.pw_graph.specs.Program.{AreLinked, AreRefused};
ghost use Rattle.pw_build_objects.specs.Programs.{AreSummariesOf, BreakRule, HasDatabase, KeepRules};
ghost use Rattle.pw_db.specs.Limits.{colour_limit};

use pw_colour::analyse;
use pw_colour::laws::databases_are_lawful;
use pw_db::Database;
use pw_flow::FlowModule;
use pw_graph::build_graph;
use pw_summarise::summarise;
use pw_summary::Summary;
use pw_value::LinkFault;
use std::alloc::{AllocError, Global};

/// The summaries of flow graphs, in their order.
fn summaries_of(alloc: Global, flows: &[FlowModule]) -> Result<Vec<Summary>, AllocError>
    requires { AllByRecursion IsValid flows.now }
    ensures summaries { IfOk result (λ summaries. AreSummariesOf flows.now summaries.items) }
    ensures lawful { IfOk result (λ summaries. AllByRecursion IsSummary summaries.items) }
{
    let mut summaries = Vec::new(alloc);
    let mut rest = flows;
    while let [flow, after @ ..] = rest {
        summaries.push(summarise(alloc, flow)?)?;
        rest = after;
    }
    Ok(summaries)
}

/// The database of modules with these summaries, for so many registers; or which rule of linking they break.
fn database_of(alloc: Global, summaries: &[Summary], colours: u8) -> Result<Database, LinkFault>
    requires lawful { AllByRecursion IsSummary summaries.now }
    requires few { colours ≤ colour_limit }
    ensures database { IfOk result (λ db. IsDatabaseOf summaries.now colours db.functions) }
    ensures linked { OnOk result (AreLinked summaries.now) }
    ensures lawful { IfOk result (λ db. IsDatabase db.functions) }
    ensures refused { IfErr result (λ fault. (fault ≡ LinkFault.NoMemory) ⊎ AreRefused summaries.now fault) }
{
    databases_are_lawful();
    analyse(alloc, summaries, colours)
}

/// Looks whether modules keep the rules of linking, or which of them they break.
#[tactic(auto, using(crate::proofs::LoopLemmas::breaks_rule))]
pub fn look_at_rules(alloc: Global, flows: &[FlowModule]) -> Result<(), LinkFault>
    requires { AllByRecursion IsValid flows.now }
    ensures keep { OnOk result (KeepRules flows.now) }
    ensures refused { IfErr result (λ fault. (fault ≡ LinkFault.NoMemory) ⊎ BreakRule flows.now fault) }
{
    let summaries = summaries_of(alloc, flows)?;
    build_graph(alloc, &summaries)?;
    Ok(())
}

/// What the analyser made of modules, and the summaries by which it did.
#[derive(Drop)]
pub struct Analysed {
    pub database: Database,
    pub summaries: Vec<Summary>,
}

/// The database of the modules with these flow graphs, for so many registers, and their summaries; or which rule of linking
/// they break.
#[tactic(auto, using(crate::proofs::LoopLemmas::breaks_rule))]
pub fn analyse_flows(
    alloc: Global,
    flows: &[FlowModule],
    colours: u8,
) -> Result<Analysed, LinkFault>
    requires lawful { AllByRecursion IsValid flows.now }
    requires few { colours ≤ colour_limit }
    ensures database { IfOk result (λ made. HasDatabase flows.now colours made.database.functions) }
    ensures summaries { IfOk result (λ made. AreSummariesOf flows.now made.summaries.items) }
    ensures lawful { IfOk result (λ made. IsDatabase made.database.functions) }
    ensures refused { IfErr result (λ fault. (fault ≡ LinkFault.NoMemory) ⊎ BreakRule flows.now fault) }
{
    let summaries = summaries_of(alloc, flows)?;
    let database = database_of(alloc, &summaries, colours)?;
    Ok(Analysed {
        database,
        summaries,
    })
}

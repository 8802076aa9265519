//! The flow graphs of which a program is made: those of its modules, or their optimised forms.

ghost use Rattle.std.specs.Prelude.{◌≡◌, ◌++◌, ◌∷◌, [], ◌⊎◌, ◌≤◌, true, false, IfErr, IfOk, OnOk};
ghost use Rattle.std.specs.List.{AllByRecursion};
ghost use Rattle.pw_flow.specs.ValidFlow.{IsValid};
ghost use Rattle.pw_db.specs.Limits.{colour_limit};
ghost use Rattle.pw_law_opt.specs.Laws.{AreOptimisedModules};
ghost use Rattle.pw_build_objects.specs.Programs.{BreakRule};
ghost use Rattle.pw_build_objects.specs.Preparing.{IsPrepared};

use crate::analysing::{Analysed, analyse_flows, look_at_rules};
use crate::laws::forms_keep_what_modules_have;
use pw_build_opts::Opts;
use pw_flow::FlowModule;
use pw_link_rules::laws::modules_have_one_answer;
use pw_opt::optimise;
use pw_value::LinkFault;
use std::alloc::{AllocError, Global};

/// The flow graphs of which a program is made, and what the analyser made of them.
#[derive(Drop)]
pub struct Prepared {
    pub forms: Vec<FlowModule>,
    pub analysed: Analysed,
}

/// Puts a flow graph behind others.
fn push_form(forms: &mut Vec<FlowModule>, form: FlowModule) -> Result<(), AllocError>
    ensures { OnOk result (forms.new.items ≡ forms.old.items ++ form ∷ []) }
{
    forms.push(form)?;
    Ok(())
}

/// The optimised forms of modules, in their order.
fn optimised_forms(alloc: Global, flows: &[FlowModule]) -> Result<Vec<FlowModule>, AllocError>
    requires { AllByRecursion IsValid flows.now }
    ensures { IfOk result (λ forms. AreOptimisedModules flows.now forms.items) }
{
    let mut forms = Vec::new(alloc);
    for flow in flows {
        push_form(&mut forms, optimise(alloc, flow)?)?;
    }
    Ok(forms)
}

/// Modules as they are, for so many registers; or which rule of linking they break.
fn prepare_plain(alloc: Global, flows: Vec<FlowModule>, colours: u8) -> Result<Prepared, LinkFault>
    requires lawful { AllByRecursion IsValid flows.items }
    requires few { colours ≤ colour_limit }
    ensures prepared { IfOk result (IsPrepared flows.items false colours) }
    ensures refused { IfErr result (λ fault. (fault ≡ LinkFault.NoMemory) ⊎ BreakRule flows.items fault) }
{
    let analysed = analyse_flows(alloc, &flows, colours)?;
    Ok(Prepared {
        forms: flows,
        analysed,
    })
}

/// Modules in their optimised forms, for so many registers; or which rule of linking they break before they are optimised.
fn prepare_optimised(
    alloc: Global,
    flows: &[FlowModule],
    colours: u8,
) -> Result<Prepared, LinkFault>
    requires lawful { AllByRecursion IsValid flows.now }
    requires few { colours ≤ colour_limit }
    ensures prepared { IfOk result (IsPrepared flows.now true colours) }
    ensures refused { IfErr result (λ fault. (fault ≡ LinkFault.NoMemory) ⊎ BreakRule flows.now fault) }
{
    forms_keep_what_modules_have();
    modules_have_one_answer();
    look_at_rules(alloc, flows)?;
    let forms = optimised_forms(alloc, flows)?;
    let analysed = analyse_flows(alloc, &forms, colours)?;
    Ok(Prepared { forms, analysed })
}

/// The forms of modules, optimised if the options say so, and what the analyser makes of them; or which rule of linking the
/// modules break.
pub fn prepare(alloc: Global, flows: Vec<FlowModule>, opts: &Opts) -> Result<Prepared, LinkFault>
    requires lawful { AllByRecursion IsValid flows.items }
    requires few { opts.now.colours ≤ colour_limit }
    ensures prepared { IfOk result (IsPrepared flows.items opts.now.optimise opts.now.colours) }
    ensures refused { IfErr result (λ fault. (fault ≡ LinkFault.NoMemory) ⊎ BreakRule flows.items fault) }
{
    if opts.optimise {
        prepare_optimised(alloc, &flows, opts.colours)
    } else {
        prepare_plain(alloc, flows, opts.colours)
    }
}

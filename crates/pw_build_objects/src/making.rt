//! Programs, by the flow graphs of their modules and what was kept.

ghost use Rattle.std.specs.Prelude.{◌≡◌, ◌+◌, ◌⊎◌, ◌≤◌, Ok, Err, IfErr, IfOk, IfSome, IsTrue, OnOk, count_by, length, map};
ghost use Rattle.std.specs.List.{AllByRecursion};
ghost use Rattle.pw_flow.specs.ValidFlow.{IsValid};
ghost use Rattle.pw_db.specs.Database.{IsDatabase};
ghost use Rattle.pw_object.specs.Object.{IsObject};
ghost use Rattle.pw_image.specs.Image.{IsImage};
ghost use Rattle.pw_link.specs.Linking.{linked, AreLinked, IsRefusal};
ghost use Rattle.pw_link_interface.specs.Interface.{interface};
ghost use Rattle.pw_link_rules.specs.Linking.{Links};
ghost use Rattle.pw_law_shown.specs.Alike.{DeclaresMain};
ghost use Rattle.pw_build_objects.specs.Programs.{Completes, WasMade};
ghost use Rattle.pw_build_objects.specs.Choosing.{marks_of, objects_of, parts_of};
ghost use Rattle.pw_build_objects.specs.Counting.{CountsAnew, CountsUpTo};
ghost use Rattle.pw_db.specs.Limits.{colour_limit};

use crate::forms::prepare;
use crate::laws::forms_keep_what_modules_have;
use crate::objects::all_objects;
use crate::remade::Made;
use crate::shown::show_no_more;
use crate::steps::Steps;
use pw_build_opts::Opts;
use pw_db::Database;
use pw_flow::FlowModule;
use pw_image::Image;
use pw_law_link::laws::linked_images_are_lawful;
use pw_law_shown::objects_show_their_modules;
use pw_link::{link_checked, link_each};
use pw_object::Object;
use pw_value::LinkFault;
use std::alloc::{AllocError, Global};
use std::collections::VecDeque;
use std::sync::ledger::Ledger;

/// A program that was built: its database, the objects of its modules in their order, each with whether it was made anew, and
/// the image.
#[derive(Drop)]
pub struct Built {
    pub database: Database,
    pub made: Vec<Made>,
    pub image: Image,
}

/// The objects of modules, as they stand.
fn objects_in(alloc: Global, made: &[Made]) -> Result<Vec<&Object>, AllocError>
    ensures { IfOk result (λ objects. map (λ o. o.now) objects.items ≡ objects_of made.now) }
{
    let mut objects = Vec::new(alloc);
    for one in made {
        objects.push(&one.object)?;
    }
    Ok(objects)
}

/// The image of the objects of modules. They are known to keep the rules of linking where they show no more than their modules
/// do; else the rules are looked at.
fn image_of(
    alloc: Global,
    made: &[Made],
    show_no_more: bool,
    stack: u32,
) -> Result<Image, LinkFault>
    requires { IsTrue show_no_more → Links (map interface (objects_of made.now)) }
    ensures image { IfOk result (λ image. image ≡ linked (objects_of made.now) stack) }
    ensures accepted { OnOk result (AreLinked (objects_of made.now) stack) }
    ensures refused { IfErr result (λ fault. (fault ≡ LinkFault.NoMemory) ⊎ IsRefusal (objects_of made.now) stack fault) }
{
    let objects = objects_in(alloc, made)?;
    if show_no_more {
        link_checked(alloc, &objects, stack)
    } else {
        link_each(alloc, &objects, stack)
    }
}

/// Links the objects of a database, which keep the rules of linking where they show no more than their modules do.
fn linked(
    alloc: Global,
    database: Database,
    made: Vec<Made>,
    show_no_more: bool,
    stack: u32,
) -> Result<Built, LinkFault>
    requires lawful { AllByRecursion IsObject (objects_of made.items) }
    requires rules { IsTrue show_no_more → Links (map interface (objects_of made.items)) }
    ensures built { IfOk result (λ built. (built.database.functions ≡ database.functions) × (built.made.items ≡ made.items)) }
    ensures image { IfOk result (λ built. built.image ≡ linked (objects_of made.items) stack) }
    ensures lawful { IfOk result (λ built. IsImage built.image) }
    ensures accepted { OnOk result (AreLinked (objects_of made.items) stack) }
    ensures refused { IfErr result (λ fault. (fault ≡ LinkFault.NoMemory) ⊎ IsRefusal (objects_of made.items) stack fault) }
{
    linked_images_are_lawful();
    let image = image_of(alloc, &made, show_no_more, stack)?;
    Ok(Built {
        database,
        made,
        image,
    })
}

/// The program of modules with these flow graphs, each of which declares the `main` that it defines, under these options: for so
/// many registers and such a stack, of the flow graphs or of their optimised forms; or which rule of linking they break. What was kept of a module stands at its place in `kept`, which may end
/// early: a kept object stays where it was made of the same flow graph under the same directives. `steps` counts the objects
/// that are made anew, also where they are refused then.
pub fn complete<L: Ledger>(
    alloc: Global,
    flows: Vec<FlowModule>,
    kept: VecDeque<Option<Object>>,
    opts: &Opts,
    steps: &mut Steps<L>,
) -> Result<Built, LinkFault>
    requires lawful { AllByRecursion IsValid flows.items }
    requires kept { AllByRecursion (λ old. IfSome old IsObject) kept.items }
    requires few { opts.now.colours ≤ colour_limit }
    requires declares { AllByRecursion DeclaresMain flows.items }
    ensures built { IfOk result (λ built. Completes flows.items kept.items opts.now (Ok (parts_of built))) }
    ensures refused { IfErr result (λ fault. (fault ≡ LinkFault.NoMemory) ⊎ Completes flows.items kept.items opts.now (Err fault)) }
    ensures image { IfOk result (λ built. built.image ≡ linked (objects_of built.made.items) opts.now.stack) }
    ensures lawful_database { IfOk result (λ built. IsDatabase built.database.functions) }
    ensures lawful_objects { IfOk result (λ built. AllByRecursion IsObject (objects_of built.made.items)) }
    ensures were_made { IfOk result (λ built. AllByRecursion WasMade (objects_of built.made.items)) }
    ensures lawful_image { IfOk result (λ built. IsImage built.image) }
    ensures counted { IfOk result (λ built. steps.new ≡ steps.old + count_by (λ fresh. fresh) (marks_of built.made.items)) }
    ensures counted_fault { IfErr result (λ fault. (fault ≡ LinkFault.NoMemory) ⊎ CountsAnew flows.items kept.items opts.now steps.old steps.new) }
    ensures bound { CountsUpTo (length flows.items) steps.old steps.new }
{
    forms_keep_what_modules_have();
    objects_show_their_modules();
    let prepared = prepare(alloc, flows, opts)?;
    let analysed = prepared.analysed;
    let plain = show_no_more(alloc, &prepared.forms, &analysed.summaries, &kept);
    let made = all_objects(
        alloc,
        prepared.forms,
        analysed.summaries,
        kept,
        &analysed.database,
        steps,
    )?;
    linked(alloc, analysed.database, made, plain, opts.stack)
}

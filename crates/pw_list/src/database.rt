//! A database as text.

ghost use Rattle.std.specs.Prelude.{◌≡◌, ◌≤◌, ◌==◌, ◌++◌, List, length, drop, map, IfOk, OnOk, fold, codes};
ghost use Rattle.std.specs.List.{flat_map, prefix_len};
ghost use Rattle.std.specs.List.Sorted.{IsPermutation};
ghost use Rattle.std.specs.String.{string_bytes};
ghost use Rattle.std.specs.FinMap as finite;
ghost use Rattle.std.specs.Fmt.{decimal};
ghost use Rattle.pw_db.specs.declared.database.Role.TheVariants.{Entry, Member};
ghost use Rattle.pw_list.specs.DatabaseText.{access, text_of, uses, uses_of, web_line, webs_by_number, word_and_name};
ghost use Rattle.pw_list.specs.Gathering.{IsByNumber, behind, entry_view, prefix_of, is_of, lines_from, use_view, with_entry};

use crate::sharing::push_shared;
use pw_db::{Database, Directives, Role, Web};
use pw_value::Name;
use std::alloc::{AllocError, Global};
use std::collections::BTreeMap;

/// A function's use of a web, by the web's number.
#[derive(Clone, Copy)]
struct Use<'a> {
    id: u32,
    function: &'a Name,
}

/// The uses of webs by the functions that enter them, and by their other members.
#[derive(Drop)]
struct Uses<'a> {
    entries: Vec<Use<'a>>,
    members: Vec<Use<'a>>,
}

/// Adds the uses of webs by a function.
fn add_uses<'a>(uses: &mut Uses<'a>, function: &'a (Name, Directives)) -> Result<(), AllocError>
    ensures entries { OnOk result (map use_view uses.new.entries.items ≡ map use_view uses.old.entries.items ++ uses_of Entry function.now) }
    ensures members { OnOk result (map use_view uses.new.members.items ≡ map use_view uses.old.members.items ++ uses_of Member function.now) }
{
    let webs = function.1.webs.as_slice();
    for web in webs {
        let own = Use {
            id: web.0.id,
            function: &function.0,
        };
        match web.1 {
            Role::Entry => uses.entries.push(own)?,
            Role::Member => uses.members.push(own)?,
        }
    }
    Ok(())
}

/// The uses of webs by functions, in the functions' order.
fn all_uses(alloc: Global, functions: &[(Name, Directives)]) -> Result<Uses<'_>, AllocError>
    ensures entries { IfOk result (λ v. map use_view v.entries.items ≡ uses Entry functions.now) }
    ensures members { IfOk result (λ v. map use_view v.members.items ≡ uses Member functions.now) }
{
    let mut uses = Uses {
        entries: Vec::new(alloc),
        members: Vec::new(alloc),
    };
    for function in functions {
        add_uses(&mut uses, function)?;
    }
    Ok(uses)
}

/// Uses in the order of the webs' numbers; those of one web stay in their order.
fn by_number<'a>(mut uses: Vec<Use<'a>>) -> Result<Vec<Use<'a>>, AllocError>
    ensures order { IfOk result (λ v. IsByNumber (map use_view uses.entry.items) (map use_view v.items)) }
    ensures same { IfOk result (λ v. IsPermutation (map use_view uses.entry.items) (map use_view v.items)) }
{
    uses.sort_by_key(|own| own.id)?;
    Ok(uses)
}

/// Adds webs to those that are known by their numbers.
fn add_webs<'a>(
    known: &mut BTreeMap<u32, &'a Web>,
    webs: &'a [(Web, Role)],
) -> Result<(), AllocError>
    ensures { OnOk result (map entry_view known.new.entries ≡ fold with_entry (map entry_view known.old.entries) (map (λ w. w.0) webs.now)) }
{
    for web in webs {
        known.insert(web.0.id, &web.0)?;
    }
    Ok(())
}

/// The webs of functions by their numbers.
fn webs_of(
    alloc: Global,
    functions: &[(Name, Directives)],
) -> Result<BTreeMap<u32, &Web>, AllocError>
    ensures { IfOk result (λ webs. map entry_view webs.entries ≡ finite.entries (webs_by_number functions.now)) }
{
    let mut webs = BTreeMap::new(alloc);
    for function in functions {
        add_webs(&mut webs, function.1.webs.as_slice())?;
    }
    Ok(webs)
}

/// Puts names behind a text, each behind the same word.
fn push_names(out: &mut Vec<u8>, word: &[u8], uses: &[Use]) -> Result<(), AllocError>
    ensures { OnOk result (out.new.items ≡ out.old.items ++ flat_map (word_and_name word.now) (map (λ u. u.function.now) uses.now)) }
{
    for own in uses {
        out.extend_from_slice(word)?;
        out.extend_from_slice(own.function.as_bytes())?;
    }
    Ok(())
}

/// A web's register and whether it is written.
fn register_and_access(alloc: Global, web: &Web) -> Result<String, AllocError>
    ensures { IfOk result (λ s. string_bytes s ≡ codes " r" ++ decimal web.now.reg ++ access web.now.writes) }
{
    let access = if web.writes { "writes" } else { "reads" };
    format!(in alloc; " r{} {access}", web.reg)
}

/// Puts a web's line behind a text, with those who enter it and its other members.
#[tactic(auto, unfolding(crate::specs::DatabaseText::web_line))]
fn push_web(
    alloc: Global,
    out: &mut Vec<u8>,
    web: &Web,
    entries: &[Use],
    members: &[Use],
) -> Result<(), AllocError>
    ensures { OnOk result (out.new.items ≡ out.old.items ++ web_line web.now (map (λ u. u.function.now) entries.now) (map (λ u. u.function.now) members.now)) }
{
    out.extend_from_slice(web.global.as_bytes())?;
    out.extend_from_slice(register_and_access(alloc, web)?.as_bytes())?;
    push_names(out, b" entry ", entries)?;
    push_names(out, b" member ", members)?;
    out.extend_from_slice(b"\n")?;
    Ok(())
}

/// How many uses at the beginning are those of one web.
fn count_of(uses: &[Use], id: u32) -> usize
    ensures count { result ≡ prefix_len (λ u. u.id == id) uses.now }
    ensures within { result ≤ length uses.now }
{
    uses.iter().take_while(|own| own.id == id).count()
}

/// The uses of one web that stand from a place on.
fn uses_at<'u, 'a>(uses: &'u [Use<'a>], start: usize, id: u32) -> &'u [Use<'a>]
    requires { start ≤ length uses.now }
    ensures { map use_view result.now ≡ prefix_of id (drop start (map use_view uses.now)) }
{
    let (_, later) = uses.split_at(start);
    later.split_at(count_of(later, id)).0
}

/// Puts webs' lines behind a text. The uses stand in the order of the webs' numbers.
fn push_webs(
    alloc: Global,
    out: &mut Vec<u8>,
    webs: BTreeMap<u32, &Web>,
    uses: &Uses,
) -> Result<(), AllocError>
    ensures { OnOk result (out.new.items ≡ out.old.items ++ lines_from (map (λ e. e.1.now) webs.entry.entries) (map use_view uses.now.entries.items) (map use_view uses.now.members.items)) }
{
    let mut first_entry = 0;
    let mut first_member = 0;
    for web in webs.into_values() {
        let entries = uses_at(&uses.entries, first_entry, web.id);
        let members = uses_at(&uses.members, first_member, web.id);
        push_web(alloc, out, web, entries, members)?;
        first_entry += entries.len();
        first_member += members.len();
    }
    Ok(())
}

/// The text of a database: for each web, by number, a line with its global, its register and whether it is written,
/// then each function that enters it, and each other member; and behind these for each function a line with the registers
/// that it saves for others, and one with those that it is free to use, each where there are some.
///
/// Functions stand in byte order in each group. Fails only where memory runs out.
pub fn db_text(alloc: Global, db: &Database) -> Result<Vec<u8>, AllocError>
    ensures { IfOk result (λ text. text.items ≡ text_of db.now.functions) }
{
    let functions = db.functions.as_slice();
    let webs = webs_of(alloc, functions)?;
    let Uses { entries, members } = all_uses(alloc, functions)?;
    let uses = Uses {
        entries: by_number(entries)?,
        members: by_number(members)?,
    };
    let mut text = Vec::new(alloc);
    push_webs(alloc, &mut text, webs, &uses)?;
    push_shared(alloc, &mut text, functions)?;
    Ok(text)
}

//! Directives that are read.

ghost use Rattle.std.specs.Prelude.{◌≡◌, ◌≤◌, ◌<◌, ◌+◌, ◌++◌, ◌∷◌, [], None, Ok, Some, if◌then◌else◌, is_some, not, option_map, reverse, IfOk, IfErr, MatchResult};
ghost use Rattle.pw_cpp_directives.specs.Obeying.{AnswersEffect, IsBeside, IsDoneBy, IsFaultOf, IsJudgedBy, IsKept, OpensIf, standing_of};
ghost use Rattle.pw_cpp_directives.specs.Conditions.{Judges};
ghost use Rattle.pw_cpp_directives.specs.Directives as spec;
ghost use Rattle.pw_cpp_directives.specs.Directives.{TurnsElif};
ghost use Rattle.pw_cpp_expand.specs.Expansion.{produced_limit};
ghost use Rattle.pw_cpp_expand.specs.Numbered.{HaveEmpty};
ghost use Rattle.pw_cpp_macros.specs.Definitions.{definition_of};
ghost use Rattle.pw_cpp_macros.specs.Macros.{defined, find};
ghost use Rattle.pw_cpp_sets.specs.Sets.{Keeps};

use crate::condition::{Digits, Verdict, judge};
use crate::fault::{CppKind, CppWhich};
use crate::groups::{Section, opened, with_elif, with_else};
use pw_cpp_expand::{ExpandFault, OUTPUT_LIMIT, PRODUCED_LIMIT, Progress};
use pw_cpp_macros::{
    DefineFault, Definition, MACRO_LIMIT, MacroFault, Macros, PARAMETER_LIMIT, definition_of,
    is_word, spelled,
};
use pw_cpp_sets::Sets;
use pw_items::Items;
use pw_token::Token;
use std::alloc::Global;

/// What is wrong, and at which place of the source.
#[derive(Drop)]
pub struct Fault {
    pub kind: CppKind,
    pub place: usize,
}

/// The fault of a kind at a place, which counts bytes of the source of all files.
pub fn faulty(kind: CppKind, place: usize) -> Fault
    ensures { result ≡ spec.fault kind place }
{
    Fault { kind, place }
}

/// The fault of a limit: the number is the first that passes it.
pub fn limit(which: CppWhich, most: usize, place: usize) -> Fault
    requires { most < u64.MAX }
    ensures { result ≡ spec.fault (CppKind.Limit which (most + 1)) place }
{
    Fault {
        kind: CppKind::Limit(which, most as u64 + 1),
        place,
    }
}

/// Why an expansion stopped, as a fault of the source: a piece that is no token, a wrong call of a macro, or a passed
/// limit, each at its own place; want of memory has none, and stands at 0.
pub fn of_expansion(fault: ExpandFault) -> Fault
    ensures { result ≡ spec.fault_of_expansion fault }
{
    match fault {
        ExpandFault::Lex { at } => faulty(CppKind::Lex, at),
        ExpandFault::Call { at } => faulty(CppKind::Macro, at),
        ExpandFault::Produced { at } => limit(CppWhich::Produced, PRODUCED_LIMIT, at),
        ExpandFault::Length { at } => limit(CppWhich::Length, OUTPUT_LIMIT, at),
        ExpandFault::NoMemory => faulty(CppKind::NoMemory, 0),
    }
}

fn of_definition(fault: DefineFault, place: usize) -> Fault
    ensures { result ≡ spec.fault (spec.kind_of_define fault) place }
{
    match fault {
        DefineFault::Form => faulty(CppKind::Directive, place),
        DefineFault::Repeated | DefineFault::Hash => faulty(CppKind::Macro, place),
        DefineFault::TooMany => limit(CppWhich::Parameters, PARAMETER_LIMIT, place),
        DefineFault::NoMemory => faulty(CppKind::NoMemory, place),
    }
}

fn of_macro(fault: MacroFault, place: usize) -> Fault
    ensures { result ≡ spec.fault (spec.kind_of_macro fault) place }
{
    match fault {
        MacroFault::Differs => faulty(CppKind::Macro, place),
        MacroFault::Full => limit(CppWhich::Macros, MACRO_LIMIT, place),
        MacroFault::NoMemory => faulty(CppKind::NoMemory, place),
    }
}

/// What directives change.
#[derive(Drop)]
pub struct Standing<'a> {
    pub macros: Macros<'a>,
    pub sets: Sets<'a>,
    /// The open sections of the file at hand, the innermost last.
    pub sections: Items<Section>,
    /// Of the sections that are open within a group that is passed over, whether their `#else` was read, the innermost last.
    pub nested: Items<bool>,
    /// How many tokens replacements have produced.
    pub produced: usize,
}

/// A word that has a meaning of its own, besides `pragma` and `include`.
#[derive(Clone, Copy)]
pub enum Word {
    /// `define`
    Define,
    /// `undef`
    Undef,
    /// `if`
    If,
    /// `ifdef`
    Ifdef,
    /// `ifndef`
    Ifndef,
    /// `elif`
    Elif,
    /// `else`
    Else,
    /// `endif`
    Endif,
    /// `error`
    Error,
}

fn word_of(name: &[u8]) -> Option<Word>
    ensures { result ≡ spec.word_of name.now }
{
    if name == b"define".as_slice() {
        return Some(Word::Define);
    }
    if name == b"undef".as_slice() {
        return Some(Word::Undef);
    }
    if name == b"if".as_slice() {
        return Some(Word::If);
    }
    if name == b"ifdef".as_slice() {
        return Some(Word::Ifdef);
    }
    if name == b"ifndef".as_slice() {
        return Some(Word::Ifndef);
    }
    if name == b"elif".as_slice() {
        return Some(Word::Elif);
    }
    if name == b"else".as_slice() {
        return Some(Word::Else);
    }
    if name == b"endif".as_slice() {
        return Some(Word::Endif);
    }
    if name == b"error".as_slice() {
        return Some(Word::Error);
    }
    None
}

/// A directive: its name, the tokens behind it, and the place of its `#`.
#[derive(Clone, Copy)]
pub struct Directive<'t> {
    pub name: &'t [u8],
    pub tokens: &'t [Token],
    pub hash: usize,
}

#[tactic(auto, using(crate::proofs::Names::one_name_other, crate::proofs::Names::one_name_word, crate::proofs::Names::one_name_none))]
fn one_name<'a>(source: &'a [u8], tokens: &[Token]) -> Option<&'a [u8]>
    ensures { option_map (λ name. name.now) result ≡ spec.one_name source.now tokens.now }
{
    if tokens.len() != 1 {
        return None;
    }
    let token = tokens[0];
    if !is_word(token) {
        return None;
    }
    Some(spelled(source, token))
}

/// The name that `#undef`, `#ifdef` or `#ifndef` has.
fn name_of<'a>(source: &'a [u8], d: Directive<'_>) -> Result<&'a [u8], Fault>
    ensures { MatchResult result (λ name. spec.one_name source.now d.entry.tokens.now ≡ Some name.now) (λ fault. (spec.one_name source.now d.entry.tokens.now ≡ None) × (fault ≡ spec.fault CppKind.Directive d.entry.hash)) }
{
    match one_name(source, d.tokens) {
        Some(name) => Ok(name),
        None => Err(faulty(CppKind::Directive, d.hash)),
    }
}

/// The definition that a `#define` says.
fn definition(alloc: Global, source: &[u8], d: Directive<'_>) -> Result<Definition, Fault>
    ensures found { IfOk result (λ found. definition_of source.now d.entry.tokens.now ≡ Ok found) }
    ensures fault { IfErr result (λ fault. (s : spec.Standing) → IsFaultOf fault (λ f. spec.Fails f ≡ spec.with_definition source.now s d.entry.hash (definition_of source.now d.entry.tokens.now))) }
{
    match definition_of(alloc, source, d.tokens) {
        Ok(found) => Ok(found),
        Err(fault) => Err(of_definition(fault, d.hash)),
    }
}

impl<'a> Standing<'a> {
    /// Adds the macro of a definition.
    fn add(&mut self, source: &'a [u8], definition: Definition, place: usize) -> Result<(), Fault>
        ensures does { IsDoneBy (λ effect. effect ≡ spec.with_macros (standing_of self.old) place (defined source.now self.old.macros definition)) self.new result }
        ensures beside { IsBeside self.old self.new }
    {
        match self.macros.define(source, definition) {
            Ok(()) => Ok(()),
            Err(fault) => Err(of_macro(fault, place)),
        }
    }

    fn define(&mut self, alloc: Global, source: &'a [u8], d: Directive<'_>) -> Result<(), Fault>
        ensures does { IsDoneBy (λ effect. effect ≡ spec.with_definition source.now (standing_of self.old) d.entry.hash (definition_of source.now d.entry.tokens.now)) self.new result }
        ensures beside { IsBeside self.old self.new }
    {
        let found = definition(alloc, source, d)?;
        self.add(source, found, d.hash)
    }

    fn undefine(&mut self, source: &'a [u8], d: Directive<'_>) -> Result<(), Fault>
        ensures does { IsDoneBy (λ effect. effect ≡ spec.with_undefined (standing_of self.old) d.entry.hash (spec.one_name source.now d.entry.tokens.now)) self.new result }
        ensures beside { IsBeside self.old self.new }
    {
        let name = name_of(source, d)?;
        self.macros.undefine(name);
        Ok(())
    }

    /// Opens a section that is taken where a name is a macro's, or where it is none.
    fn test(&mut self, wanted: bool, source: &'a [u8], d: Directive<'_>) -> Result<(), Fault>
        ensures does { IsDoneBy (λ effect. effect ≡ spec.with_test wanted (standing_of self.old) d.entry.hash (spec.one_name source.now d.entry.tokens.now)) self.new result }
        ensures beside { IsBeside self.old self.new }
    {
        let name = name_of(source, d)?;
        let holds = self.is_as_wanted(wanted, name);
        self.open(opened(holds), d.hash)
    }

    /// Whether a name is a macro's, or whether it is none.
    fn is_as_wanted(&self, wanted: bool, name: &[u8]) -> bool
        ensures { result ≡ (if wanted then is_some (find self.now.macros name.now) else not (is_some (find self.now.macros name.now))) }
    {
        match self.macros.find(name) {
            Some(_) => wanted,
            None => !wanted,
        }
    }

    /// Puts a section within the others.
    fn open(&mut self, section: Section, place: usize) -> Result<(), Fault>
        ensures opened { IfOk result (λ _. self.new ≡ record self.old { sections = self.old.sections ++ section ∷ [] }) }
        ensures fault { IfErr result (λ fault. fault.kind ≡ CppKind.NoMemory) }
        ensures beside { IsBeside self.old self.new }
    {
        match self.sections.push(section) {
            Ok(()) => Ok(()),
            Err(_) => Err(faulty(CppKind::NoMemory, place)),
        }
    }

    /// Whether the condition of a directive holds.
    fn holds(
        &mut self,
        alloc: Global,
        source: &'a [u8],
        digits: Digits,
        d: Directive<'_>,
    ) -> Result<bool, Fault>
        requires limits { self.old.produced ≤ produced_limit }
        requires empty { HaveEmpty self.old.sets }
        ensures judges { IsJudgedBy (Judges source.now self.old.macros digits d.entry.tokens.now self.old.produced) d.entry.hash self.new.produced result }
        ensures keeps { IfOk result (λ _. Keeps self.old.sets self.new.sets) }
        ensures limits { IfOk result (λ _. self.new.produced ≤ produced_limit) }
        ensures rest { self.new ≡ record self.old { sets = self.new.sets; produced = self.new.produced } }
    {
        let mut progress = Progress {
            next: 0,
            rows: Items::new(alloc),
            produced: self.produced,
            size: 0,
        };
        let sets = &mut self.sets;
        let verdict = match judge(
            alloc,
            source,
            &self.macros,
            sets,
            digits,
            d.tokens,
            &mut progress,
        ) {
            Ok(verdict) => verdict,
            Err(fault) => return Err(of_expansion(fault)),
        };
        self.produced = progress.produced;
        match verdict {
            Verdict::Holds(holds) => Ok(holds),
            Verdict::Faulty => Err(faulty(CppKind::Condition, d.hash)),
        }
    }

    /// Opens a section that is taken where a condition holds.
    fn begin(
        &mut self,
        alloc: Global,
        source: &'a [u8],
        digits: Digits,
        d: Directive<'_>,
    ) -> Result<(), Fault>
        requires limits { self.old.produced ≤ produced_limit }
        requires empty { HaveEmpty self.old.sets }
        ensures does { IsDoneBy (OpensIf source.now digits (standing_of self.old) d.entry.hash d.entry.tokens.now) self.new result }
        ensures kept { IfOk result (λ _. IsKept self.old self.new) }
    {
        let holds = self.holds(alloc, source, digits, d)?;
        self.open(opened(holds), d.hash)
    }

    /// Goes on with another group of the innermost section.
    fn turn_elif(
        &mut self,
        alloc: Global,
        source: &'a [u8],
        digits: Digits,
        d: Directive<'_>,
    ) -> Result<(), Fault>
        requires limits { self.old.produced ≤ produced_limit }
        requires empty { HaveEmpty self.old.sets }
        ensures does { IsDoneBy (TurnsElif source.now digits (standing_of self.old) d.entry.hash d.entry.tokens.now (reverse self.old.sections)) self.new result }
        ensures kept { IfOk result (λ _. IsKept self.old self.new) }
    {
        let section = self.innermost(d)?;
        if section.behind_else {
            return Err(faulty(CppKind::Condition, d.hash));
        }
        if section.taken {
            return self.open(with_elif(false, section), d.hash);
        }
        let holds = self.holds(alloc, source, digits, d)?;
        self.open(with_elif(holds, section), d.hash)
    }

    fn turn_else(&mut self, d: Directive<'_>) -> Result<(), Fault>
        ensures does { IsDoneBy (λ effect. effect ≡ spec.else_effect (standing_of self.old) d.entry.hash d.entry.tokens.now (reverse self.old.sections)) self.new result }
        ensures beside { IsBeside self.old self.new }
    {
        if !d.tokens.is_empty() {
            return Err(faulty(CppKind::Directive, d.hash));
        }
        let section = self.innermost(d)?;
        if section.behind_else {
            return Err(faulty(CppKind::Condition, d.hash));
        }
        self.open(with_else(section), d.hash)
    }

    fn end(&mut self, d: Directive<'_>) -> Result<(), Fault>
        ensures does { IsDoneBy (λ effect. effect ≡ spec.endif_effect (standing_of self.old) d.entry.hash d.entry.tokens.now (reverse self.old.sections)) self.new result }
        ensures beside { IsBeside self.old self.new }
    {
        if !d.tokens.is_empty() {
            return Err(faulty(CppKind::Directive, d.hash));
        }
        self.innermost(d)?;
        Ok(())
    }

    /// Takes the innermost section off the others.
    fn innermost(&mut self, d: Directive<'_>) -> Result<Section, Fault>
        ensures taken { IfOk result (λ section. self.old ≡ record self.new { sections = self.new.sections ++ section ∷ [] }) }
        ensures fault { IfErr result (λ fault. (self.old.sections ≡ []) × (fault ≡ spec.fault CppKind.Condition d.entry.hash)) }
        ensures beside { IsBeside self.old self.new }
    {
        match self.sections.pop() {
            Some(section) => Ok(section),
            None => Err(faulty(CppKind::Condition, d.hash)),
        }
    }

    /// Does what a directive says, but for `#include` and `#pragma`.
    pub fn obey(
        &mut self,
        alloc: Global,
        source: &'a [u8],
        digits: Digits,
        d: Directive<'_>,
    ) -> Result<(), Fault>
        requires limits { self.old.produced ≤ produced_limit }
        requires empty { HaveEmpty self.old.sets }
        ensures obeys { AnswersEffect source.now digits d.entry self.old self.new result }
        ensures kept { IfOk result (λ _. IsKept self.old self.new) }
    {
        let found = word_of(d.name);
        let Some(word) = found else {
            return Err(faulty(CppKind::Directive, d.hash));
        };
        match word {
            Word::Define => self.define(alloc, source, d),
            Word::Undef => self.undefine(source, d),
            Word::Ifdef => self.test(true, source, d),
            Word::Ifndef => self.test(false, source, d),
            Word::If => self.begin(alloc, source, digits, d),
            Word::Elif => self.turn_elif(alloc, source, digits, d),
            Word::Else => self.turn_else(d),
            Word::Endif => self.end(d),
            Word::Error => Err(faulty(CppKind::Error, d.hash)),
        }
    }
}

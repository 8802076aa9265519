//! Files, line by line.

ghost use Rattle.std.specs.Prelude.{◌≡◌, ◌≤◌, ◌<◌, ◌+◌, ℕ, List, [], length, slice_get, if◌then◌else◌, Some, None, IfOk};
ghost use Rattle.pw_cpp.specs.Answers.{AnswersFile, AnswersStep, DoesInclude, DoesLine, DoesQuoted, IsAt, IsFirst, IsRead, IsUnquoted, IsWithin, Keeps, number_from, reads_of};
ghost use Rattle.pw_cpp.specs.Files.{IncludesHeader, ReadsFile, is_wrong_include, quoted_name};
ghost use Rattle.pw_cpp_lines.specs.Heads.{IsHead};
ghost use Rattle.pw_cpp_sources.specs.Sources.{File, digits_of, is_header};
ghost use Rattle.pw_cpp_directives.specs.Directives.{fault};
ghost use Rattle.pw_cpp_directives.specs.Obeying.{IsFaultOf};

use crate::reader::{Reader, bytes_before, name_in, no_memory};
use crate::way::{Way, way_of};
use pw_cpp_directives::{CppKind, CppWhich, Fault, faulty, limit};
use pw_cpp_lines::{
    Head, Line, Span, head_of, header_name, heads_stand_behind, lines_go_on, pass_line, pass_rest,
    pass_space,
};
use pw_cpp_sources::{DEPTH_LIMIT, HEADER_NAME_LIMIT, Place, is_header};
use pw_items::Items;
use pw_token::TEXT_LIMIT;
use pw_value::Name;
use std::alloc::Global;

/// The place of a file by its number.
#[tactic(auto, using(std::proofs::lemmas::Option::slice_get_read, std::proofs::lemmas::Option::slice_get_past))]
pub fn place_at(spans: &[Place], number: usize) -> Option<Place>
    ensures { result ≡ slice_get spans.now number }
{
    if number < spans.len() {
        Some(spans[number])
    } else {
        None
    }
}

/// The name of the header that stands in quotes at a place, if one does.
fn quoted_at(text: &[u8], start: usize) -> Option<Span>
    ensures { result ≡ quoted_name text.now start }
{
    if start < text.len() {
        header_name(text, start)
    } else {
        None
    }
}

/// Whether a header's name is empty or too long, or tokens stand behind it.
fn is_wrong(name: Span, line: &Line) -> bool
    ensures { result ≡ is_wrong_include name line.now }
{
    name.len == 0 || HEADER_NAME_LIMIT < name.len || 0 < line.tokens.len()
}

/// The fault of an include whose header is missing.
fn missing(alloc: Global, name: &[u8], hash: usize) -> Fault
    ensures { IsFaultOf result (λ f. f ≡ fault (CppKind.Include name.now) hash) }
{
    if name.is_empty() || HEADER_NAME_LIMIT < name.len() {
        return no_memory(hash);
    }
    match Name::within(alloc, name) {
        Ok(name) => faulty(CppKind::Include(name), hash),
        Err(_) => no_memory(hash),
    }
}

impl<'a> Reader<'a> {
    /// The number of the file of this name.
    pub fn file_named(&self, name: &[u8]) -> Option<usize>
        ensures { result ≡ number_from 0 self.now.files.now name.now }
    {
        let mut number = 0;
        let files = self.files;
        for (other, _) in files {
            if name == other.as_bytes() {
                return Some(number);
            }
            number += 1;
        }
        None
    }

    /// The number of the header of this name.
    fn header(&self, name: &[u8]) -> Option<usize>
        ensures { result ≡ (if is_header name.now then number_from 0 self.now.files.now name.now else None) }
    {
        if is_header(name) {
            self.file_named(name)
        } else {
            None
        }
    }

    /// The fault of an include whose header does not stand in quotes.
    fn unquoted(&self, text: &[u8], hash: usize, behind: usize) -> Fault
        requires place { behind ≤ length text.now }
        ensures { IsUnquoted text.now hash behind result }
    {
        match self.lexed(text, behind) {
            Ok(_) => faulty(CppKind::Directive, hash),
            Err(fault) => fault,
        }
    }

    /// Reads a file at a depth of includes, where no section is open.
    #[cycle(files)]
    pub fn read_file(&mut self, number: usize, depth: usize) -> Result<(), Fault>
        requires depth { depth ≤ DEPTH_LIMIT }
        requires matched { length self.old.files.now ≡ length self.old.spans.now }
        requires bare { self.old.standing.sections ≡ [] }
        requires within { IsWithin self.old }
        ensures keeps { Keeps self.old self.new }
        ensures within { IfOk result (λ _. IsWithin self.new) }
        ensures reads { (file : File) → slice_get (reads_of self.old) number ≡ Some file → IsFirst self.old file → AnswersFile self.old self.new (ReadsFile self.old.source.now (reads_of self.old) digits_of depth file) result }
    {
        let Some(span) = place_at(self.spans, number) else {
            return Err(no_memory(0));
        };
        self.file = number;
        if TEXT_LIMIT < span.end.saturating_sub(span.from) {
            return Err(limit(CppWhich::Length, TEXT_LIMIT, span.from));
        }
        let text = bytes_before(self.source, span.end);
        let mut at = span.from;
        while at < text.len() {
            let next = self.read_line(text, at, depth)?;
            at = next;
        }
        if !self.standing.sections.is_empty() {
            return Err(faulty(CppKind::Condition, span.end));
        }
        Ok(())
    }

    /// Reads the line that begins at a place, and answers where the next one begins.
    #[cycle(files)]
    fn read_line(&mut self, text: &'a [u8], at: usize, depth: usize) -> Result<usize, Fault>
        requires place { at < length text.now }
        requires depth { depth ≤ DEPTH_LIMIT }
        requires matched { length self.old.files.now ≡ length self.old.spans.now }
        requires within { IsWithin self.old }
        ensures keeps { Keeps self.old self.new }
        ensures within { IfOk result (λ next. IsWithin self.new × (next ≤ length text.now) × (at < next)) }
        ensures steps { (file : File) → IsRead self.old file text.now → AnswersStep self.old self.new (DoesLine self.old.source.now (reads_of self.old) digits_of depth file at) result }
    {
        heads_stand_behind();
        lines_go_on();
        match head_of(text, at) {
            Head::Marker { hash } => Ok(pass_rest(text, hash)),
            Head::Text => {
                if self.is_reading() {
                    self.read_text(text, at)
                } else {
                    Ok(pass_line(text, at))
                }
            }
            Head::Directive { hash, name } => match way_of(self, name_in(text, name)) {
                Way::Pragma => Ok(pass_rest(text, name.at + name.len)),
                Way::Include => self.include(text, at, hash, name, depth),
                Way::Whole => self.obey(text, hash, name),
                Way::Passed => self.pass_directive(text, at, hash, name),
            },
        }
    }

    /// Reads the header of an include that is there, and answers where the next line begins.
    #[cycle(files)]
    fn read_header(
        &mut self,
        number: usize,
        depth: usize,
        hash: usize,
        next: usize,
    ) -> Result<usize, Fault>
        requires depth { depth ≤ DEPTH_LIMIT }
        requires matched { length self.old.files.now ≡ length self.old.spans.now }
        requires within { IsWithin self.old }
        ensures keeps { Keeps self.old self.new }
        ensures within { IfOk result (λ answer. IsWithin self.new × (answer ≡ next)) }
        ensures steps { (file inner : File) (name : List ℕ) → IsAt self.old file → slice_get (reads_of self.old) number ≡ Some inner → IsFirst self.old inner → AnswersStep self.old self.new (λ r step. IncludesHeader self.old.source.now (reads_of self.old) digits_of depth file r hash next name (Some inner) step) result }
    {
        if DEPTH_LIMIT <= depth {
            return Err(limit(CppWhich::Depth, DEPTH_LIMIT, hash));
        }
        let file = self.file;
        let mut outer = Items::new(self.alloc);
        std::mem::swap(&mut outer, &mut self.standing.sections);
        self.read_file(number, depth + 1)?;
        self.standing.sections = outer;
        self.file = file;
        Ok(next)
    }

    /// Reads the header whose name stands in quotes.
    #[cycle(files)]
    fn quoted(
        &mut self,
        text: &'a [u8],
        hash: usize,
        name: Span,
        depth: usize,
    ) -> Result<usize, Fault>
        requires place { name.at + name.len < length text.now }
        requires depth { depth ≤ DEPTH_LIMIT }
        requires matched { length self.old.files.now ≡ length self.old.spans.now }
        requires within { IsWithin self.old }
        ensures keeps { Keeps self.old self.new }
        ensures within { IfOk result (λ next. IsWithin self.new × (next ≤ length text.now) × (name.at + name.len < next)) }
        ensures steps { (file : File) → IsRead self.old file text.now → AnswersStep self.old self.new (DoesQuoted self.old.source.now (reads_of self.old) digits_of depth file hash name) result }
    {
        let line = self.lexed(text, name.at + name.len + 1)?;
        let next = line.next;
        if is_wrong(name, &line) {
            return Err(faulty(CppKind::Directive, hash));
        }
        let bytes = name_in(text, name);
        let Some(number) = self.header(bytes) else {
            return Err(missing(self.alloc, bytes, hash));
        };
        self.read_header(number, depth, hash, next)
    }

    /// Reads the header that an include names.
    #[cycle(files)]
    fn include(
        &mut self,
        text: &'a [u8],
        at: usize,
        hash: usize,
        name: Span,
        depth: usize,
    ) -> Result<usize, Fault>
        requires place { at < length text.now }
        requires depth { depth ≤ DEPTH_LIMIT }
        requires matched { length self.old.files.now ≡ length self.old.spans.now }
        requires head { IsHead text.now at (Head.Directive hash name) }
        requires within { IsWithin self.old }
        ensures keeps { Keeps self.old self.new }
        ensures within { IfOk result (λ next. IsWithin self.new × (next ≤ length text.now) × (at < next)) }
        ensures steps { (file : File) → IsRead self.old file text.now → AnswersStep self.old self.new (DoesInclude self.old.source.now (reads_of self.old) digits_of depth file hash name) result }
    {
        heads_stand_behind();
        let behind = name.at + name.len;
        let start = pass_space(text, behind);
        let Some(header) = quoted_at(text, start) else {
            return Err(self.unquoted(text, hash, behind));
        };
        self.quoted(text, hash, header, depth)
    }
}

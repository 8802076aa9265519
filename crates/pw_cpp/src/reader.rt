//! What is read, and what came of it.

ghost use Rattle.std.specs.Prelude.{◌≡◌, ◌≤◌, ◌<◌, take, length, reverse, IfOk, []};
ghost use Rattle.pw_cpp.specs.Answers.{AnswersStep, AnswersText, AnswersTokens, DoesPassed, DoesText, DoesTokens, DoesWhole, IsLexed, IsRead, IsSame, IsStill, IsWithin, Keeps};
ghost use Rattle.pw_cpp.specs.Files.{name_of};
ghost use Rattle.pw_cpp_directives.specs.Directives.{fault};
ghost use Rattle.pw_cpp_directives.specs.Groups.{is_reading};
ghost use Rattle.pw_cpp_expand.specs.AtHand.{IsWithinLimits};
ghost use Rattle.pw_cpp_expand.specs.Numbered.{HaveEmpty};
ghost use Rattle.pw_cpp_lines.specs.Heads.{IsHead};
ghost use Rattle.pw_cpp_lines.specs.Lines.{IsBehind};
ghost use Rattle.pw_cpp_sources.specs.Sources.{File, digits_of};

use crate::passing::pass_name;
use pw_cpp_directives::{CppKind, Directive, Fault, Standing, faulty, of_expansion};
use pw_cpp_expand::{
    ExpandFault, Lexeme, Progress, expand_text, line_in_order, read_line, text_goes_on,
    tokens_in_order,
};
use pw_cpp_lines::{Head, Line, LineFault, Span, lex_line, lines_go_on, pass_line};
use pw_cpp_sources::{Place, digits, put_rows};
use pw_items::Items;
use pw_token::{Token, text_from};
use pw_value::Name;
use std::alloc::{AllocError, Global};

/// What is read, and what came of it.
#[derive(Drop)]
pub struct Reader<'a> {
    pub alloc: Global,
    pub source: &'a [u8],
    pub files: &'a [(Name, Vec<u8>)],
    pub spans: &'a [Place],
    /// The number of the file at hand.
    pub file: usize,
    pub standing: Standing<'a>,
    pub out: Vec<u8>,
    /// What the output takes, as expansion counts it.
    pub size: usize,
}

/// The fault of memory that was refused, at a place of the source.
pub fn no_memory(place: usize) -> Fault
    ensures { result ≡ fault CppKind.NoMemory place }
{
    faulty(CppKind::NoMemory, place)
}

/// The first bytes of some, as many as `count` says or as there are.
pub fn bytes_before(bytes: &[u8], count: usize) -> &[u8]
    ensures { result.now ≡ take count bytes.now }
{
    if count < bytes.len() {
        &bytes[..count]
    } else {
        bytes
    }
}

/// The bytes of a name that stands at a span of a text, as far as the text goes.
pub fn name_in(text: &[u8], name: Span) -> &[u8]
    ensures { result.now ≡ name_of text.now name }
{
    bytes_before(text_from(text, name.at), name.len)
}

/// What a text line comes to, with what its calls read further.
fn expanded<'a>(
    alloc: Global,
    source: &'a [u8],
    text: &'a [u8],
    at: usize,
    standing: &mut Standing<'a>,
    progress: &mut Progress,
) -> Result<Items<Lexeme>, ExpandFault>
    requires place { at < length text.now }
    requires head { IsHead text.now at Head.Text }
    requires next { progress.old.next ≤ length text.now }
    requires limits { IsWithinLimits progress.old }
    requires empty { HaveEmpty standing.old.sets }
    requires first { progress.old.rows ≡ [] }
    ensures same { IfOk result (λ _. IsSame standing.old standing.new) }
    ensures on { IfOk result (λ _. at < progress.new.next) }
    ensures expands { AnswersText source.now standing.old standing.new text.now at progress.old progress.new result }
{
    line_in_order();
    text_goes_on();
    tokens_in_order();
    let tokens = read_line(alloc, text, at, progress)?;
    expand_text(
        alloc,
        source,
        text,
        &standing.macros,
        &mut standing.sets,
        tokens,
        progress,
    )
}

impl<'a> Reader<'a> {
    /// The tokens of a line.
    pub fn lexed(&self, text: &[u8], at: usize) -> Result<Line, Fault>
        requires { at ≤ length text.now }
        ensures lexes { IsLexed text.now at result }
        ensures within { IfOk result (λ line. line.next ≤ length text.now) }
        ensures behind { IfOk result (λ line. IsBehind text.now at line.next) }
    {
        lines_go_on();
        match lex_line(self.alloc, text, at) {
            Ok(line) => Ok(line),
            Err(LineFault::Bad { at }) => Err(faulty(CppKind::Lex, at)),
            Err(LineFault::NoMemory) => Err(no_memory(at)),
        }
    }

    /// Whether lines are read, not passed over.
    pub fn is_reading(&self) -> bool
        ensures { result ≡ is_reading (reverse self.now.standing.sections) }
    {
        match self.standing.sections.as_slice().last() {
            Some(section) => section.active,
            None => true,
        }
    }

    /// Passes over a directive of a group that is left out.
    pub fn pass_directive(
        &mut self,
        text: &[u8],
        at: usize,
        hash: usize,
        name: Span,
    ) -> Result<usize, Fault>
        requires place { at < length text.now }
        requires within { IsWithin self.old }
        ensures keeps { Keeps self.old self.new }
        ensures within { IfOk result (λ next. IsWithin self.new × (next ≤ length text.now) × (at < next)) }
        ensures steps { (file : File) → IsRead self.old file text.now → AnswersStep self.old self.new (DoesPassed self.old.source.now file at hash name) result }
    {
        lines_go_on();
        let next = pass_line(text, at);
        match pass_name(&mut self.standing.nested, name_in(text, name)) {
            Ok(true) => Ok(next),
            Ok(false) => Err(faulty(CppKind::Condition, hash)),
            Err(_) => Err(no_memory(hash)),
        }
    }

    /// Does what a directive says whose line has these tokens.
    fn obey_tokens(&mut self, tokens: &[Token], name: &[u8], hash: usize) -> Result<(), Fault>
        requires within { IsWithin self.old }
        ensures keeps { Keeps self.old self.new }
        ensures within { IfOk result (λ _. IsWithin self.new) }
        ensures still { IsStill self.old self.new }
        ensures steps { AnswersTokens self.old self.new (DoesTokens self.old.source.now digits_of hash name.now tokens.now) result }
    {
        let [first, rest @ ..] = tokens else {
            return Err(faulty(CppKind::Directive, hash));
        };
        if first.len != 1 {
            return Err(faulty(CppKind::Directive, hash));
        }
        let [_, tokens @ ..] = rest else {
            return Ok(());
        };
        let directive = Directive { name, tokens, hash };
        self.standing
            .obey(self.alloc, self.source, digits(), directive)
    }

    /// Obeys a directive whose line lexes whole.
    pub fn obey(&mut self, text: &'a [u8], hash: usize, name: Span) -> Result<usize, Fault>
        requires place { hash < length text.now }
        requires within { IsWithin self.old }
        ensures keeps { Keeps self.old self.new }
        ensures within { IfOk result (λ next. IsWithin self.new × (next ≤ length text.now) × (hash < next)) }
        ensures steps { (file : File) → IsRead self.old file text.now → AnswersStep self.old self.new (DoesWhole self.old.source.now digits_of file hash name) result }
    {
        let line = self.lexed(text, hash)?;
        self.obey_tokens(line.tokens.as_slice(), name_in(text, name), hash)?;
        Ok(line.next)
    }

    /// Reads a text line with what its calls read further, and puts out what it comes to.
    pub fn read_text(&mut self, text: &'a [u8], at: usize) -> Result<usize, Fault>
        requires place { at < length text.now }
        requires head { IsHead text.now at Head.Text }
        requires within { IsWithin self.old }
        ensures keeps { Keeps self.old self.new }
        ensures within { IfOk result (λ next. IsWithin self.new × (next ≤ length text.now) × (at < next)) }
        ensures steps { (file : File) → IsRead self.old file text.now → AnswersStep self.old self.new (DoesText self.old.source.now file at) result }
    {
        let mut progress = Progress {
            next: at,
            rows: Items::new(self.alloc),
            produced: self.standing.produced,
            size: self.size,
        };
        let expanded = expanded(
            self.alloc,
            self.source,
            text,
            at,
            &mut self.standing,
            &mut progress,
        );
        let out = match expanded {
            Ok(out) => out,
            Err(fault) => return Err(of_expansion(fault)),
        };
        self.standing.produced = progress.produced;
        self.size = progress.size;
        let rows = progress.rows.as_slice();
        match put_rows(self.source, rows, out.as_slice(), &mut self.out) {
            Ok(()) => Ok(progress.next),
            Err(AllocError) => Err(no_memory(at)),
        }
    }
}

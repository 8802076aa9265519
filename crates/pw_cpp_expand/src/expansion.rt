//! Expansion of tokens, on a stack of open calls.

ghost use Rattle.std.specs.Prelude.{◌≡◌, ◌≤◌, ◌<◌, ◌+◌, ◌++◌, ◌∷◌, [], length, map, reverse, option_map, All, IfOk, IfSome, IsTrue, MatchOption, if◌then◌else◌, None, OnOk, Some, false, true, ◌↔◌};
ghost use Rattle.pw_cpp_expand.specs.AtHand.{AnswersExpansion, AnswersRead, ComesTo, IsCallKnown, IsCallOpened, IsReadKnown, IsReady, IsReplacedBy, IsStep, IsWaiting, IsWithinLimits, PutsOut, PutsResult, mode_of, raw_named, waiting_for};
ghost use Rattle.pw_cpp_expand.specs.Calls as cutting;
ghost use Rattle.pw_cpp_expand.specs.Expansion as spec;
ghost use Rattle.pw_cpp_expand.specs.Left.{left, left_of_call};
ghost use Rattle.pw_cpp_expand.specs.Lookahead as ahead;
ghost use Rattle.pw_cpp_expand.specs.Numbered.{AreKnown, HaveEmpty, all_named, at_hand, named, room_of};
ghost use Rattle.pw_cpp_sets.specs.Sets.{Known};

use crate::ahead::{look_ahead, put_fresh};
use crate::arguments::collect;
use crate::progress::{ExpandFault, Lexeme, Mode, OUTPUT_LIMIT, PRODUCED_LIMIT, Progress};
use crate::result::{Expanded, Replaced, is_used, result_of};
use pw_cpp_lines::lines_go_on;
use pw_cpp_macros::{Macro, Macros, is_spelled, is_word, spelled};
use pw_cpp_sets::Sets;
use pw_items::Items;
use pw_token::Token;
use std::alloc::{AllocError, Global};

/// An argument that is not expanded yet, for its parameter.
#[derive(Drop)]
struct Raw {
    parameter: Token,
    tokens: Items<Lexeme>,
}

/// A call whose arguments are expanded, the first one first.
#[derive(Drop)]
struct Call<'m> {
    meaning: &'m Macro,
    replaced: Replaced,
    /// The parameter whose argument is at hand.
    parameter: Token,
    /// The arguments behind it, the next one last.
    waiting: Items<Raw>,
    expanded: Items<Expanded>,
    /// What stood at hand behind the call, the first token last, and what stood before it.
    behind: Items<Lexeme>,
    before: Items<Lexeme>,
}

/// What is at hand while tokens are expanded.
#[derive(Drop)]
pub struct Expander<'m> {
    /// The tokens that are to be expanded, the first one last.
    pending: Items<Lexeme>,
    /// Those that stand in their place.
    out: Items<Lexeme>,
    calls: Items<Call<'m>>,
}

/// What all steps share.
#[derive(Clone, Copy)]
struct Ground<'a, 'm> {
    alloc: Global,
    source: &'a [u8],
    text: &'a [u8],
    macros: &'m Macros<'a>,
    /// Outside all calls.
    mode: Mode,
}

fn macro_of<'a, 'm>(ground: Ground<'a, 'm>, sets: &Sets<'a>, lexeme: Lexeme) -> Option<&'m Macro>
    requires { lexeme.hidden < length sets.now }
    ensures { option_map (λ found. found.now) result ≡ spec.macro_of ground.entry.source.now ground.entry.macros.now (named sets.now lexeme) }
{
    if !is_word(lexeme.token) {
        return None;
    }
    let name = spelled(ground.source, lexeme.token);
    if sets.contains(lexeme.hidden, name) {
        return None;
    }
    ground.macros.find(name)
}

/// The length of an output with a token that is put out, or None where it passes the limit.
fn size_with(mode: Mode, size: usize, lexeme: Lexeme) -> Option<usize>
    requires { size ≤ ahead.output_limit }
    ensures { MatchOption result (ahead.output_limit < size + room_of mode lexeme) (λ more. (more ≡ size + room_of mode lexeme) × (more ≤ ahead.output_limit)) }
{
    match mode {
        Mode::Alone => Some(size),
        Mode::InText => {
            if OUTPUT_LIMIT - size <= lexeme.token.len {
                return None;
            }
            Some(size + lexeme.token.len + 1)
        }
    }
}

impl<'m> Expander<'m> {
    /// The mode in which the tokens at hand are expanded.
    fn mode_in(&self, mode: Mode) -> Mode
        ensures { result ≡ mode_of mode self.now.calls }
    {
        if self.calls.is_empty() {
            return mode;
        }
        Mode::Alone
    }

    /// Lets a token stand.
    fn put_out(
        &mut self,
        mode: Mode,
        lexeme: Lexeme,
        progress: &mut Progress,
    ) -> Result<(), ExpandFault>
        requires { progress.old.size ≤ ahead.output_limit }
        ensures { PutsOut mode lexeme self.old progress.old self.new progress.new result }
    {
        let mode = self.mode_in(mode);
        let Some(size) = size_with(mode, progress.size, lexeme) else {
            return Err(ExpandFault::Length { at: lexeme.place });
        };
        self.out.push(lexeme)?;
        progress.size = size;
        Ok(())
    }

    /// Puts what replaces a name or a call in front of the tokens at hand.
    fn put_result(
        &mut self,
        made: Items<Lexeme>,
        place: usize,
        progress: &mut Progress,
    ) -> Result<(), ExpandFault>
        requires { progress.old.produced ≤ spec.produced_limit }
        ensures { PutsResult made place self.old progress.old self.new progress.new result }
    {
        let count = made.len();
        let room = PRODUCED_LIMIT - progress.produced;
        if room < count {
            return Err(ExpandFault::Produced { at: place });
        }
        put_in_front(made, &mut self.pending)?;
        progress.produced += count;
        Ok(())
    }

    /// Replaces the innermost call, whose arguments are expanded.
    fn replace_call<'a>(
        &mut self,
        ground: Ground<'a, 'm>,
        sets: &mut Sets<'a>,
        call: Call<'m>,
        progress: &mut Progress,
    ) -> Result<(), ExpandFault>
        requires ready { IsReady ground.text.now sets.old self.old progress.old }
        requires call { IsCallKnown sets.old call }
        ensures left { IfOk result (λ _. left (length ground.entry.text.now) self.new progress.new ≤ left (length ground.entry.text.now) self.old progress.old + length call.entry.behind) }
        ensures comes { IsStep ground.entry.source.now ground.entry.text.now ground.entry.macros.now ground.entry.mode sets.old (IsReplacedBy ground.entry.source.now ground.entry.text.now ground.entry.macros.now ground.entry.mode sets.old self.old call.entry progress.old) sets.new self.new progress.new result }
    {
        let Ground { alloc, source, .. } = ground;
        let meaning = call.meaning;
        let replaced = call.replaced;
        let replacement = meaning.replacement.as_slice();
        let arguments = call.expanded.as_slice();
        let made = result_of(alloc, source, sets, replaced, arguments, replacement)?;
        self.pending = call.behind;
        self.out = call.before;
        self.put_result(made, replaced.place, progress)
    }

    /// Begins with an argument of a call, where nothing is at hand.
    fn begin_argument(&mut self, call: Call<'m>, tokens: Items<Lexeme>) -> Result<(), AllocError>
        requires { self.old.pending ≡ [] }
        ensures { IfOk result (λ _. self.new ≡ record self.old { calls = self.old.calls ++ call.entry ∷ []; pending = reverse tokens }) }
    {
        self.calls.push(call)?;
        put_in_front(tokens, &mut self.pending)?;
        Ok(())
    }

    /// Goes on with the innermost call behind the argument that is expanded.
    fn end_argument<'a>(
        &mut self,
        ground: Ground<'a, 'm>,
        sets: &mut Sets<'a>,
        call: Call<'m>,
        progress: &mut Progress,
    ) -> Result<(), ExpandFault>
        requires ready { IsReady ground.text.now sets.old self.old progress.old }
        requires call { IsCallKnown sets.old call }
        requires pending { self.old.pending ≡ [] }
        ensures left { IfOk result (λ _. left (length ground.entry.text.now) self.new progress.new < left (length ground.entry.text.now) self.old progress.old + left_of_call call.entry) }
        ensures comes { IsStep ground.entry.source.now ground.entry.text.now ground.entry.macros.now ground.entry.mode sets.old (λ outcome. ComesTo ground.entry.source.now ground.entry.text.now ground.entry.macros.now ground.entry.mode sets.old (record self.old { calls = self.old.calls ++ call.entry ∷ [] }) progress.old outcome) sets.new self.new progress.new result }
    {
        let mut call = call;
        let tokens = std::mem::replace(&mut self.out, Items::new(ground.alloc));
        let parameter = call.parameter;
        call.expanded.push(Expanded { parameter, tokens })?;
        let Some(next) = call.waiting.pop() else {
            return self.replace_call(ground, sets, call, progress);
        };
        call.parameter = next.parameter;
        self.begin_argument(call, next.tokens)?;
        Ok(())
    }

    /// Replaces the name of a macro that takes no arguments.
    fn replace_name<'a>(
        &mut self,
        ground: Ground<'a, 'm>,
        sets: &mut Sets<'a>,
        name: Lexeme,
        meaning: &Macro,
        progress: &mut Progress,
    ) -> Result<(), ExpandFault>
        requires ready { IsReady ground.text.now sets.old self.old progress.old }
        requires name { name.hidden < length sets.old }
        requires meant { spec.macro_of ground.source.now ground.macros.now (named sets.old name) ≡ Some meaning.now }
        requires alone { meaning.now.parameters ≡ None }
        ensures left { IfOk result (λ _. left (length ground.entry.text.now) self.new progress.new ≤ left (length ground.entry.text.now) self.old progress.old) }
        ensures comes { IsStep ground.entry.source.now ground.entry.text.now ground.entry.macros.now ground.entry.mode sets.old (λ outcome. ComesTo ground.entry.source.now ground.entry.text.now ground.entry.macros.now ground.entry.mode sets.old (record self.old { pending = self.old.pending ++ name ∷ [] }) progress.old outcome) sets.new self.new progress.new result }
    {
        let Ground { alloc, source, .. } = ground;
        let hidden = sets.with_name(spelled(source, name.token), name.hidden)?;
        let place = name.place;
        let replaced = Replaced { hidden, place };
        let replacement = meaning.replacement.as_slice();
        let made = result_of(alloc, source, sets, replaced, &[], replacement)?;
        self.put_result(made, place, progress)
    }

    /// Begins with a call, behind its `(`.
    fn open_call<'a>(
        &mut self,
        ground: Ground<'a, 'm>,
        sets: &mut Sets<'a>,
        name: Lexeme,
        meaning: &'m Macro,
        parameters: &[Token],
        progress: &mut Progress,
    ) -> Result<(), ExpandFault>
        requires ready { IsReady ground.text.now sets.old self.old progress.old }
        requires name { name.hidden < length sets.old }
        requires meant { spec.macro_of ground.source.now ground.macros.now (named sets.old name) ≡ Some meaning.now }
        requires parameters { meaning.now.parameters ≡ Some parameters.now }
        ensures left { IfOk result (λ _. left (length ground.entry.text.now) self.new progress.new ≤ left (length ground.entry.text.now) self.old progress.old + 1) }
        ensures comes { IsStep ground.entry.source.now ground.entry.text.now ground.entry.macros.now ground.entry.mode sets.old (IsCallOpened ground.entry.source.now ground.entry.text.now ground.entry.macros.now ground.entry.mode sets.old self.old name progress.old) sets.new self.new progress.new result }
    {
        lines_go_on();
        let Ground { alloc, source, .. } = ground;
        let mode = self.mode_in(ground.mode);
        let read = read_call(
            ground,
            mode,
            name.place,
            meaning,
            parameters,
            &mut self.pending,
            progress,
        )?;
        let shared = sets.shared(alloc, name.hidden, read.close.hidden)?;
        let hidden = sets.with_name(spelled(source, name.token), shared)?;
        let place = name.place;
        let mut waiting = read.waiting;
        let first = waiting.pop();
        let behind = std::mem::replace(&mut self.pending, Items::new(alloc));
        let before = std::mem::replace(&mut self.out, Items::new(alloc));
        let mut call = Call {
            meaning,
            replaced: Replaced { hidden, place },
            parameter: name.token,
            waiting,
            expanded: Items::new(alloc),
            behind,
            before,
        };
        let Some(next) = first else {
            return self.replace_call(ground, sets, call, progress);
        };
        call.parameter = next.parameter;
        self.begin_argument(call, next.tokens)?;
        Ok(())
    }

    /// Expands the name of a macro that takes arguments, which stands where no `(` follows.
    fn call_or_stand<'a>(
        &mut self,
        ground: Ground<'a, 'm>,
        sets: &mut Sets<'a>,
        name: Lexeme,
        meaning: &'m Macro,
        parameters: &[Token],
        progress: &mut Progress,
    ) -> Result<(), ExpandFault>
        requires ready { IsReady ground.text.now sets.old self.old progress.old }
        requires name { name.hidden < length sets.old }
        requires meant { spec.macro_of ground.source.now ground.macros.now (named sets.old name) ≡ Some meaning.now }
        requires parameters { meaning.now.parameters ≡ Some parameters.now }
        ensures left { IfOk result (λ _. left (length ground.entry.text.now) self.new progress.new ≤ left (length ground.entry.text.now) self.old progress.old) }
        ensures comes { IsStep ground.entry.source.now ground.entry.text.now ground.entry.macros.now ground.entry.mode sets.old (λ outcome. ComesTo ground.entry.source.now ground.entry.text.now ground.entry.macros.now ground.entry.mode sets.old (record self.old { pending = self.old.pending ++ name ∷ [] }) progress.old outcome) sets.new self.new progress.new result }
    {
        lines_go_on();
        let mode = self.mode_in(ground.mode);
        look_ahead(ground.alloc, ground.text, mode, &mut self.pending, progress)?;
        let Some(first) = self.pending.pop() else {
            return self.put_out(ground.mode, name, progress);
        };
        if is_spelled(ground.source, b"(", first.token) {
            return self.open_call(ground, sets, name, meaning, parameters, progress);
        }
        self.pending.push(first)?;
        self.put_out(ground.mode, name, progress)
    }

    /// Expands a token that is at hand.
    fn expand_one<'a>(
        &mut self,
        ground: Ground<'a, 'm>,
        sets: &mut Sets<'a>,
        lexeme: Lexeme,
        progress: &mut Progress,
    ) -> Result<(), ExpandFault>
        requires ready { IsReady ground.text.now sets.old self.old progress.old }
        requires lexeme { lexeme.hidden < length sets.old }
        ensures left { IfOk result (λ _. left (length ground.entry.text.now) self.new progress.new ≤ left (length ground.entry.text.now) self.old progress.old) }
        ensures comes { IsStep ground.entry.source.now ground.entry.text.now ground.entry.macros.now ground.entry.mode sets.old (λ outcome. ComesTo ground.entry.source.now ground.entry.text.now ground.entry.macros.now ground.entry.mode sets.old (record self.old { pending = self.old.pending ++ lexeme ∷ [] }) progress.old outcome) sets.new self.new progress.new result }
    {
        let Some(meaning) = macro_of(ground, sets, lexeme) else {
            return self.put_out(ground.mode, lexeme, progress);
        };
        match &meaning.parameters {
            None => self.replace_name(ground, sets, lexeme, meaning, progress),
            Some(parameters) => {
                let parameters = parameters.as_slice();
                self.call_or_stand(ground, sets, lexeme, meaning, parameters, progress)
            }
        }
    }

    /// Expands the first token at hand, or goes on with the innermost call behind an argument that is expanded. Answers whether there
    /// was one of them.
    fn turn<'a>(
        &mut self,
        ground: Ground<'a, 'm>,
        sets: &mut Sets<'a>,
        progress: &mut Progress,
    ) -> Result<bool, ExpandFault>
        requires { IsReady ground.text.now sets.old self.old progress.old }
        ensures left { IfOk result (λ more. more ≡ true → left (length ground.entry.text.now) self.new progress.new < left (length ground.entry.text.now) self.old progress.old) }
        ensures done { IfOk result (λ more. more ≡ false → (self.new.pending ≡ []) × (self.new.calls ≡ [])) }
        ensures comes { IsStep ground.entry.source.now ground.entry.text.now ground.entry.macros.now ground.entry.mode sets.old (λ outcome. ComesTo ground.entry.source.now ground.entry.text.now ground.entry.macros.now ground.entry.mode sets.old self.old progress.old outcome) sets.new self.new progress.new result }
    {
        if let Some(lexeme) = self.pending.pop() {
            self.expand_one(ground, sets, lexeme, progress)?;
            return Ok(true);
        }
        if let Some(call) = self.calls.pop() {
            self.end_argument(ground, sets, call, progress)?;
            return Ok(true);
        }
        Ok(false)
    }

    /// Expands what is at hand, to its end.
    fn run<'a>(
        &mut self,
        ground: Ground<'a, 'm>,
        sets: &mut Sets<'a>,
        progress: &mut Progress,
    ) -> Result<(), ExpandFault>
        requires { IsReady ground.text.now sets.old self.old progress.old }
        ensures done { IfOk result (λ _. (self.new.pending ≡ []) × (self.new.calls ≡ [])) }
        ensures comes { IsStep ground.entry.source.now ground.entry.text.now ground.entry.macros.now ground.entry.mode sets.old (λ outcome. ComesTo ground.entry.source.now ground.entry.text.now ground.entry.macros.now ground.entry.mode sets.old self.old progress.old outcome) sets.new self.new progress.new result }
    {
        loop {
            let more = self.turn(ground, sets, progress)?;
            if !more {
                return Ok(());
            }
        }
    }
}

/// The arguments of a call that are expanded, the first one last, and the `)` that closes it.
#[derive(Drop)]
struct Read {
    waiting: Items<Raw>,
    close: Lexeme,
}

/// Reads the arguments of a call whose name stands at a place, from behind its `(` on.
fn read_call(
    ground: Ground<'_, '_>,
    mode: Mode,
    place: usize,
    meaning: &Macro,
    parameters: &[Token],
    pending: &mut Items<Lexeme>,
    progress: &mut Progress,
) -> Result<Read, ExpandFault>
    requires { progress.old.next ≤ length ground.text.now }
    ensures answers { AnswersRead ground.entry.source.now ground.entry.text.now mode parameters.now meaning.now.replacement place pending.old progress.old pending.new progress.new result }
    ensures within { progress.new.next ≤ length ground.entry.text.now }
    ensures known { IfOk result (λ read. (known : Known) → 0 < length known → AreKnown known pending.old → AreKnown known pending.new × IsReadKnown known read) }
{
    let Ground {
        alloc,
        source,
        text,
        ..
    } = ground;
    let found = collect(alloc, source, text, mode, pending, progress)?;
    let Some(call) = found else {
        return Err(ExpandFault::Call { at: place });
    };
    let close = call.close;
    let replacement = meaning.replacement.as_slice();
    let used = waiting_of(alloc, source, parameters, replacement, call.arguments)?;
    let Some(waiting) = used else {
        return Err(ExpandFault::Call { at: place });
    };
    Ok(Read { waiting, close })
}

/// The arguments of a call: of a macro without parameters one alone that is empty is none.
fn given(
    alloc: Global,
    parameters: &[Token],
    arguments: Items<Items<Lexeme>>,
) -> Items<Items<Lexeme>>
    ensures named { (known : Known) → map (all_named known) result ≡ cutting.arguments_of parameters.now (map (all_named known) arguments) }
    ensures known { (known : Known) → All (AreKnown known) arguments → All (AreKnown known) result }
{
    if !parameters.is_empty() {
        return arguments;
    }
    if is_one_empty(&arguments) {
        return Items::new(alloc);
    }
    arguments
}

/// Whether there is one argument alone, which is empty.
fn is_one_empty(arguments: &Items<Items<Lexeme>>) -> bool
    ensures { IsTrue result ↔ (arguments.now ≡ [] ∷ []) }
{
    let all = arguments.as_slice();
    if all.len() != 1 {
        return false;
    }
    all[0].is_empty()
}

/// Adds an argument whose parameter stands in the replacement.
fn push_used(
    source: &[u8],
    replacement: &[Token],
    raw: Raw,
    waiting: &mut Items<Raw>,
) -> Result<(), AllocError>
    ensures { OnOk result (waiting.new ≡ (if cutting.is_used source.now replacement.now raw.parameter then waiting.old ++ raw ∷ [] else waiting.old)) }
{
    if is_used(source, replacement, raw.parameter) {
        waiting.push(raw)?;
    }
    Ok(())
}

/// Of as many arguments as parameters those whose parameters stand in the replacement, the first one last.
fn used_of(
    alloc: Global,
    source: &[u8],
    parameters: &[Token],
    replacement: &[Token],
    arguments: Items<Items<Lexeme>>,
) -> Result<Items<Raw>, AllocError>
    requires { length arguments ≡ length parameters.now }
    ensures waits { (known : Known) → IfOk result (λ raws. map (raw_named source.now known) (reverse raws) ≡ waiting_for source.now replacement.now parameters.now (map (all_named known) arguments)) }
    ensures known { (known : Known) → All (AreKnown known) arguments → IfOk result (All (λ raw. AreKnown known raw.tokens)) }
{
    let mut arguments = arguments;
    let mut count = parameters.len();
    let mut waiting = Items::new(alloc);
    while let Some(tokens) = arguments.pop() {
        count -= 1;
        let parameter = parameters[count];
        push_used(source, replacement, Raw { parameter, tokens }, &mut waiting)?;
    }
    Ok(waiting)
}

/// The arguments whose parameters stand in the replacement, the first one last, or None where there are more or fewer arguments than
/// parameters.
fn waiting_of(
    alloc: Global,
    source: &[u8],
    parameters: &[Token],
    replacement: &[Token],
    arguments: Items<Items<Lexeme>>,
) -> Result<Option<Items<Raw>>, AllocError>
    ensures waits { (known : Known) → IfOk result (IsWaiting source.now known parameters.now replacement.now arguments) }
    ensures known { (known : Known) → All (AreKnown known) arguments → IfOk result (λ found. IfSome found (All (λ raw. AreKnown known raw.tokens))) }
{
    let arguments = given(alloc, parameters, arguments);
    if arguments.len() != parameters.len() {
        return Ok(None);
    }
    let used = used_of(alloc, source, parameters, replacement, arguments)?;
    Ok(Some(used))
}

/// The tokens of a text line with what its calls read further, expanded.
pub fn expand_text<'a>(
    alloc: Global,
    source: &'a [u8],
    text: &'a [u8],
    macros: &Macros<'a>,
    sets: &mut Sets<'a>,
    tokens: Items<Token>,
    progress: &mut Progress,
) -> Result<Items<Lexeme>, ExpandFault>
    requires within { progress.old.next ≤ length text.now }
    requires limits { IsWithinLimits progress.old }
    requires empty { HaveEmpty sets.old }
    ensures { AnswersExpansion source.now text.now macros.now Mode.InText sets.old (map ahead.fresh tokens) progress.old sets.new progress.new result }
{
    let mut pending = Items::new(alloc);
    put_fresh(tokens, &mut pending)?;
    let mode = Mode::InText;
    let ground = Ground {
        alloc,
        source,
        text,
        macros,
        mode,
    };
    expanded(ground, sets, pending, progress)
}

/// Tokens expanded by themselves, as those of a `#if`.
pub fn expand_alone<'a>(
    alloc: Global,
    source: &'a [u8],
    macros: &Macros<'a>,
    sets: &mut Sets<'a>,
    tokens: Items<Lexeme>,
    progress: &mut Progress,
) -> Result<Items<Lexeme>, ExpandFault>
    requires within { progress.old.next ≤ length source.now }
    requires limits { IsWithinLimits progress.old }
    requires empty { HaveEmpty sets.old }
    requires known { AreKnown sets.old tokens }
    ensures { AnswersExpansion source.now source.now macros.now Mode.Alone sets.old (all_named sets.old tokens) progress.old sets.new progress.new result }
{
    let mut pending = Items::new(alloc);
    put_in_front(tokens, &mut pending)?;
    let mode = Mode::Alone;
    let ground = Ground {
        alloc,
        source,
        text: source,
        macros,
        mode,
    };
    expanded(ground, sets, pending, progress)
}

/// Puts tokens in front of those at hand, which are kept with the first one last.
fn put_in_front(tokens: Items<Lexeme>, pending: &mut Items<Lexeme>) -> Result<(), AllocError>
    ensures { OnOk result (pending.new ≡ pending.old ++ reverse tokens) }
{
    let mut tokens = tokens;
    while let Some(lexeme) = tokens.pop() {
        pending.push(lexeme)?;
    }
    Ok(())
}

fn expanded<'a, 'm>(
    ground: Ground<'a, 'm>,
    sets: &mut Sets<'a>,
    pending: Items<Lexeme>,
    progress: &mut Progress,
) -> Result<Items<Lexeme>, ExpandFault>
    requires within { progress.old.next ≤ length ground.text.now }
    requires limits { IsWithinLimits progress.old }
    requires empty { HaveEmpty sets.old }
    requires known { AreKnown sets.old pending }
    ensures { AnswersExpansion ground.entry.source.now ground.entry.text.now ground.entry.macros.now ground.entry.mode sets.old (at_hand sets.old pending) progress.old sets.new progress.new result }
{
    let out = Items::new(ground.alloc);
    let calls = Items::new(ground.alloc);
    let mut expander = Expander {
        pending,
        out,
        calls,
    };
    expander.run(ground, sets, progress)?;
    let Expander { out, .. } = expander;
    Ok(out)
}

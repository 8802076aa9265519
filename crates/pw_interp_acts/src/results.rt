//! Results of operands, lvalues and conversions.

ghost use Rattle.std.specs.Prelude.{◌≡◌, ◌≢◌, IfErr};
ghost use Rattle.pw_types.specs.Views.{view_qtype, view_type};
ghost use Rattle.pw_cmean.specs.Evaluation as meaning;
ghost use Rattle.pw_cmean.specs.Evaluation.{site};
ghost use Rattle.pw_interp_state.specs.Shown.{Shown, view_state};
ghost use Rattle.pw_interp_calls.specs.Answers.{Answers};
ghost use Rattle.pw_interp_calls.specs.Views.{view_env};
ghost use Rattle.pw_interp_acts.specs.Results as spec;

use crate::nodes::settle;
use pw_cmean::Undef;
use pw_interp_calls::{Env, Stop};
use pw_interp_state::{Category, Fault, Objects, State, categorise, convert, fetch};
use pw_types::{CType, QType};
use pw_value::Value;

/// The result of an operand, which is not to be missing.
fn present(answer: Option<Value>) -> Result<Value, Fault>
    ensures { result ≡ spec.present answer }
{
    answer.ok_or(Fault::Undefined(Undef::MissingResult))
}

/// The result of an operand. A function may have returned none, which its operator meets (ISO C90 6.6.6.4).
pub fn used<'a>(env: &Env<'a>, token: usize, answer: Option<Value>) -> Result<Value, Stop<'a>>
    ensures answers { (s : Shown) → Answers (λ x. x) (view_env env.now).world (meaning.used (site (view_env env.now) token) answer) s result s }
    ensures no_memory { IfErr result (λ stop. stop ≢ Stop.NoMemory) }
{
    settle(env, token, present(answer))
}

/// The value of an lvalue of a category at a place; of void there is none.
#[inline(always)]
fn value_by(objects: &Objects, category: Category, place: Value) -> Result<Option<Value>, Fault>
    ensures { result ≡ spec.value_by objects.now category place }
{
    match category {
        Category::Void => Ok(None),
        Category::Int(_)
        | Category::Pointer
        | Category::Array
        | Category::Function
        | Category::Record => {
            let value = fetch(objects, category, place)?;
            Ok(Some(value))
        }
    }
}

/// The value of an lvalue of a type at a place; what a pointer to void points to has none (ISO C90 6.2.2.1, 6.2.2.2).
#[inline(always)]
pub fn value_at<'a>(
    env: &Env<'a>,
    state: &State,
    token: usize,
    ty: &QType,
    place: Value,
) -> Result<Option<Value>, Stop<'a>>
    ensures answers { Answers (λ x. x) (view_env env.now).world (meaning.value_at (view_env env.now) token (view_qtype ty.now) place) (view_state state.now) result (view_state state.now) }
    ensures no_memory { IfErr result (λ stop. stop ≢ Stop.NoMemory) }
{
    let answer = value_by(&state.objects, categorise(&ty.ty), place);
    settle(env, token, answer)
}

/// What a conversion to a category makes of an operand's result; to void there is none.
fn cast_to(category: Category, answer: Option<Value>) -> Result<Option<Value>, Fault>
    ensures { result ≡ spec.cast_to category answer }
{
    match category {
        Category::Void => Ok(None),
        Category::Int(_)
        | Category::Pointer
        | Category::Array
        | Category::Function
        | Category::Record => {
            let value = convert(category, present(answer)?)?;
            Ok(Some(value))
        }
    }
}

/// What a conversion to a type makes of an operand's result; to void there is none, nor need there be one (ISO C90
/// 6.3.4).
pub fn cast<'a>(
    env: &Env<'a>,
    token: usize,
    ty: &CType,
    answer: Option<Value>,
) -> Result<Option<Value>, Stop<'a>>
    ensures answers { (s : Shown) → Answers (λ x. x) (view_env env.now).world (meaning.cast (site (view_env env.now) token) (view_type ty.now) answer) s result s }
    ensures no_memory { IfErr result (λ stop. stop ≢ Stop.NoMemory) }
{
    settle(env, token, cast_to(categorise(ty), answer))
}

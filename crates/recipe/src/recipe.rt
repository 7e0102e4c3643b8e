//! From a text to a plan.
ghost use Rattle.std.specs.Prelude.{◌≡◌, IfOk, IsErrOf, Err, None};
ghost use Rattle.std.specs.Str.{IsUtf8};
ghost use Rattle.toml.specs.{Parse.parse_document, View.view};
ghost use Rattle.plan.specs.Profile.{IsPlan};
ghost use Rattle.document.specs.{Errors.Gives};
ghost use Rattle.recipe.specs.{Plans.judged, Plans.plan_at, Plans.plan_of};

use crate::spots::{key_spot, kind_spot, limit_spot, name_spot, path_spot, unknown_spot};
use document::error::{Flaw, PlanError};
use document::reading::draft_at;
use plan::draft::Draft;
use plan::plan::Plan;
use std::alloc::Global;
use toml::Value;

/// The plan that a recipe says, or its refusal, with the place of the fault.
///
/// The passes, of which the first that finds a fault answers: the text is TOML (20); each field
/// that is needed is there (21) and of its kind, and there are no others (23); limits and the form
/// of names are kept (26); names are apart (27); named tables and columns are there (22); no table
/// reaches the views by two ways (24); views are keyed by a left column, in a group by the stage
/// key (25); kinds agree (23). Want of memory is 1. Whatever the answer, nothing is left behind.
/// Cost: a look at each byte, and at each pair of names.
pub fn from_toml(alloc: Global, text: &str) -> Result<Plan, PlanError>
    // Want of memory aside, the answer is that of the definition: the plan, or the first refusal.
    ensures exact { Gives (λ p. p) result (plan_of text.now) }
    // A plan is of the profile.
    ensures profile { IfOk result (λ p. IsPlan p) }
    // What is no TOML is refused as such.
    ensures not_toml { parse_document text.now ≡ None → Gives (λ p. p) result (Err 20) }
{
    match toml::table_from_str(alloc, text) {
        Ok(members) => plan_of_document(alloc, &Value::Table(members)),
        Err(error) => {
            if error.is_memory() {
                Err(PlanError::NoMemory)
            } else {
                Err(PlanError::NotToml)
            }
        }
    }
}

/// The plan that the bytes of a recipe say: as [`from_toml`], and 20 where they are no UTF-8.
pub fn from_bytes(alloc: Global, bytes: &[u8]) -> Result<Plan, PlanError>
    ensures text { IsUtf8 bytes.now → Gives (λ p. p) result (plan_of bytes.now) }
    ensures no_text { ¬ (IsUtf8 bytes.now) → IsErrOf result PlanError.NotToml }
{
    match str::from_utf8(bytes) {
        Ok(text) => from_toml(alloc, text),
        Err(_) => Err(PlanError::NotToml),
    }
}

fn plan_of_document(alloc: Global, document: &Value) -> Result<Plan, PlanError>
    ensures { Gives (λ p. p) result (plan_at (view document.now)) }
{
    let draft = draft_at(alloc, document)?;
    judge(draft)
}

/// The plan of a draft, or the refusal of the first check that fails: limits and names (26), names
/// that are alike (27), unknown tables and columns (22), a double path (24), keys of views (25),
/// kinds (23). Takes no memory.
pub fn judge(draft: Draft) -> Result<Plan, PlanError>
    ensures { Gives (λ p. p) result (judged draft) }
{
    check(&draft)?;
    Ok(Plan::from_checked(draft))
}

// The refusal of the first check that fails.
#[tactic(auto, unfolding(plan::specs::Profile::IsPlan))]
fn check(draft: &Draft) -> Result<(), PlanError>
    ensures first { Gives (λ _. draft.now) result (judged draft.now) }
    ensures plan { IfOk result (λ _. IsPlan draft.now) }
{
    if !draft.keeps_limits() {
        return Err(PlanError::At(Flaw::LimitExceeded, limit_spot(draft)));
    }
    if !draft.has_own_names() {
        return Err(PlanError::At(Flaw::DuplicateName, name_spot(draft)));
    }
    if !draft.has_known_places() {
        return Err(PlanError::At(Flaw::UnknownColumn, unknown_spot(draft)));
    }
    if !draft.has_single_paths() {
        return Err(PlanError::At(Flaw::DoublePath, path_spot()));
    }
    if !draft.has_left_keys() {
        return Err(PlanError::At(Flaw::KeyNotLeft, key_spot(draft)));
    }
    if !draft.has_one_kind() {
        return Err(PlanError::At(Flaw::TypeMismatch, kind_spot(draft)));
    }
    Ok(())
}

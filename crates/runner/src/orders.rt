//! Orders to evict the key that a word is.
use book::law::Naming;
use row::refused::Refused;
use script::cell::value_of;
use script::columns::{kind_of_key, kind_of_stage_key};
use sessions::session::Session;
use std::alloc::Global;
use std::borrow::CowStr;
use std::sync::Wait;

/// Orders the stage shard to forget the stage key that the word is.
pub(crate) fn evict_stage<J: Naming, R: Wait>(
    rt: &R,
    alloc: Global,
    session: &mut Session<J>,
    word: CowStr<'_>,
) -> Result<(), Refused> {
    let key = value_of(alloc, kind_of_stage_key(session.plan()), word)?;
    session.evict_stage(rt, alloc, &key)
}

/// Orders the view's shard to forget the key that the word is.
pub(crate) fn evict_view<J: Naming, R: Wait>(
    rt: &R,
    alloc: Global,
    session: &mut Session<J>,
    view: &str,
    word: CowStr<'_>,
) -> Result<(), Refused> {
    let key = value_of(alloc, kind_of_key(session.plan(), view), word)?;
    session.evict_view(rt, alloc, view, &key)
}

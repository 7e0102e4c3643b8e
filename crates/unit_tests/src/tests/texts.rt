//! Texts, of which those of at most 24 bytes may be kept in two forms.
use row::value::{Value, shard_of};
use std::alloc::{AllocError, Global};
use std::cmp::Ordering;
use std::collections::HashMap;
use std::sync::ArcStr;
use std::test::Fail;

/// Texts in order: of 0, 1, 23, 24, 25 and 60 bytes, and of 24 and 26 by characters of two each.
const TEXTS: [&str; 8] = [
    "",
    "a",
    "abcdefghijklmnopqrstuvw",
    "abcdefghijklmnopqrstuvwx",
    "abcdefghijklmnopqrstuvwxy",
    "abcdefghijklmnopqrstuvwxyzabcdefghijklmnopqrstuvwxyzabcdefgh",
    "éééééééééééé",
    "ééééééééééééé",
];

/// The text as it is kept, as a longer one is kept, and a copy of either.
fn forms(alloc: Global, text: &str) -> Result<Vec<Value>, AllocError> {
    let kept = Value::text(alloc, text)?;
    let long = Value::Text(ArcStr::from_str(alloc, text)?);
    let copy = kept.try_clone(alloc)?;
    let other = long.try_clone(alloc)?;
    Ok(vec![in alloc; kept, long, copy, other]?)
}

/// Whether each form of the text stands so to each of the other text.
fn stand_so(alloc: Global, text: &str, other: &str, order: Ordering) -> Result<bool, AllocError> {
    let others = forms(alloc, other)?;
    let forms = forms(alloc, text)?;
    Ok(
        forms.iter().all(|form| {
            others.iter().all(|other| form.compare(other) == order
                && form.is_same(other) == order.is_eq())
        }),
    )
}

#[test]
fn texts_compare_in_every_form(rt: HostRuntime) -> Result<(), Fail> {
    for at in 0..TEXTS.len() {
        for other in 0..TEXTS.len() {
            let order = at.cmp(&other);
            assert!(rt;
                stand_so(rt.alloc(), TEXTS[at], TEXTS[other], order)?,
                "{at}, {other}"
            );
        }
    }
    Ok(())
}

/// Among 100 shards that of each text: the sum of its bytes, without hundreds.
const SHARDS: [usize; 8] = [0, 97, 84, 4, 25, 98, 68, 32];

/// Whether each form of the text tells its bytes, has the shard and is printed so.
fn tell(alloc: Global, text: &str, shard: usize, printed: &str) -> Result<bool, AllocError> {
    for form in &forms(alloc, text)? {
        let told = form.as_text() == Some(text) && form.as_number().is_none();
        if !told || shard_of(form, 100) != shard || form.to_string(alloc)?.as_str() != printed {
            return Ok(false);
        }
    }
    Ok(true)
}

#[test]
fn texts_are_told_in_every_form(rt: HostRuntime) -> Result<(), Fail> {
    for at in 0..TEXTS.len() {
        let text = TEXTS[at];
        let printed = if text.is_empty() { "\"\"" } else { text };
        assert!(rt; tell(rt.alloc(), text, SHARDS[at], printed)?, "{text}");
    }
    Ok(())
}

/// The place of each text, by the text.
fn places(alloc: Global) -> Result<HashMap<Value, usize>, AllocError> {
    let mut places = HashMap::new(alloc);
    for (at, text) in TEXTS.iter().enumerate() {
        for form in forms(alloc, text)? {
            places.insert(form, at)?;
        }
    }
    Ok(places)
}

#[test]
fn texts_are_keys_in_every_form(rt: HostRuntime) -> Result<(), Fail> {
    let places = places(rt.alloc())?;
    assert!(rt; places.len() == TEXTS.len());
    for (at, text) in TEXTS.iter().enumerate() {
        for form in &forms(rt.alloc(), text)? {
            assert!(rt; places.get(form) == Some(&at), "{text}");
        }
    }
    Ok(())
}

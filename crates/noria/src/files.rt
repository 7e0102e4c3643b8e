//! The recipes and scripts that files hold.
use crate::fault::Fault;
use crate::texts::Texts;
use plan::plan::Plan;
use recipe::recipe::from_bytes;
use row::refused::Refused;
use script::script::{ScriptCall, read_script};
use std::alloc::{AllocError, Global};
use std::thread::{self, Threads};

/// The plan of the recipe of this name. Errors: the file cannot be read, memory, or the first fault
/// of the recipe.
pub fn plan_named<T: Texts>(alloc: Global, recipe: &str, texts: &mut T) -> Result<Plan, Fault> {
    let text = texts.text(recipe)?;
    Ok(from_bytes(alloc, text.as_slice())?)
}

/// The texts of scripts up to the first that cannot be read, and why that one cannot.
#[derive(Drop)]
pub struct ScriptTexts {
    pub texts: Vec<Vec<u8>>,
    pub refusal: Option<Refused>,
}

/// Reads the scripts of these names, up to the first that cannot be read, be it for want of memory.
/// Errors: memory for the list of texts.
pub fn texts_of_all<T: Texts>(
    alloc: Global,
    scripts: &[String],
    texts: &mut T,
) -> Result<ScriptTexts, AllocError> {
    let mut read = ScriptTexts {
        texts: Vec::with_capacity(alloc, scripts.len())?,
        refusal: None,
    };
    for script in scripts {
        match texts.text(script.as_str()) {
            Ok(text) => read.texts.push(text)?,
            Err(refused) => {
                read.refusal = Some(refused);
                break;
            }
        }
    }
    Ok(read)
}

/// The calls of the texts of scripts, each read by a thread of its own where one can be made.
/// Errors: memory, or the first line at fault of the first text in order that has one.
pub fn calls_of_all<'t, R: Threads + Sync>(
    rt: &R,
    alloc: Global,
    texts: &'t [Vec<u8>],
) -> Result<Vec<Vec<ScriptCall<'t>>>, Fault> {
    let mut slices = Vec::with_capacity(alloc, texts.len())?;
    for text in texts {
        slices.push(text.as_slice()).map_err(|_| Refused::NoMemory)?;
    }
    let read = thread::map_vec(rt, slices, &|text| read_script(alloc, text))?;
    let mut all = Vec::new(alloc);
    for calls in read {
        all.push(calls?).map_err(|_| Refused::NoMemory)?;
    }
    Ok(all)
}

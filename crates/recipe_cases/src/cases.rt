//! The cases of a text. Each stands behind a line `== NAME`: a recipe, and then questions, each
//! behind `? ` at the beginning of a line.
use crate::plans::write_plan;
use crate::rows::write_row;
use document::error::PlanError;
use plan::plan::Plan;
use recipe::recipe::from_toml;
use std::alloc::{AllocError, Global};
use std::io::{self, Write};

/// Prints for each case of the text its name, and then its plan, and whether each row that it asks
/// of passes, or why its recipe is refused. What stands before the first case is for readers.
pub fn write_cases<W: Write>(alloc: Global, text: &str, out: &mut W) -> io::Result<()> {
    for case in text.split("\n== ").skip(1) {
        let printed = text_of(alloc, case)?;
        out.write_all(printed.as_bytes())?;
    }
    Ok(())
}

// What is printed of a case. It is written to memory, where only want of it is an error.
fn text_of(alloc: Global, case: &str) -> Result<String, AllocError> {
    let mut out = String::new(alloc);
    write_case(alloc, case, &mut out)?;
    Ok(out)
}

fn write_case(alloc: Global, case: &str, out: &mut String) -> Result<(), AllocError> {
    let Some((name, body)) = case.split_once('\n') else {
        return Ok(());
    };
    writeln!(out, "== {name}")?;
    let (recipe, questions) = body.split_once("\n? ").unwrap_or((body, ""));
    match from_toml(alloc, recipe) {
        Ok(plan) => write_answers(alloc, &plan, questions, out),
        Err(error) => write_refusal(error, out),
    }
}

fn write_answers(
    alloc: Global,
    plan: &Plan,
    questions: &str,
    out: &mut String,
) -> Result<(), AllocError> {
    write_plan(alloc, plan, out)?;
    for question in questions.split("\n? ") {
        if !question.is_empty() {
            write_row(alloc, plan, question.trim_end(), out)?;
        }
    }
    Ok(())
}

// Want of memory is no reason why a recipe is refused: it is the error.
fn write_refusal(error: PlanError, out: &mut String) -> Result<(), AllocError> {
    if let PlanError::NoMemory = error {
        return Err(AllocError);
    }
    write!(out, "refused {}", error.number())?;
    write!(out, " {}", error.name())?;
    writeln!(out, ": {error}")
}

//! What passes a filter.
use super::plans::{CLICKS, side};
use super::words::{records, rows, written, written_records};
use ops::filter;
use std::alloc::{AllocError, Global};
use std::test::Fail;

fn kept(alloc: Global, text: &str) -> Result<String, AllocError> {
    let kept = filter::full(alloc, &side(alloc, CLICKS.left)?, &rows(alloc, text)?)?;
    written(alloc, kept.rows())
}

fn kept_records(alloc: Global, text: &str) -> Result<String, AllocError> {
    let kept = filter::step(alloc, &side(alloc, CLICKS.left)?, &records(alloc, text)?)?;
    written_records(alloc, &kept)
}

#[test]
fn what_passes_is_kept(rt: HostRuntime) -> Result<(), Fail> {
    let alloc = rt.alloc();
    let kept = kept(
        alloc,
        "3 home 7;1 home 5;2 home -3;1 home 5;4 home;5 home x",
    )?;
    assert!(rt; kept.as_str() == "1 home 5;1 home 5;3 home 7", "{kept}");
    let kept = kept_records(alloc, "-1 home 5;+2 home -3;+1 home 6;-1 home 0")?;
    assert!(rt; kept.as_str() == "-1 home 5;+1 home 6", "{kept}");
    Ok(())
}

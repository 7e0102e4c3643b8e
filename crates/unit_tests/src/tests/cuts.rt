//! Cuts as they are printed, and as floors take them.
use model::floors::Floors;
use model::lengths::Lengths;
use std::alloc::{AllocError, Global};
use std::test::Fail;

/// How many stage shards, the lengths of the sources at each, and the cut as it is printed.
const PRINTED: [(usize, &[u64], &str); 4] = [
    (0, &[3], ""),
    (1, &[3], "3"),
    (1, &[0, 1, 4294967295], "0,1,4294967295"),
    (2, &[0, 20], "0,20/0,20"),
];

fn printed(alloc: Global, stages: usize, line: &[u64]) -> Result<String, AllocError> {
    Lengths::even(alloc, stages, line)?.to_string(alloc)
}

#[test]
fn cuts_are_printed(rt: HostRuntime) -> Result<(), Fail> {
    for (stages, line, text) in PRINTED {
        assert!(rt;
            printed(rt.alloc(), stages, line)?.as_str() == text,
            "{text}"
        );
    }
    Ok(())
}

/// The lengths at each stage shard.
type CutOf = &'static [&'static [u64]];

/// A floor, a cut that it takes, whether that is in its place, and the floor after it.
const TAKEN: [(CutOf, CutOf, bool, &str); 7] = [
    (&[&[1, 2], &[3, 4]], &[&[5, 6], &[7, 8]], true, "5,6/7,8"),
    (
        &[&[1, 2, 3, 4, 5]],
        &[&[6, 7, 8, 9, 10]],
        true,
        "6,7,8,9,10",
    ),
    (&[&[1], &[2], &[3]], &[&[4], &[5], &[6]], true, "4/5/6"),
    (&[], &[&[5, 6], &[7, 8]], false, "5,6/7,8"),
    (&[&[1]], &[&[1], &[2]], false, "1/2"),
    (&[&[1, 2]], &[&[1]], false, "1"),
    (&[&[1, 2]], &[&[6, 7, 8, 9, 10]], false, "6,7,8,9,10"),
];

fn cut(alloc: Global, of: CutOf) -> Result<Lengths, AllocError> {
    let mut cut = Lengths::empty(alloc);
    for lengths in of {
        cut.push_line(alloc, lengths)?;
    }
    Ok(cut)
}

// The floor after the cut, and whether it took that in its place.
fn taken(alloc: Global, floor: CutOf, of: CutOf) -> Result<(String, bool), AllocError> {
    let row = vec![in alloc; cut(alloc, floor)?]?;
    let mut floors = Floors::new(vec![in alloc; row]?);
    let cut = cut(alloc, of)?;
    let room = floors.room_for(alloc, 0, 0, &cut)?;
    let is_in_place = room.is_none();
    floors.copy(0, 0, &cut, room);
    let none = Lengths::empty(alloc);
    Ok((floors.floor_at(0, 0, &none).to_string(alloc)?, is_in_place))
}

#[test]
fn floors_take_cuts(rt: HostRuntime) -> Result<(), Fail> {
    for (floor, of, in_place, text) in TAKEN {
        let (found, is_in_place) = taken(rt.alloc(), floor, of)?;
        assert!(rt; found.as_str() == text, "{found}, not {text}");
        assert!(rt; is_in_place == in_place, "{text}");
    }
    Ok(())
}

/// A cut, a stage shard, a source, the length that is set there in a copy, and the cut and its copy.
const SET: [(CutOf, usize, usize, u64, &str); 4] = [
    (&[&[1, 2]], 0, 1, 9, "1,2 1,9"),
    (&[&[1, 2], &[3, 4]], 1, 0, 9, "1,2/3,4 1,2/9,4"),
    (&[&[1, 2, 3, 4, 5]], 0, 4, 9, "1,2,3,4,5 1,2,3,4,9"),
    (&[&[1], &[2], &[3]], 2, 0, 9, "1/2/3 1/2/9"),
];

fn set(
    alloc: Global,
    of: CutOf,
    stage: usize,
    source: usize,
    len: u64,
) -> Result<String, AllocError> {
    let cut = cut(alloc, of)?;
    let mut copy = cut.try_clone(alloc)?;
    if stage < copy.stages() && source < copy.line(stage).len() {
        copy.set(stage, source, len);
    }
    format!(in alloc; "{cut} {copy}")
}

#[test]
fn copies_have_lengths_of_their_own(rt: HostRuntime) -> Result<(), Fail> {
    for (of, stage, source, len, text) in SET {
        let found = set(rt.alloc(), of, stage, source, len)?;
        assert!(rt; found.as_str() == text, "{found}, not {text}");
    }
    Ok(())
}

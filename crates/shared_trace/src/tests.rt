//! Two parts of which each event may come at any time: calls that no contract makes succeed do.

ghost use Rattle.std.specs.Prelude.{◌≡◌};

use super::*;
use std::marker::Brand;
use std::test::*;

/// Events are the numbers of their parts.
struct Turns;

impl Laws<u64> for Turns {
    ghost parts = { 2 };

    ghost part_of = { λ e. e };

    ghost may = { λ past e. Unit {0} };

    ghost some = { 0 };
}

struct First;

impl Said<u64> for First {
    ghost event = { 0 };
}

struct Second;

impl Said<u64> for Second {
    ghost event = { 1 };
}

/// Returns the number of the first call that answers otherwise than it should, or 0.
fn first_wrong<J: Naming>(opened: Opened<u64, Turns>) -> u32
    requires name { opened.seen.book ≡ J.book }
    requires parts { opened.parts ≡ 2 }
{
    let (book, front) = opened.named::<J>();
    let mut first = Mark::new(0, &front);
    let mut second = Mark::new(1, &front);
    let mut behind = Mark::new(1, &front);
    if !first.step::<First>(&book) {
        return 1;
    }
    if !second.step::<Second>(&book) || !second.step::<Second>(&book) {
        return 2;
    }
    // it doesn't know what its part did
    if behind.step::<Second>(&book) {
        return 3;
    }
    let others = [Mark::new(0, &front), behind];
    if close(&book, &front, &others).is_some() {
        return 4;
    }
    let marks = [first, second];
    if close(&book, &front, &marks).is_none() {
        return 5;
    }
    0
}

#[test]
fn marks_of_all_parts_close(rt: HostRuntime) -> Result<(), Fail> {
    let opened = Opened::<u64, Turns>::new(rt.alloc(), 2)?;
    assert_eq!(rt; first_wrong::<Brand>(opened), 0);
    Ok(())
}

//! Lists of steps that any party may take, and what they answer.

use react_core::outside::{Report, Reports};
use react_core::reactor::{Begun, Dir};
use react_steps::kind::{Answer, Kind, StepError, Taken};
use react_steps::world::{World, run_steps};
use std::alloc::{AllocError, Global};
use std::test::Fail;

/// A list of kinds that grows step by step.
#[derive(Drop)]
struct List {
    alloc: Global,
    kinds: Vec<Kind>,
}

impl List {
    fn new(alloc: Global) -> List {
        List {
            alloc,
            kinds: Vec::new(alloc),
        }
    }

    fn add(&mut self, kind: Kind) -> Result<(), AllocError> {
        Ok(self.kinds.push(kind)?)
    }

    fn insert(&mut self, key: usize) -> Result<(), AllocError> {
        self.add(Kind::Insert {
            wire: 7,
            key,
            fault: false,
        })
    }

    fn poll(&mut self, key: usize, task: u64) -> Result<(), AllocError> {
        self.add(Kind::Poll {
            key,
            dir: Dir::Read,
            task,
            fault: false,
        })
    }

    fn begin(&mut self) -> Result<(), AllocError> {
        self.add(Kind::Begin {
            now: 0,
            timeout: None,
        })
    }

    /// The wait returns with one report of a key's read, and the round ends.
    fn end(&mut self, key: usize) -> Result<(), AllocError> {
        let report = Report {
            key,
            read: true,
            write: false,
        };
        let reports = Reports::from_vec(vec![in self.alloc; report]?);
        self.add(Kind::Returned {
            reports,
            fault: false,
        })?;
        self.add(Kind::Finish {
            later: None,
            fault: false,
        })
    }

    fn run(self) -> Result<World, StepError> {
        run_steps(self.alloc, self.kinds)
    }
}

/// The answer of a step, and the first task that it woke.
fn made(history: &[Taken], index: usize) -> Option<(Answer, Option<u64>)> {
    let taken = history.get(index)?;
    Some((taken.answer, taken.woken.as_slice().first().copied()))
}

#[test]
fn a_round_that_had_begun_is_no_answer(rt: HostRuntime) -> Result<(), Fail> {
    let mut list = List::new(rt.alloc());
    list.insert(0)?;
    list.begin()?;
    list.poll(0, 5)?;
    list.end(0)?;
    list.poll(0, 5)?;
    let world = list.run()?;
    assert_eq!(rt; world.history().len(), 6);
    let begun = Begun {
        round: 1,
        timeout: None,
    };
    assert_eq!(rt;
        made(world.history(), 1),
        Some((Answer::Begun(begun), None))
    );
    // The round's end woke the task all the same.
    assert_eq!(rt; made(world.history(), 4), Some((Answer::Done, Some(5))));
    assert_eq!(rt; made(world.history(), 5), Some((Answer::Pending, None)));
    Ok(())
}

#[test]
fn a_later_round_is_one(rt: HostRuntime) -> Result<(), Fail> {
    let mut list = List::new(rt.alloc());
    list.insert(0)?;
    list.begin()?;
    list.poll(0, 5)?;
    list.end(0)?;
    list.poll(0, 5)?;
    list.begin()?;
    list.end(0)?;
    list.poll(0, 5)?;
    let world = list.run()?;
    assert_eq!(rt; made(world.history(), 9), Some((Answer::Ready, None)));
    Ok(())
}

#[test]
fn a_step_that_there_is_not_ends_the_list(rt: HostRuntime) -> Result<(), Fail> {
    let mut list = List::new(rt.alloc());
    list.end(0)?;
    assert_eq!(rt; list.run().err(), Some(StepError::Disabled { index: 0 }));
    let mut list = List::new(rt.alloc());
    list.insert(0)?;
    list.insert(1)?;
    list.insert(0)?;
    assert_eq!(rt; list.run().err(), Some(StepError::Disabled { index: 2 }));
    Ok(())
}

#[test]
fn many_steps_over_many_keys(rt: HostRuntime) -> Result<(), Fail> {
    let mut list = List::new(rt.alloc());
    for key in 0..1000usize {
        list.insert(999 - key)?;
    }
    for index in 0..33_000usize {
        let key = (index & 1023).min(999);
        list.poll(key, 5)?;
        list.begin()?;
        list.end(key)?;
    }
    let world = list.run()?;
    assert_eq!(rt; world.history().len(), 133_000);
    assert_eq!(rt;
        made(world.history(), 132_999),
        Some((Answer::Done, Some(5)))
    );
    Ok(())
}
